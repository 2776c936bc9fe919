// The items of a line: what waits after each of them, by sort alone.
ghost use Rattle.std.specs.Prelude.{◌≡◌, ◌≤◌, [], length, reverse};
ghost use Rattle.entries.specs.Sorts.{waiting, push, of_sorts, operate, after_item, after_items, gives, seen, seen_pile};

use arrayvec::ArrayVec;
use script::{Entry, Operator, Token, Word};

// What a result is.
#[derive(Clone, Copy, PartialEq, Eq, Debug, Default)]
pub enum Sort {
    #[default]
    Number,
    Truth,
}

// The sorts of the results that wait, the last on top; at most 8 can wait.
type Pile = ArrayVec<Sort, 8>;

// One result more waits, if there is room.
fn push_sort(pile: &mut Pile, sort: Sort) -> Option<()>
    ensures { seen result pile.new ≡ push sort (waiting pile.old) }
{
    pile.try_push(sort).ok()
}

// Results of these sorts give way to one of this sort.
fn give_way(pile: &mut Pile, operands: &[Sort], sort: Sort) -> Option<()>
    requires { 1 ≤ length operands.now }
    ensures { seen result pile.new ≡ of_sorts (reverse operands.now) sort (waiting pile.old) }
{
    let rest = pile.as_slice().strip_suffix(operands)?.len();
    pile.truncate(rest);
    pile.push(sort);
    Some(())
}

// What waits after an operator, if it finds operands of its sort.
fn operate_on(pile: &mut Pile, operator: Operator) -> Option<()>
    ensures { seen result pile.new ≡ operate operator (waiting pile.old) }
{
    let numbers = [Sort::Number, Sort::Number];
    let truths = [Sort::Truth, Sort::Truth];
    match operator {
        Operator::Add | Operator::Sub | Operator::Mul | Operator::Div => {
            give_way(pile, &numbers, Sort::Number)
        }
        Operator::Lt | Operator::Le => give_way(pile, &numbers, Sort::Truth),
        Operator::And | Operator::Or => give_way(pile, &truths, Sort::Truth),
        Operator::Not => give_way(pile, &truths[..1], Sort::Truth),
    }
}

// What waits after an item, if it keeps the rules.
fn take_item(pile: &mut Pile, token: Token) -> Option<()>
    ensures { seen result pile.new ≡ after_item token (waiting pile.old) }
{
    match token {
        Token::Name | Token::Number(_) => push_sort(pile, Sort::Number),
        Token::Word(Word::Item(operator)) => operate_on(pile, operator),
        _ => None,
    }
}

// What waits after all items of a line.
fn take_items(items: &[Entry]) -> Option<Pile>
    ensures { seen_pile result ≡ after_items items.now [] }
{
    let mut pile = Pile::new();
    for entry in items {
        take_item(&mut pile, entry.token)?;
    }
    Some(pile)
}

// Whether the items give one result of this sort.
pub fn items_give(items: &[Entry], sort: Sort) -> bool
    ensures { result ≡ gives sort items.now }
{
    match take_items(items) {
        Some(pile) => pile[..] == [sort],
        None => false,
    }
}
