// Items worked out in fractions.
use super::*;
use entries::Resolved;
use kinds::fractions::Fractions;
use number::Pair;
use record::Refusal;
use script::{Entry, Number, Operator, Token, Word};
use std::test::Fail;

fn entry(token: Token) -> Entry {
    Entry {
        place: Entry::BLANK.place,
        token,
    }
}

fn whole(top: u32) -> Entry {
    entry(Token::Number(Number {
        minus: false,
        top,
        bottom: 1,
    }))
}

fn operator(operator: Operator) -> Entry {
    entry(Token::Word(Word::Item(operator)))
}

// A pair by its parts, or a refusal by its number, line and field.
fn told(r: Result<Pair, Refusal>) -> Result<(i64, i64), (u8, u32, u32)> {
    match r {
        Ok(p) => Ok((p.a, p.b)),
        Err(e) => Err((e.reason.number(), e.line, e.field)),
    }
}

// x less 3, over 2, at 8; and over 0.
#[test]
fn numbers(rt: HostRuntime) {
    let env = [Pair { a: 8, b: 1 }];
    let places = [Some(0), None, None, None, None];
    let name = entry(Token::Name);
    let less = operator(Operator::Sub);
    let over = operator(Operator::Div);
    let halved = [name, whole(3), less, whole(2), over];
    let half = Expression {
        values: &env,
        items: Resolved::new(&halved, &places),
        line: 4,
        field: 3,
    };
    assert_eq!(rt; told(half.number::<Fractions>()), Ok((5, 2)));
    let by_zero = [name, whole(3), less, whole(0), over];
    let none = Expression {
        items: Resolved::new(&by_zero, &places),
        ..half
    };
    assert_eq!(rt; told(none.number::<Fractions>()), Err((21, 4, 7)));
}

// 1 below 2, and not 2 below 1; at no place of the variables.
#[test]
fn truths(rt: HostRuntime) -> Result<(), Fail> {
    let places = [None; 8];
    let lt = operator(Operator::Lt);
    let not = operator(Operator::Not);
    let and = operator(Operator::And);
    let both = [whole(1), whole(2), lt, whole(2), whole(1), lt, not, and];
    let expression = Expression {
        values: &[],
        items: Resolved::new(&both, &places),
        line: 1,
        field: 2,
    };
    match expression.truth::<Fractions>() {
        Ok(b) => {
            assert!(rt; b);
            Ok(())
        },
        Err(_) => {
            assert!(rt; false);
            Ok(())
        },
    }
}
