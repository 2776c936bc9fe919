// Operators and items over what waits.
ghost use Rattle.std.specs.Prelude.{◌≡◌, ◌+◌, ◌<◌, ◌≤◌, [], not, OnOk};
ghost use Rattle.motion.specs.Pairs.{numbers_of};
ghost use Rattle.motion.specs.Items.{truth, bind, wait, number_at, two_numbers, two_truths, one_truth, calculated, combined, item as item_meaning};
ghost use Rattle.entries.specs.Decoding.{operator_item, item_of};
ghost use Rattle.postfix.specs.Stacks.{waiting, got_after, got_value, calculation_of, connective_of};

use crate::flaw::Flaw;
use crate::stack::Stack;
use crate::values::{literal, value_at};
use number::{Answer, Kind, Operation, Pair};
use script::{Operator, Token, Word};

// What takes two truths.
#[derive(Clone, Copy, PartialEq, Eq, Debug)]
pub enum Connective {
    And,
    Or,
}

impl Connective {
    // Both truths are worked out before.
    fn of(self, a: bool, b: bool) -> bool
        ensures { result ≡ combined (connective_of self) a b }
    {
        match self {
            Connective::And => a & b,
            Connective::Or => a | b,
        }
    }
}

// An operation on two numbers of a kind; what it does not answer is a flaw at this field.
fn operate<K: Kind>(operation: Operation, a: Pair, b: Pair, field: u32) -> Result<Answer, Flaw>
    ensures { got_value result ≡ calculated (numbers_of K.Kind.means K.Kind.code) «field» (calculation_of operation) a b }
{
    operation
        .apply::<K>(a, b)
        .map_err(|fault| Flaw::new(fault, field))
}

impl Stack {
    // Two numbers give way to what the operation comes to.
    fn calculate<K: Kind>(&mut self, operation: Operation, field: u32) -> Result<(), Flaw>
        ensures waits { got_after result self.new ≡ bind (two_numbers (waiting self.old)) (λ p. bind (calculated (numbers_of K.Kind.means K.Kind.code) «field» (calculation_of operation) p.0.0 p.0.1) (wait p.1)) }
        ensures deep { OnOk result (self.new.depth ≤ self.old.depth) }
    {
        let b = self.number()?;
        let a = self.number()?;
        self.push(operate::<K>(operation, a, b, field)?);
        Ok(())
    }

    // Two truths give way to one.
    fn combine(&mut self, connective: Connective) -> Result<(), Flaw>
        ensures waits { got_after result self.new ≡ bind (two_truths (waiting self.old)) (λ p. wait p.1 (truth (combined (connective_of connective) p.0.0 p.0.1))) }
        ensures deep { OnOk result (self.new.depth ≤ self.old.depth) }
    {
        let b = self.truth()?;
        let a = self.truth()?;
        self.push(Answer::Truth(connective.of(a, b)));
        Ok(())
    }

    // A truth gives way to the other.
    fn negate(&mut self) -> Result<(), Flaw>
        ensures waits { got_after result self.new ≡ bind (one_truth (waiting self.old)) (λ p. wait p.1 (truth (not p.0))) }
        ensures deep { OnOk result (self.new.depth ≤ self.old.depth) }
    {
        let a = self.truth()?;
        self.push(Answer::Truth(!a));
        Ok(())
    }

    // What an operator does with what waits.
    fn apply<K: Kind>(&mut self, operator: Operator, field: u32) -> Result<(), Flaw>
        ensures waits { got_after result self.new ≡ item_meaning (numbers_of K.Kind.means K.Kind.code) [] «field» (operator_item operator) (waiting self.old) }
        ensures deep { OnOk result (self.new.depth ≤ self.old.depth) }
    {
        match operator {
            Operator::Add => self.calculate::<K>(Operation::Add, field),
            Operator::Sub => self.calculate::<K>(Operation::Sub, field),
            Operator::Mul => self.calculate::<K>(Operation::Mul, field),
            Operator::Div => self.calculate::<K>(Operation::Div, field),
            Operator::Lt => self.calculate::<K>(Operation::Lt, field),
            Operator::Le => self.calculate::<K>(Operation::Le, field),
            Operator::And => self.combine(Connective::And),
            Operator::Or => self.combine(Connective::Or),
            Operator::Not => self.negate(),
        }
    }

    // A number waits on top, if there is one.
    fn put(&mut self, number: Option<Pair>, field: u32) -> Result<(), Flaw>
        requires { self.old.depth < 18 }
        ensures waits { got_after result self.new ≡ bind (number_at «field» number) (wait (waiting self.old)) }
        ensures deep { OnOk result (self.new.depth ≤ self.old.depth + 1) }
    {
        let number = number.ok_or(Flaw::NotHeld(field))?;
        self.push(Answer::Number(number));
        Ok(())
    }

    // One item over what waits, at these values; `place` is that of the variable that it names.
    pub fn item<K: Kind>(
        &mut self,
        values: &[Pair],
        token: Token,
        place: Option<u8>,
        field: u32,
    ) -> Result<(), Flaw>
        requires { self.old.depth < 18 }
        ensures waits { got_after result self.new ≡ item_meaning (numbers_of K.Kind.means K.Kind.code) values.now «field» (item_of token place) (waiting self.old) }
        ensures deep { OnOk result (self.new.depth ≤ self.old.depth + 1) }
    {
        match token {
            Token::Number(n) => self.put(literal::<K>(n), field),
            Token::Name => self.put(value_at(values, place), field),
            Token::Word(Word::Item(operator)) => self.apply::<K>(operator, field),
            _ => self.negate(),
        }
    }
}
