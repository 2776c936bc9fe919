// The items of a line, worked out from left to right.
ghost use Rattle.std.specs.Prelude.{◌≡◌, ◌≤◌, [], length, IfOk};
ghost use Rattle.motion.specs.Pairs.{numbers_of};
ghost use Rattle.motion.specs.Items.{items as items_meaning, number_of, truth_of};
ghost use Rattle.entries.specs.Decoding.{items_in};
ghost use Rattle.postfix.specs.Located.{located};
ghost use Rattle.postfix.specs.Flaws.{got};
ghost use Rattle.postfix.specs.Stacks.{got_stack};
ghost use Rattle.postfix.specs.Expressions.{OnLine};

use crate::flaw::Flaw;
use crate::stack::Stack;
use entries::Resolved;
use number::{Kind, Pair};
use record::Refusal;

// Items at these values of the variables; they stand on this line, from this field on.
#[derive(Clone, Copy)]
pub struct Expression<'a> {
    pub values: &'a [Pair],
    pub items: Resolved<'a>,
    pub line: u32,
    pub field: u32,
}

// An answer; its flaw as a refusal on this line.
fn refuse_on<T>(line: u32, answer: Result<T, Flaw>) -> Result<T, Refusal>
    ensures { result ≡ located line (got answer) }
{
    answer.map_err(|flaw| flaw.on(line))
}

impl Expression<'_> {
    // What waits after the items; they are refused where a line cannot have them.
    fn work<K: Kind>(&self) -> Result<Stack, Flaw>
        ensures { OnLine self.now → got_stack result ≡ items_meaning (numbers_of K.Kind.means K.Kind.code) self.now.values.now self.now.field (items_in self.now.items) [] }
    {
        let entries = self.items.entries;
        let variables = self.items.variables;
        if entries.len() > 18 || self.field > 1000 {
            return Err(Flaw::Broken);
        }
        let mut stack = Stack::new();
        for (i, entry) in entries.iter().enumerate() {
            let field = self.field + i as u32;
            stack.item::<K>(self.values, entry.token, variables[i], field)?;
        }
        Ok(stack)
    }

    // The number that waits last.
    fn last_number<K: Kind>(&self) -> Result<Pair, Flaw>
        ensures { OnLine self.now → got result ≡ number_of (numbers_of K.Kind.means K.Kind.code) self.now.values.now self.now.field (items_in self.now.items) }
    {
        self.work::<K>()?.number()
    }

    // The truth that waits last.
    fn last_truth<K: Kind>(&self) -> Result<bool, Flaw>
        ensures { OnLine self.now → got result ≡ truth_of (numbers_of K.Kind.means K.Kind.code) self.now.values.now self.now.field (items_in self.now.items) }
    {
        self.work::<K>()?.truth()
    }

    // The number that the items come to.
    pub fn number<K: Kind>(&self) -> Result<Pair, Refusal>
        ensures { OnLine self.now → result ≡ located self.now.line (number_of (numbers_of K.Kind.means K.Kind.code) self.now.values.now self.now.field (items_in self.now.items)) }
    {
        refuse_on(self.line, self.last_number::<K>())
    }

    // The truth that they come to.
    pub fn truth<K: Kind>(&self) -> Result<bool, Refusal>
        ensures { OnLine self.now → result ≡ located self.now.line (truth_of (numbers_of K.Kind.means K.Kind.code) self.now.values.now self.now.field (items_in self.now.items)) }
    {
        refuse_on(self.line, self.last_truth::<K>())
    }
}
