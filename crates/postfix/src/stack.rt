// The results that wait while the items of a line are worked out.
ghost use Rattle.std.specs.Prelude.{◌≡◌, ◌+◌, ◌<◌, ◌≤◌, [], ◌∷◌, OnOk, OnSome, MatchOption};

use crate::flaw::Flaw;
use number::{Answer, Pair};

// The first `depth` of the slots wait, the last on top. A line has at most 18 fields, so 18 slots are enough.
#[derive(Clone, Copy)]
pub struct Stack {
    depth: usize,
    slots: [Answer; 18],
    ghost small: { depth ≤ 18 },
}

impl Stack {
    ghost use Rattle.motion.specs.Items.{one_truth};
    ghost use Rattle.postfix.specs.Stacks.{value_of, waiting, got_with, one_number};

    // Nothing waits.
    pub fn new() -> Stack
        ensures waits { waiting result ≡ [] }
        ensures deep { result.depth ≡ 0 }
    {
        Stack {
            depth: 0,
            slots: [Answer::Truth(false); 18],
        }
    }

    pub fn push(&mut self, answer: Answer)
        requires { self.old.depth < 18 }
        ensures waits { waiting self.new ≡ value_of answer ∷ waiting self.old }
        ensures deep { self.new.depth ≡ self.old.depth + 1 }
    {
        self.slots[self.depth] = answer;
        self.depth += 1;
    }

    // Takes the last result off, if one waits.
    fn pop(&mut self) -> Option<Answer>
        ensures waits { MatchOption result (waiting self.old ≡ []) (λ a. waiting self.old ≡ value_of a ∷ waiting self.new) }
        ensures deep { OnSome result (self.new.depth + 1 ≡ self.old.depth) }
    {
        if self.depth == 0 {
            return None;
        }
        self.depth -= 1;
        Some(self.slots[self.depth])
    }

    // Takes a number off.
    pub fn number(&mut self) -> Result<Pair, Flaw>
        ensures waits { got_with result self.new ≡ one_number (waiting self.old) }
        ensures deep { OnOk result (self.new.depth + 1 ≡ self.old.depth) }
    {
        match self.pop() {
            Some(Answer::Number(p)) => Ok(p),
            _ => Err(Flaw::Broken),
        }
    }

    // Takes a truth off.
    pub fn truth(&mut self) -> Result<bool, Flaw>
        ensures waits { got_with result self.new ≡ one_truth (waiting self.old) }
        ensures deep { OnOk result (self.new.depth + 1 ≡ self.old.depth) }
    {
        match self.pop() {
            Some(Answer::Truth(b)) => Ok(b),
            _ => Err(Flaw::Broken),
        }
    }
}
