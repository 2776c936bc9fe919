// Why and where something is refused.
#![tactic(auto)]

ghost use Rattle.std.specs.Prelude.{◌≡◌, ℕ};
ghost use Rattle.refusal.specs.Refusals.{refused, shown};

use std::fmt;

// A reason, with the number by which it is known.
pub trait Numbered {
    ghost number_of: { Self → ℕ };

    fn number(self) -> u8
        ensures { result ≡ number_of self };
}

// A refusal for a reason. The line and the field are counted from 1, and 0 where there is none; both are of the type N.
#[derive(Clone, Copy, PartialEq, Eq, Debug)]
pub struct Refusal<R, N = usize> {
    pub reason: R,
    pub line: N,
    pub field: N,
}

impl<R, N> Refusal<R, N> {
    pub fn new(reason: R, line: N, field: N) -> Refusal<R, N>
        ensures { result ≡ refused reason line «field» }
    {
        Refusal {
            reason,
            line,
            field,
        }
    }
}

// `NUMBER,LINE,FIELD`
impl<R: Numbered + Copy, N: fmt::Display + Copy> fmt::Display for Refusal<R, N> {
    ghost output = { λ r. shown (R.Numbered.number_of r.reason) (N.Display.output r.line) (N.Display.output r.field) };

    fn fmt<W: fmt::Write>(&self, f: &mut fmt::Formatter<W>) -> fmt::Result {
        let number = self.reason.number();
        let line = self.line;
        let field = self.field;
        write!(f, "{number},{line},{field}")
    }
}
