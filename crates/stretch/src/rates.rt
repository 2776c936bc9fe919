// The rate lines of a stretch.
ghost use Rattle.std.specs.Prelude.{◌≡◌, ◌<◌};
ghost use Rattle.motion.specs.Flow.{parts_of as parts_for};
ghost use Rattle.stretch.specs.Flows.{rates_in, found_parts};

use entries::{Resolved, Row};
use script::LineWord;

// The rows behind a run line, over the entries of a script; the rate lines that stand first are meant.
#[derive(Clone, Copy)]
pub struct Rates<'a> {
    pub rows: &'a [Row],
    pub entries: Resolved<'a>,
}

impl<'a> Rates<'a> {
    // The entries of the parts of a variable's rate line, if it has one.
    pub fn parts(&self, x: u8) -> Option<Resolved<'a>>
        requires { x < 16 }
        ensures { found_parts result ≡ parts_for x (rates_in self.now) }
    {
        for row in self.rows {
            if row.word != LineWord::Rate {
                break;
            }
            if row.name == Some(x) {
                return Some(self.entries.between(row.from, row.to));
            }
        }
        None
    }
}
