// Entries with the variables that they name.
ghost use Rattle.std.specs.Prelude.{◌≡◌, List, length, take};
ghost use Rattle.motion.specs.NextLine.{rates};

use crate::rows::between;
use script::Entry;

// Entries of a script, and for each the place among the variables of the name that it is, if it is one.
#[derive(Clone, Copy)]
pub struct Resolved<'a> {
    pub entries: &'a [Entry],
    pub variables: &'a [Option<u8>],
    pub ghost matched: { length entries.now ≡ length variables.now },
}

impl<'a> Resolved<'a> {
    ghost use Rattle.entries.specs.declared.rows.Row.{Row};
    ghost use Rattle.entries.specs.Decoding.{part, parts_of, parts_in, rows_lines, lines_over};

    // As far as both go. The parts that they are, and the rate lines that rows over them stand for, are those of the whole slices.
    #[tactic(auto, using(crate::proofs::Cut::parts_of_cut, crate::proofs::Cut::rates_of_cut))]
    pub fn new(entries: &'a [Entry], variables: &'a [Option<u8>]) -> Resolved<'a>
        ensures entries { result.entries.now ≡ take (length variables.now) entries.now }
        ensures variables { result.variables.now ≡ take (length entries.now) variables.now }
        ensures parts { parts_in result ≡ parts_of entries.now variables.now }
        ensures rates { (rows : List Row) → rates (lines_over result rows) ≡ rates (rows_lines entries.now variables.now rows) }
    {
        let count = entries.len().min(variables.len());
        Resolved {
            entries: &entries[..count],
            variables: &variables[..count],
        }
    }

    // Those from there to there, as far as there are so many.
    pub fn between(&self, from: usize, to: usize) -> Resolved<'a>
        ensures entries { result.entries.now ≡ part from to self.now.entries.now }
        ensures variables { result.variables.now ≡ part from to self.now.variables.now }
    {
        Resolved {
            entries: between(self.entries, from, to),
            variables: between(self.variables, from, to),
        }
    }
}
