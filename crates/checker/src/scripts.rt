// A script that passed its check.
ghost use Rattle.std.specs.Prelude.{◌≡◌, true};
ghost use Rattle.script.specs.Reading.{entries};
ghost use Rattle.script.specs.Checks.{is_in_order};
ghost use Rattle.checker.specs.Checking.{Planned, Ready, Passed};

use crate::checking::{Plan, count_lines};
use entries::{Resolved, Row, between, find_name};
use number::Kind;
use script::Entry;
use std::alloc::AllocError;
use std::marker::PhantomData;

// A script that passed its check for the kind K. It reads the table for as long as it lives.
pub struct Checked<'t, 'a, K: Kind> {
    text: &'t [u8],
    table: &'a [Entry],
    plan: Plan,
    kind: PhantomData<K>,
    // its entries are those of the text
    pub ghost own: { table.now ≡ entries text.now },
    // they pass the check for K
    pub ghost passed: { Passed K.Kind.means K.Kind.code text.now table.now plan.past },
    // what is prepared for them, and for a run
    pub ghost planned: { Planned text.now table.now plan },
    pub ghost ready: { Ready table.now plan },
    // and the text is in order
    pub ghost in_order: { is_in_order text.now ≡ true },
}

impl<K: Kind> Clone for Checked<'_, '_, K> {
    ghost is_clone = { λ x y. y ≡ x };

    ghost is_infallible = { λ _. Unit {0} };

    fn clone(&self) -> Result<Self, AllocError> {
        Ok(*self)
    }
}

impl<K: Kind> Copy for Checked<'_, '_, K> {}

impl<'t, 'a, K: Kind> Checked<'t, 'a, K> {
    // The script of what passed.
    pub(crate) fn new(text: &'t [u8], table: &'a [Entry], plan: Plan) -> Checked<'t, 'a, K>
        requires own { table.now ≡ entries text.now }
        requires passed { Passed K.Kind.means K.Kind.code text.now table.now plan.past }
        requires planned { Planned text.now table.now plan }
        requires ready { Ready table.now plan }
        requires in_order { is_in_order text.now ≡ true }
        ensures text { result.text.now ≡ text.now }
        ensures table { result.table.now ≡ table.now }
        ensures plan { result.plan ≡ plan }
    {
        Checked {
            text,
            table,
            plan,
            kind: PhantomData,
        }
    }
}

impl<K: Kind> Checked<'_, '_, K> {
    ghost use Rattle.std.specs.Prelude.{ℕ, ◌≤◌, length};
    ghost use Rattle.entries.specs.Fields.{lines};
    ghost use Rattle.checker.specs.Jumps.{jump_at};
    ghost use Rattle.checker.specs.Scripts.{table_in, places_in, rows_in, jumps_in, variable_in};

    // How many variables the script declares.
    pub fn variables(&self) -> usize
        ensures { result ≡ self.now.plan.past.declared }
    {
        self.plan.past.declared
    }

    // How many lines it has.
    pub fn lines(&self) -> usize
        ensures { result ≡ length (lines self.now.table.now) }
    {
        count_lines(self.table)
    }

    // Its entries.
    pub fn table(&self) -> &[Entry]
        ensures { result.now ≡ table_in self.now }
    {
        self.table
    }

    // The place of each entry among the variables; none where it is no name.
    pub fn places(&self) -> &[Option<u8>]
        ensures { result.now ≡ places_in self.now }
    {
        between(&self.plan.places.of, 0, self.table.len())
    }

    // Its entries, and for each the place among the variables.
    pub fn resolved(&self) -> Resolved<'_>
        ensures entries { result.entries.now ≡ table_in self.now }
        ensures variables { result.variables.now ≡ places_in self.now }
    {
        Resolved::new(self.table(), self.places())
    }

    // Its rows, one for each line.
    pub fn rows(&self) -> &[Row]
        ensures { result.now ≡ rows_in self.now }
    {
        between(&self.plan.rows.rows, 0, self.plan.rows.count)
    }

    // The line of the next statement behind line n; 0 where there is no such line.
    pub fn next(&self, n: usize) -> u32
        ensures { n ≤ 256 → result ≡ (jump_at (jumps_in self.now) n).next }
    {
        if n < 257 {
            self.plan.jumps.behind[n].next as u32
        } else {
            0
        }
    }

    // The same where the body that begins behind line n is passed over.
    pub fn past(&self, n: usize) -> u32
        ensures { n ≤ 256 → result ≡ (jump_at (jumps_in self.now) n).past }
    {
        if n < 257 {
            self.plan.jumps.behind[n].past as u32
        } else {
            0
        }
    }

    // The place of this name among the variables.
    pub fn variable(&self, name: &[u8]) -> Option<usize>
        ensures { result ≡ variable_in self.now name.now }
    {
        let names = between(&self.plan.past.names, 0, self.plan.past.declared);
        find_name(self.text, names, name)
    }
}
