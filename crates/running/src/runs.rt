// A run between two steps, and what it finds on a line.
ghost use Rattle.std.specs.Prelude.{◌≤◌, length};

use crate::lines::Standing;
use checker::Checked;
use entries::{Resolved, between};
use number::{Kind, Pair};
use postfix::Expression;
use record::{Refusal, Values};
use script::LineWord;
use stretch::flow;

// The statement of a line: its number and word, the place of the variable that it names, and its items or parts.
#[derive(Clone, Copy)]
pub struct Statement<'a> {
    pub line: u32,
    pub word: LineWord,
    pub name: Option<u8>,
    pub items: Resolved<'a>,
    ghost short: { length items.entries.now ≤ 18 },
}

// The script, the values of its variables, the ticks to go, and where the run stands.
#[derive(Drop)]
pub struct Run<'r, 't, 'a, K: Kind> {
    pub script: &'r Checked<'t, 'a, K>,
    pub values: Values,
    pub ticks: u32,
    pub standing: Standing,
    ghost few: { values.count ≤ 16 },
}

impl<K: Kind> Run<'_, '_, '_, K> {
    ghost use Rattle.std.specs.Prelude.{◌≡◌, drop};
    ghost use Rattle.std.specs.Option.{option_map};
    ghost use Rattle.motion.specs.NextLine.{rates};
    ghost use Rattle.motion.specs.Pairs.{numbers_of};
    ghost use Rattle.motion.specs.Items.{number_of, truth_of};
    ghost use Rattle.motion.specs.Flow.{flow as flow_meaning};
    ghost use Rattle.entries.specs.Decoding.{items_in};
    ghost use Rattle.checker.specs.Scripts.{lines_in};
    ghost use Rattle.record.specs.Benches.{pairs_of};
    ghost use Rattle.postfix.specs.Located.{located};
    ghost use Rattle.stretch.specs.Flows.{Counted};

    // The items of a statement at these values, of which the first stands in this field.
    fn expression<'s>(&'s self, statement: &Statement<'s>, field: u32) -> Expression<'s>
        ensures values { result.values.now ≡ pairs_of self.now.values }
        ensures items { result.items ≡ statement.now.items }
        ensures line { result.line ≡ statement.now.line }
        ensures field { result.field ≡ «field» }
    {
        Expression {
            values: self.values.as_slice(),
            items: statement.items,
            line: statement.line,
            field,
        }
    }

    // The number that the items of a statement come to, of which the first stands in this field.
    pub fn number(&self, statement: &Statement<'_>, field: u32) -> Result<Pair, Refusal>
        requires { field ≤ 1000 }
        ensures { result ≡ located statement.now.line (number_of (numbers_of K.Kind.means K.Kind.code) (pairs_of self.now.values) «field» (items_in statement.now.items)) }
    {
        self.expression(statement, field).number::<K>()
    }

    // The truth that they come to.
    pub fn truth(&self, statement: &Statement<'_>, field: u32) -> Result<bool, Refusal>
        requires { field ≤ 1000 }
        ensures { result ≡ located statement.now.line (truth_of (numbers_of K.Kind.means K.Kind.code) (pairs_of self.now.values) «field» (items_in statement.now.items)) }
    {
        self.expression(statement, field).truth::<K>()
    }

    // The values after t ticks of the stretch on line n.
    pub fn flow(&self, n: u32, t: u32) -> Option<Values>
        ensures pairs { option_map pairs_of result ≡ flow_meaning (numbers_of K.Kind.means K.Kind.code) (rates (drop n (lines_in self.now.script.now))) (pairs_of self.now.values) t }
        ensures count { Counted self.now.values.count result }
    {
        let rows = self.script.rows();
        let behind = between(rows, n as usize, rows.len());
        flow::<K>(behind, self.script.resolved(), &self.values, t)
    }
}
