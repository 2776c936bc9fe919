// Line by line: what is known behind the lines so far, and the conditions of the next one.
ghost use Rattle.std.specs.Prelude.{◌≡◌, ℕ, ◌+◌, ◌<◌, ◌≤◌, Bool, length, drop};
ghost use Rattle.entries.specs.Fields.{lines, head_of, second_place};
ghost use Rattle.checker.specs.Conditions.{refused_if, refused_at, declared_names, variable, var_misplaced, after_var, declare, first_unknown, unknown_behind, rate_on, after_rate, opened, served, closed, after_block, items_wrong, line_by, line_check, lines_check, at_first, innermost};

use crate::line_ends::Lines;
use crate::names::Names;
use crate::refusals::{Reason, Refusal};
use entries::{Sort, between, first_undeclared, first_unheld, items_give, word_of};
use number::Kind;
use script::{Entry, LineWord, Place};

// A place that no text has.
const NOWHERE: Place = Place {
    line: 0,
    field: 0,
    from: 0,
    to: 0,
};

// A block that is open: its line, and whether it is an if that has no else yet.
#[derive(Clone, Copy)]
pub struct Block {
    pub line: usize,
    pub elseless: bool,
}

impl Block {
    // What stands where no block is open.
    const NONE: Block = Block {
        line: 0,
        elseless: false,
    };
}

// What is known behind the lines so far.
#[derive(Clone, Copy)]
pub struct Past {
    // how many variables are declared, and where their names stand
    pub declared: usize,
    pub names: [Place; 16],
    // a line of another word than var was met
    pub others: bool,
    // the line directly above is run or rate; the variables with a rate in its stretch
    pub stretch: bool,
    pub rated: [bool; 16],
    // how many blocks are open, and which
    pub depth: usize,
    pub blocks: [Block; 8],
}

// The first field of a line.
pub fn first(line: &[Entry]) -> Entry
    requires { 0 < length line.now }
    ensures { result ≡ head_of line.now }
{
    line[0]
}

// Where the second field stands.
pub fn second(line: &[Entry]) -> Place
    ensures { result ≡ second_place line.now }
{
    line.get(1).map_or(NOWHERE, |e| e.place)
}

// The fields behind the first `n`.
fn behind<'a>(line: &'a [Entry], n: usize) -> &'a [Entry]
    ensures { result.now ≡ drop n line.now }
{
    line.get(n..).unwrap_or(&[])
}

// A refusal where the test says so.
fn refuse_if(wrong: bool, reason: Reason, line: usize, field: usize) -> Result<(), Refusal>
    ensures { result ≡ refused_if wrong reason line field }
{
    if wrong {
        return Err(Refusal::new(reason, line, field));
    }
    Ok(())
}

// A refusal at a field, where there is one.
fn refuse_at(field: Option<usize>, reason: Reason, line: usize) -> Result<(), Refusal>
    ensures { result ≡ refused_at «field» reason line }
{
    match field {
        Some(k) => Err(Refusal::new(reason, line, k)),
        None => Ok(()),
    }
}

impl Past {
    // Before the first line.
    pub const FIRST: Past = Past {
        declared: 0,
        names: [NOWHERE; 16],
        others: false,
        stretch: false,
        rated: [false; 16],
        depth: 0,
        blocks: [Block::NONE; 8],
    };

    // The names that are declared.
    pub fn names<'a>(&'a self, text: &'a [u8]) -> Names<'a>
        ensures text { result.text.now ≡ text.now }
        ensures places { result.places.now ≡ declared_names self.now }
    {
        Names {
            text,
            places: between(&self.names, 0, self.declared),
        }
    }

    // The place among the variables of the name that stands there.
    fn variable(&self, text: &[u8], at: Place) -> Option<usize>
        ensures { result ≡ variable text.now self.now at }
    {
        self.names(text).find(at)
    }

    // 9: a var line is behind a line of another word, is the 17th, or repeats a name.
    fn var_misplaced(&self, text: &[u8], at: Place) -> bool
        ensures { result ≡ var_misplaced text.now self.now at }
    {
        self.others || self.declared >= 16 || self.variable(text, at).is_some()
    }

    // Behind a var line that declares the name there, if it is in place; a line of another word changes no names.
    fn after_var(self, text: &[u8], word: LineWord, line: usize, at: Place) -> Result<Past, Refusal>
        ensures { result ≡ after_var text.now self word line at }
    {
        match word {
            LineWord::Var => self.declare(text, line, at),
            _ => Ok(Past {
                others: true,
                ..self
            }),
        }
    }

    // Behind a var line, if it is in place.
    fn declare(mut self, text: &[u8], line: usize, at: Place) -> Result<Past, Refusal>
        ensures { result ≡ declare text.now self line at }
    {
        if self.var_misplaced(text, at) {
            return Err(Refusal::new(Reason::VarOutOfPlace, line, 2));
        }
        self.names[self.declared] = at;
        self.declared += 1;
        Ok(self)
    }

    // 10: the field of the first name on a line other than var that is not declared.
    fn first_unknown(&self, text: &[u8], word: LineWord, line: &[Entry]) -> Option<usize>
        ensures { result ≡ first_unknown text.now self.now word line.now }
    {
        match word {
            LineWord::Var => None,
            LineWord::Set | LineWord::Rate => self.unknown_behind(text, line),
            _ => first_undeclared(text, self.names(text).places, line),
        }
    }

    // The same on a line whose field 2 has to be a name.
    fn unknown_behind(&self, text: &[u8], line: &[Entry]) -> Option<usize>
        ensures { result ≡ unknown_behind text.now self.now line.now }
    {
        if self.variable(text, second(line)).is_none() {
            return Some(2);
        }
        first_undeclared(text, self.names(text).places, line)
    }

    // Behind a line of this word: whether it is in a stretch, and which variables have a rate there.
    fn after_rate(
        self,
        word: LineWord,
        line: usize,
        variable: Option<usize>,
    ) -> Result<Past, Refusal>
        ensures { result ≡ after_rate self word line «variable» }
    {
        match word {
            LineWord::Rate => self.rate(line, variable),
            LineWord::Run => Ok(Past {
                stretch: true,
                rated: [false; 16],
                ..self
            }),
            _ => Ok(Past {
                stretch: false,
                ..self
            }),
        }
    }

    // 12: the line above is neither run nor rate, or a rate line of the run has the same variable.
    fn rate(mut self, line: usize, variable: Option<usize>) -> Result<Past, Refusal>
        ensures { result ≡ rate_on self line «variable» }
    {
        match variable {
            Some(x) if x < 16 && self.stretch && !self.rated[x] => {
                self.rated[x] = true;
                Ok(self)
            }
            _ => Err(Refusal::new(Reason::RateOutOfPlace, line, 2)),
        }
    }

    // The innermost open block; a blank one, where none is open.
    pub fn innermost(&self) -> Block
        ensures { result ≡ innermost self.now }
    {
        self.blocks
            .get(self.depth.saturating_sub(1))
            .copied()
            .unwrap_or(Block::NONE)
    }

    // 13: a ninth block would be open.
    fn open(mut self, line: usize, elseless: bool) -> Result<Past, Refusal>
        ensures { result ≡ opened self line elseless }
    {
        if self.depth >= 8 {
            return Err(Refusal::new(Reason::Blocks, line, 0));
        }
        self.blocks[self.depth] = Block { line, elseless };
        self.depth += 1;
        Ok(self)
    }

    // 13: an else has no block to serve.
    fn serve(mut self, line: usize) -> Result<Past, Refusal>
        ensures { result ≡ served self line }
    {
        let last = self.depth.wrapping_sub(1);
        if last >= 8 || !self.blocks[last].elseless {
            return Err(Refusal::new(Reason::Blocks, line, 0));
        }
        self.blocks[last].elseless = false;
        Ok(self)
    }

    // 13: an end has no block to close.
    fn close(mut self, line: usize) -> Result<Past, Refusal>
        ensures { result ≡ closed self line }
    {
        if self.depth == 0 {
            return Err(Refusal::new(Reason::Blocks, line, 0));
        }
        self.depth -= 1;
        Ok(self)
    }

    // Behind a line of this word: which blocks are open.
    fn after_block(self, word: LineWord, line: usize) -> Result<Past, Refusal>
        ensures { result ≡ after_block self word line }
    {
        match word {
            LineWord::If => self.open(line, true),
            LineWord::While => self.open(line, false),
            LineWord::Else => self.serve(line),
            LineWord::End => self.close(line),
            _ => Ok(self),
        }
    }
}

// 14: the items of a line break their rules, or do not give one number, or truth.
fn items_wrong(word: LineWord, line: &[Entry]) -> bool
    ensures { result ≡ items_wrong word line.now }
{
    match word {
        LineWord::Set => !items_give(behind(line, 2), Sort::Number),
        LineWord::Run => !items_give(behind(line, 1), Sort::Number),
        LineWord::If | LineWord::While => !items_give(behind(line, 1), Sort::Truth),
        _ => false,
    }
}

// What is known behind a line of this word and number, or the first condition that it meets.
fn check_by<K: Kind>(
    text: &[u8],
    past: Past,
    word: LineWord,
    number: usize,
    line: &[Entry],
) -> Result<Past, Refusal>
    ensures { result ≡ line_by K.Kind.means K.Kind.code text.now past word number line.now }
{
    let named = past.after_var(text, word, number, second(line))?;
    refuse_at(
        named.first_unknown(text, word, line),
        Reason::NameNotDeclared,
        number,
    )?;
    refuse_at(first_unheld::<K>(line), Reason::NumberNotHeld, number)?;
    let rated = named.after_rate(word, number, named.variable(text, second(line)))?;
    let nested = rated.after_block(word, number)?;
    refuse_if(items_wrong(word, line), Reason::Items, number, 0)?;
    Ok(nested)
}

// The same of a line, by its first field.
fn check_line<K: Kind>(text: &[u8], past: Past, line: &[Entry]) -> Result<Past, Refusal>
    requires { 0 < length line.now }
    ensures { result ≡ line_check K.Kind.means K.Kind.code text.now past line.now }
{
    let head = first(line);
    check_by::<K>(text, past, word_of(head.token), head.place.line, line)
}

// What is known behind all lines, or the first condition that one of them meets.
pub fn check_lines<K: Kind>(text: &[u8], table: &[Entry]) -> Result<Past, Refusal>
    ensures { result ≡ lines_check K.Kind.means K.Kind.code text.now at_first (lines table.now) }
{
    let mut past = Past::FIRST;
    for line in Lines(table) {
        past = check_line::<K>(text, past, line)?;
    }
    Ok(past)
}
