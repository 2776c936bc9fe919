// Where the entries of each line lie.
ghost use Rattle.std.specs.Prelude.{◌≡◌};
ghost use Rattle.entries.specs.Decoding.{part};

use script::LineWord;

// A place that no variable has.
pub const NO_VARIABLE: u8 = 16;

// A line: its word, the place of its name among the variables, if it has one,
// and where the entries of its items, parts or value lie.
#[derive(Clone, Copy, PartialEq, Eq, Debug)]
pub struct Row {
    pub word: LineWord,
    pub name: Option<u8>,
    pub from: usize,
    pub to: usize,
}

// The part of a list from there to there, as far as there are so many.
pub fn between<T>(xs: &[T], from: usize, to: usize) -> &[T]
    ensures { result.now ≡ part from to xs.now }
{
    xs.get(from..to.min(xs.len())).unwrap_or(&[])
}
