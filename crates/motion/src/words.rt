// From line to line: where a run goes on, found in the first words of the lines alone.
ghost use Rattle.std.specs.Prelude.{◌≡◌, ℕ, suc, ◌≤◌, List, [], map, length, Some};
ghost use Rattle.motion.specs.Lines.{Line};
ghost use Rattle.motion.specs.NextLine.{opens, onward};
ghost use Rattle.motion.specs.LineWords.{word_of, back_to, numbered};

use script::LineWord;

// The index of the while that is the innermost block open before index `i`, if that is a while: a scan backwards.
fn opener(words: &[LineWord], i: usize) -> Option<usize>
    requires { i ≤ length words.now }
    ensures within { (o : ℕ) → result ≡ Some o → o ≤ i }
    ensures found { (all : List Line) → words.now ≡ map word_of all → numbered result ≡ back_to (opens [] 1 i all) }
{
    let mut closed: usize = 0;
    for j in (0..i).rev() {
        match words[j] {
            LineWord::End => closed += 1,
            LineWord::If => {
                if closed == 0 {
                    return None;
                }
                closed -= 1;
            }
            LineWord::While => {
                if closed == 0 {
                    return Some(j);
                }
                closed -= 1;
            }
            LineWord::Var | LineWord::Set | LineWord::Run | LineWord::Rate | LineWord::Else => {}
        }
    }
    None
}

// The index behind the end, or the else, of the innermost block open before index `from`.
fn leave_block(words: &[LineWord], from: usize) -> usize
    requires { from ≤ length words.now }
    ensures within { (from ≤ result) × (result ≤ length words.now) }
    ensures left { (all : List Line) → words.now ≡ map word_of all → onward 0 all result ≡ onward 1 all from }
{
    let mut opened: usize = 0;
    for i in from..words.len() {
        match words[i] {
            LineWord::If | LineWord::While => opened += 1,
            LineWord::End => {
                if opened == 0 {
                    return i + 1;
                }
                opened -= 1;
            }
            LineWord::Else => {
                if opened == 0 {
                    return i + 1;
                }
            }
            LineWord::Var | LineWord::Set | LineWord::Run | LineWord::Rate => {}
        }
    }
    words.len()
}

// The index of the next statement from index `from` on; the number of lines where there is none.
pub fn next_statement(words: &[LineWord], from: usize) -> usize
    ensures within { from ≤ length words.now → result ≤ length words.now }
    ensures next { (all : List Line) → words.now ≡ map word_of all → suc result ≡ onward 0 all from }
{
    let mut i = from;
    while i < words.len() {
        match words[i] {
            LineWord::Rate => i += 1,
            LineWord::Else => i = leave_block(words, i + 1),
            LineWord::End => match opener(words, i) {
                Some(o) => return o,
                None => i += 1,
            },
            LineWord::Var | LineWord::Set | LineWord::Run | LineWord::If | LineWord::While =>
                return i,
        }
    }
    i
}

// The index of the next statement where the body that begins at index `from` is passed over.
pub fn past_body(words: &[LineWord], from: usize) -> usize
    ensures within { from ≤ length words.now → result ≤ length words.now }
    ensures next { (all : List Line) → words.now ≡ map word_of all → suc result ≡ onward 1 all from }
{
    if from > words.len() {
        return from;
    }
    let behind = leave_block(words, from);
    next_statement(words, behind)
}

#[cfg(test)]
mod tests {
    use super::*;

    // var while if set else run rate end end
    #[test]
    fn from_line_to_line(rt: HostRuntime) {
        let words = [
            LineWord::Var,
            LineWord::While,
            LineWord::If,
            LineWord::Set,
            LineWord::Else,
            LineWord::Run,
            LineWord::Rate,
            LineWord::End,
            LineWord::End,
        ];
        assert_eq!(rt; next_statement(&words, 1), 1);
        assert_eq!(rt; next_statement(&words, 4), 1);
        assert_eq!(rt; next_statement(&words, 6), 1);
        assert_eq!(rt; past_body(&words, 3), 5);
        assert_eq!(rt; past_body(&words, 2), 9);
        assert_eq!(rt; next_statement(&words, 12), 12);
    }
}
