// The eighteen reserved words.
ghost use Rattle.std.specs.Prelude.{◌≡◌};
ghost use Rattle.script.specs.Spelling.{Spelled, WordsSpelled, WordsKnown};
ghost use Rattle.script.specs.Words.{line_word, operator, word_of, is_item, is_one};

// The eight words that begin a line.
#[derive(Clone, Copy, PartialEq, Eq, Debug)]
pub enum LineWord {
    Var,
    Set,
    Run,
    Rate,
    If,
    Else,
    While,
    End,
}

// The nine words among items, which work on the results before them.
#[derive(Clone, Copy, PartialEq, Eq, Debug)]
pub enum Operator {
    Add,
    Sub,
    Mul,
    Div,
    Lt,
    Le,
    And,
    Or,
    Not,
}

#[derive(Clone, Copy, PartialEq, Eq, Debug)]
pub enum Word {
    Line(LineWord),
    Item(Operator),
    // the constant 1 in a rate
    One,
}

// The line word that these bytes spell.
fn line_word(bytes: &[u8]) -> Option<LineWord>
    ensures { result ≡ line_word bytes.now }
{
    match bytes {
        b"var" => Some(LineWord::Var),
        b"set" => Some(LineWord::Set),
        b"run" => Some(LineWord::Run),
        b"rate" => Some(LineWord::Rate),
        b"if" => Some(LineWord::If),
        b"else" => Some(LineWord::Else),
        b"while" => Some(LineWord::While),
        b"end" => Some(LineWord::End),
        _ => None,
    }
}

// The operator that these bytes spell.
fn operator_of(bytes: &[u8]) -> Option<Operator>
    ensures { result ≡ operator bytes.now }
{
    match bytes {
        b"add" => Some(Operator::Add),
        b"sub" => Some(Operator::Sub),
        b"mul" => Some(Operator::Mul),
        b"div" => Some(Operator::Div),
        b"lt" => Some(Operator::Lt),
        b"le" => Some(Operator::Le),
        b"and" => Some(Operator::And),
        b"or" => Some(Operator::Or),
        b"not" => Some(Operator::Not),
        _ => None,
    }
}

// The reserved word that these bytes spell.
#[tactic(auto, using(crate::proofs::Spelt::words_spelled, crate::proofs::Spelt::words_known))]
pub fn word_of(bytes: &[u8]) -> Option<Word>
    ensures word { result ≡ word_of bytes.now }
    ensures letters { Spelled bytes.now result }

    // Bytes spell a reserved word exactly where they are its letters, and each of the eighteen is so spelled.
    ensures law { WordsSpelled }
    ensures known { WordsKnown }
{
    if let Some(word) = line_word(bytes) {
        return Some(Word::Line(word));
    }
    if let Some(operator) = operator_of(bytes) {
        return Some(Word::Item(operator));
    }
    match bytes {
        b"one" => Some(Word::One),
        _ => None,
    }
}

impl Word {
    // May stand among items.
    pub fn is_item(self) -> bool
        ensures { result ≡ is_item self }
    {
        matches!(self, Word::Item(_))
    }

    // Is the word `one`.
    pub fn is_one(self) -> bool
        ensures { result ≡ is_one self }
    {
        self == Word::One
    }
}
