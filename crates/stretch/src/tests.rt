// A stretch in fractions.
use super::*;
use kinds::fractions::Fractions;
use script::{Entry, LineWord, Number, Token, Word};
use std::test::Fail;

fn entry(token: Token) -> Entry {
    Entry {
        place: Entry::BLANK.place,
        token,
    }
}

fn number(minus: bool, top: u32, bottom: u32) -> Entry {
    entry(Token::Number(Number { minus, top, bottom }))
}

fn rate(name: u8, from: usize, to: usize) -> Row {
    Row {
        word: LineWord::Rate,
        name: Some(name),
        from,
        to,
    }
}

// A position at a speed that falls by 1/2 each tick.
#[test]
fn falling(rt: HostRuntime) -> Result<(), Fail> {
    let rows = [rate(0, 0, 2), rate(1, 2, 4)];
    let table = [
        number(false, 1, 1),
        entry(Token::Name),
        number(true, 1, 2),
        entry(Token::Word(Word::One)),
    ];
    let variables = [None, Some(1), None, None];
    let mut pairs = [Pair { a: 0, b: 1 }; 16];
    pairs[1] = Pair { a: 3, b: 1 };
    let start = Values { count: 2, pairs };
    let entries = Resolved::new(&table, &variables);
    let Some(end) = flow::<Fractions>(&rows, entries, &start, 3) else {
        assert!(rt; false);
        return Ok(());
    };
    assert_eq!(rt; end.count, 2);
    assert_eq!(rt; end.pairs[0], Pair { a: 27, b: 4 });
    assert_eq!(rt; end.pairs[1], Pair { a: 3, b: 2 });
    Ok(())
}
