// Texts at the boundaries of the format, and what reading them must answer.
ghost use Rattle.std.specs.Prelude.{◌<◌};

use super::*;
use script::{Cursor, Token, Word};
use std::process::Abort;
use std::test::Fail;

// The numbers of lines and fields, or the number, line and field of the refusal.
type Answer = Result<(usize, usize), (u8, usize, usize)>;

#[derive(Clone, Copy)]
struct Case {
    text: &'static [u8],
    answer: Answer,
}

fn accepts(text: &'static [u8], lines: usize, fields: usize) -> Case {
    Case {
        text,
        answer: Ok((lines, fields)),
    }
}

fn refuses(text: &'static [u8], number: u8, line: usize, field: usize) -> Case {
    Case {
        text,
        answer: Err((number, line, field)),
    }
}

fn numbers_for(text: &[u8], table: &mut [Entry]) -> Answer {
    answer_to(text, table).map_err(|refusal| (refusal.reason.number(), refusal.line, refusal.field))
}

// With room for so many fields.
fn with_room<const N: usize>(text: &[u8]) -> Answer
    requires { N < 5000 }
{
    let mut table = [Entry::BLANK; N];
    numbers_for(text, &mut table)
}

// Every case is answered as it says.
fn all(rt: &impl Abort, cases: &[Case]) {
    for case in cases {
        assert_eq!(rt; with_room::<64>(case.text), case.answer);
    }
}

// Writes the piece over and over.
fn repeat(out: &mut [u8], piece: &[u8]) {
    for (slot, b) in out.iter_mut().zip(piece.iter().cycle()) {
        *slot = *b;
    }
}

#[test]
fn accepted(rt: HostRuntime) {
    all(
        &rt,
        &[
            accepts(b"", 0, 0),
            accepts(b"var,p,0\nrun,10\nrate,p,-3/4,one\n", 3, 9),
            accepts(b"if,1,2,lt\nelse\nend\n", 3, 6),
            accepts(b"while,x,y,le,not\nset,x,x,1,add\nend\n", 3, 11),
            accepts(b"run,x,y,add,sub,mul,div,lt,le,and,or,not\n", 1, 12),
            accepts(b"set,abcdefgh,2147483647\n", 1, 3),
            accepts(b"var,x,-2147483647/2147483647\n", 1, 3),
            accepts(b"var,x,4/2\nvar,y,0/5\nvar,z,1/1\nvar,w,-1/2\n", 4, 12),
            accepts(b"var,on,1\nvar,ends,1\nvar,ad,1\n", 3, 9),
        ],
    );
}

// The two whole scripts that the format is explained by.
#[test]
fn format_examples(rt: HostRuntime) {
    let ramp: &[u8] =
        b"var,p,0\nvar,v,0\nrun,10\nrate,p,1,v\nrate,v,2,one\nrun,10\nrate,p,1,v\nrate,v,-2,one\n";
    assert_eq!(rt; with_room::<4608>(ramp), Ok((8, 26)));
    let throws: &[u8] =
        b"var,p,0\nvar,v,0\nvar,a,0\nvar,n,3\nwhile,0,n,lt\nif,n,1,le\nset,a,1/5\nelse\nset,a,2/5\nend\nrun,10\nrate,p,1,v\nrate,v,1,a\nrun,20\nrate,p,1,v\nrate,v,-1,a\nrun,10\nrate,p,1,v\nrate,v,1,a\nset,n,n,1,sub\nend\nrun,50\n";
    assert_eq!(rt; with_room::<4608>(throws), Ok((22, 66)));
}

#[test]
fn the_whole_text(rt: HostRuntime) {
    all(
        &rt,
        &[
            refuses(b"end", 2, 1, 0),
            refuses(b"end\nend", 2, 2, 0),
            refuses(b"end\n,", 2, 2, 0),
            refuses(b"A", 2, 1, 0),
            refuses(b"end\nvar,x,A\n", 3, 2, 3),
            refuses(b"end \n", 3, 1, 1),
            refuses(b"end\r\n", 3, 1, 1),
            refuses(b"\n\nvar,,1.5\n", 3, 3, 3),
            refuses(b"var,x,+1\n", 3, 1, 3),
            refuses(b"\0\n", 3, 1, 1),
            refuses(b"end\xff\n", 3, 1, 1),
        ],
    );
}

#[test]
fn first_words_and_counts(rt: HostRuntime) {
    all(
        &rt,
        &[
            refuses(b"\n", 5, 1, 1),
            refuses(b"end\n\nend\n", 5, 2, 1),
            refuses(b"end\nadd\n", 5, 2, 1),
            refuses(b"one\n", 5, 1, 1),
            refuses(b"x\n", 5, 1, 1),
            refuses(b"5,x,1\n", 5, 1, 1),
            refuses(b",var,x,1\n", 5, 1, 1),
            refuses(b"end,\n", 6, 1, 0),
            refuses(b"else,1\n", 6, 1, 0),
            refuses(b"var,x\n", 6, 1, 0),
            refuses(b"var,x,1,2\n", 6, 1, 0),
            refuses(b"set,x\n", 6, 1, 0),
            accepts(b"set,x,1,1,1,1,1,1,1,1,1,1,1,1,1,1,1,1\n", 1, 18),
            refuses(b"set,x,1,1,1,1,1,1,1,1,1,1,1,1,1,1,1,1,1\n", 6, 1, 0),
            refuses(b"run\n", 6, 1, 0),
            accepts(b"run,1,1,1,1,1,1,1,1,1,1,1,1,1,1,1,1\n", 1, 17),
            refuses(b"run,1,1,1,1,1,1,1,1,1,1,1,1,1,1,1,1,1\n", 6, 1, 0),
            refuses(b"if\n", 6, 1, 0),
            refuses(b"while,1,1,1,1,1,1,1,1,1,1,1,1,1,1,1,1,1\n", 6, 1, 0),
        ],
    );
}

#[test]
fn rates(rt: HostRuntime) {
    all(
        &rt,
        &[
            refuses(b"rate,x,1\n", 6, 1, 0),
            accepts(b"rate,x,1,y\n", 1, 4),
            refuses(b"rate,x,1,y,2\n", 6, 1, 0),
            accepts(b"rate,x,1,y,2,one\n", 1, 6),
            accepts(b"rate,x,1,a,1,b,1,c,1,d,1,e,1,f\n", 1, 14),
            refuses(b"rate,x,1,a,1,b,1,c,1,d,1,e,1,f,1,g\n", 6, 1, 0),
            refuses(b"rate,one,1,y\n", 7, 1, 2),
            refuses(b"rate,x,y,y\n", 7, 1, 3),
            refuses(b"rate,x,1,2\n", 7, 1, 4),
            refuses(b"rate,x,1,add\n", 7, 1, 4),
            refuses(b"rate,x,1,y,one,2\n", 7, 1, 5),
        ],
    );
}

#[test]
fn names(rt: HostRuntime) {
    all(
        &rt,
        &[
            accepts(b"var,abcdefgh,1\n", 1, 3),
            refuses(b"var,abcdefghi,1\n", 7, 1, 2),
            refuses(b"var,,1\n", 7, 1, 2),
            refuses(b"var,a1,1\n", 7, 1, 2),
            refuses(b"var,7,1\n", 7, 1, 2),
            refuses(b"set,one,1\n", 7, 1, 2),
            refuses(b"run,one\n", 7, 1, 2),
            refuses(b"run,var\n", 7, 1, 2),
            refuses(b"set,x,1,end\n", 7, 1, 4),
            refuses(b"var,x,y\n", 7, 1, 3),
        ],
    );
}

#[test]
fn reserved_words(rt: HostRuntime) {
    all(
        &rt,
        &[
            refuses(b"var,var,1\n", 7, 1, 2),
            refuses(b"var,set,1\n", 7, 1, 2),
            refuses(b"var,run,1\n", 7, 1, 2),
            refuses(b"var,rate,1\n", 7, 1, 2),
            refuses(b"var,if,1\n", 7, 1, 2),
            refuses(b"var,else,1\n", 7, 1, 2),
            refuses(b"var,while,1\n", 7, 1, 2),
            refuses(b"var,end,1\n", 7, 1, 2),
            refuses(b"var,add,1\n", 7, 1, 2),
            refuses(b"var,sub,1\n", 7, 1, 2),
            refuses(b"var,mul,1\n", 7, 1, 2),
            refuses(b"var,div,1\n", 7, 1, 2),
            refuses(b"var,lt,1\n", 7, 1, 2),
            refuses(b"var,le,1\n", 7, 1, 2),
            refuses(b"var,and,1\n", 7, 1, 2),
            refuses(b"var,or,1\n", 7, 1, 2),
            refuses(b"var,not,1\n", 7, 1, 2),
            refuses(b"var,one,1\n", 7, 1, 2),
        ],
    );
}

#[test]
fn numbers(rt: HostRuntime) {
    all(
        &rt,
        &[
            accepts(b"var,x,2147483647\n", 1, 3),
            refuses(b"var,x,2147483648\n", 7, 1, 3),
            accepts(b"var,x,1/2147483647\n", 1, 3),
            refuses(b"var,x,1/2147483648\n", 7, 1, 3),
            refuses(b"var,x,99999999999999999999999999\n", 7, 1, 3),
            refuses(b"var,x,-0\n", 7, 1, 3),
            refuses(b"var,x,-0/5\n", 7, 1, 3),
            refuses(b"var,x,01\n", 7, 1, 3),
            refuses(b"var,x,00\n", 7, 1, 3),
            refuses(b"var,x,1/0\n", 7, 1, 3),
            refuses(b"var,x,1/02\n", 7, 1, 3),
            refuses(b"var,x,1/-2\n", 7, 1, 3),
            refuses(b"var,x,1/2/3\n", 7, 1, 3),
            refuses(b"var,x,/2\n", 7, 1, 3),
            refuses(b"var,x,1/\n", 7, 1, 3),
            refuses(b"var,x,-\n", 7, 1, 3),
            refuses(b"var,x,--1\n", 7, 1, 3),
            refuses(b"var,x,1-1\n", 7, 1, 3),
            refuses(b"set,x,,1\n", 7, 1, 3),
        ],
    );
}

#[test]
fn two_faults(rt: HostRuntime) {
    all(
        &rt,
        &[
            refuses(b"A\nend", 2, 2, 0),
            refuses(b"foo\nend,A\n", 3, 2, 2),
            refuses(b"var,x,y\nfoo\n", 7, 1, 3),
            refuses(b"foo\nvar,x,y\n", 5, 1, 1),
            refuses(b"foo,1,2,3\n", 5, 1, 1),
            refuses(b"var,one\n", 6, 1, 0),
            refuses(b"var,one,y\n", 7, 1, 2),
            refuses(b"end,1\nvar,x,y\n", 6, 1, 0),
        ],
    );
}

// A text of N bytes that is this piece over and over.
fn repeated<const N: usize>(piece: &[u8]) -> Answer
    requires { N < 20000 }
{
    let mut text = [0u8; N];
    repeat(&mut text, piece);
    with_room::<4608>(&text)
}

#[test]
fn bytes(rt: HostRuntime) {
    let line: &[u8] = b"run,2147483647,2147483647,2147483647,2147483647,2147483647,1234\n";
    assert_eq!(rt; repeated::<16384>(line), Ok((256, 1792)));
    assert_eq!(rt; repeated::<16385>(line), Err((1, 0, 0)));
    assert_eq!(rt; repeated::<16383>(line), Err((2, 256, 0)));
}

#[test]
fn lines(rt: HostRuntime) {
    assert_eq!(rt; repeated::<1024>(b"end\n"), Ok((256, 256)));
    assert_eq!(rt; repeated::<1028>(b"end\n"), Err((4, 257, 0)));
    assert_eq!(rt; repeated::<1027>(b"end\n"), Err((2, 257, 0)));
    assert_eq!(rt; repeated::<257>(b"\n"), Err((4, 257, 0)));
    assert_eq!(rt; repeated::<256>(b"\n"), Err((5, 1, 1)));
}

#[test]
fn the_table(rt: HostRuntime) {
    assert_eq!(rt; with_room::<3>(b"var,x,0\n"), Ok((1, 3)));
    assert_eq!(rt; with_room::<3>(b"run,1\nrun,1\n"), Err((8, 0, 0)));
    assert_eq!(rt; with_room::<3>(b"run,1\nfoo,1\n"), Err((5, 2, 1)));
    let mut none: [Entry; 0] = [];
    assert_eq!(rt; numbers_for(b"", &mut none), Ok((0, 0)));
    assert_eq!(rt; numbers_for(b"end\n", &mut none), Err((8, 0, 0)));
    let mut text = [0u8; 9728];
    repeat(&mut text, b"set,x,1,1,1,1,1,1,1,1,1,1,1,1,1,1,1,1\n");
    assert_eq!(rt; with_room::<4608>(&text), Ok((256, 4608)));
    let mut short = [Entry::BLANK; 4607];
    assert_eq!(rt; numbers_for(&text, &mut short), Err((8, 0, 0)));
}

// The kind of an entry by its first letter.
fn letter(token: Token) -> char {
    match token {
        Token::Word(Word::Line(_)) => 'l',
        Token::Word(Word::Item(_)) => 'o',
        Token::Word(Word::One) => '1',
        Token::Name => 'n',
        Token::Number(_) => '#',
        Token::Other => '?',
    }
}

#[test]
fn entries(rt: HostRuntime) -> Result<(), Fail> {
    let text: &[u8] = b"var,p,-3/4\nrun,p,2,mul\nrate,p,1,one\n";
    let mut table = [Entry::BLANK; 12];
    assert_eq!(rt; numbers_for(text, &mut table), Ok((3, 11)));
    let last = table[10];
    assert_eq!(rt; last.place.line, 3);
    assert_eq!(rt; last.place.field, 4);
    assert_eq!(rt; last.place.bytes(text), b"one".as_slice());
    assert_eq!(rt; letter(last.token), '1');
    assert_eq!(rt; letter(table[6].token), 'o');
    assert_eq!(rt; letter(table[4].token), 'n');
    assert_eq!(rt; letter(table[3].token), 'l');
    assert_eq!(rt; letter(table[11].token), '?');
    let Token::Number(number) = table[2].token else {
        return Err(Fail::new("the third field is no number"));
    };
    assert_eq!(rt; (number.minus, number.top, number.bottom), (true, 3, 4));
    Ok(())
}

#[test]
fn refused_leaves_the_table(rt: HostRuntime) {
    let mut table = [Entry::BLANK; 3];
    assert_eq!(rt; numbers_for(b"var,x,1\n", &mut table), Ok((1, 3)));
    assert_eq!(rt; numbers_for(b"end\nvar,x,y\n", &mut table), Err((7, 2, 3)));
    assert_eq!(rt; table[0].place.line, 1);
    assert_eq!(rt; table[2].place.from, 6);
    assert_eq!(rt; letter(table[2].token), '#');
}

// The line, the number and the length of the next field.
fn step(cursor: &mut Cursor) -> Option<(usize, usize, usize)> {
    let (field, place) = cursor.next()?;
    Some((place.line, place.field, field.bytes().len()))
}

#[test]
fn cursor(rt: HostRuntime) {
    let mut cursor = Cursor::new(b"set,x,-12\n\n,??\nrest");
    assert_eq!(rt; step(&mut cursor), Some((1, 1, 3)));
    assert_eq!(rt; step(&mut cursor), Some((1, 2, 1)));
    assert_eq!(rt; step(&mut cursor), Some((1, 3, 3)));
    assert_eq!(rt; step(&mut cursor), Some((2, 1, 0)));
    assert_eq!(rt; step(&mut cursor), Some((3, 1, 0)));
    assert_eq!(rt; step(&mut cursor), Some((3, 2, 2)));
    assert_eq!(rt; step(&mut cursor), None);
    assert_eq!(rt; step(&mut cursor), None);
}
