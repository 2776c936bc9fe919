// Texts at the boundaries of the check, and what it must answer for each kind.
ghost use Rattle.std.specs.Prelude.{◌<◌};

use super::*;
use check_listing::answers::answer_for;
use checker::check;
use script::{Number, Place, Token, read};
use std::process::Abort;

// An answer by its numbers: of variables and lines; or the number, line and field of the refusal by the check, or by
// the reader.
#[derive(Clone, Copy, PartialEq, Eq, Debug)]
enum Answer {
    Accepted(usize, usize),
    Refused(u8, usize, usize),
    Unread(u8, usize, usize),
}

impl From<Result<Size, Refused>> for Answer {
    fn from(answer: Result<Size, Refused>) -> Answer {
        match answer {
            Ok(Size { variables, lines }) => Answer::Accepted(variables, lines),
            Err(Refused::Unchecked(refusal)) => Answer::Refused(
                refusal.reason.number(),
                refusal.line,
                refusal.field,
            ),
            Err(Refused::Unread(refusal)) => Answer::Unread(
                refusal.reason.number(),
                refusal.line,
                refusal.field,
            ),
        }
    }
}

// A text, and the answer for fractions, thousandths and small whole numbers.
#[derive(Clone, Copy)]
struct Case {
    text: &'static [u8],
    fractions: Answer,
    thousandths: Answer,
    small: Answer,
}

fn by_kind(text: &'static [u8], fractions: Answer, thousandths: Answer, small: Answer) -> Case {
    Case {
        text,
        fractions,
        thousandths,
        small,
    }
}

// For every kind.
fn accepts(text: &'static [u8], variables: usize, lines: usize) -> Case {
    let answer = Answer::Accepted(variables, lines);
    by_kind(text, answer, answer, answer)
}

// For every kind.
fn refuses(text: &'static [u8], number: u8, line: usize, field: usize) -> Case {
    let answer = Answer::Refused(number, line, field);
    by_kind(text, answer, answer, answer)
}

// Every case is answered as it says.
fn all(rt: &impl Abort, cases: &[Case]) {
    for case in cases {
        let (fractions, thousandths, small) = answers_to(case.text);
        assert_eq!(rt; Answer::from(fractions), case.fractions);
        assert_eq!(rt; Answer::from(thousandths), case.thousandths);
        assert_eq!(rt; Answer::from(small), case.small);
    }
}

#[test]
fn accepted(rt: HostRuntime) {
    all(
        &rt,
        &[
            accepts(b"", 0, 0),
            accepts(b"var,x,0\n", 1, 1),
            accepts(b"run,0\n", 0, 1),
            accepts(b"if,0,1,lt\nend\n", 0, 2),
            accepts(
                b"var,p,0\nvar,v,0\nrun,10\nrate,p,1,v\nrate,v,2,one\nrun,10\nrate,p,1,v\nrate,v,-2,one\n",
                2,
                8,
            ),
            accepts(
                b"var,n,3\nwhile,0,n,lt\nif,n,1,le\nrun,5\nelse\nset,n,n,1,sub\nend\nend\n",
                1,
                8,
            ),
        ],
    );
}

#[test]
fn variables(rt: HostRuntime) {
    all(
        &rt,
        &[
            accepts(
                b"var,a,0\nvar,b,0\nvar,c,0\nvar,d,0\nvar,e,0\nvar,f,0\nvar,g,0\nvar,h,0\nvar,i,0\nvar,j,0\nvar,k,0\nvar,l,0\nvar,m,0\nvar,n,0\nvar,o,0\nvar,p,0\n",
                16,
                16,
            ),
            refuses(
                b"var,a,0\nvar,b,0\nvar,c,0\nvar,d,0\nvar,e,0\nvar,f,0\nvar,g,0\nvar,h,0\nvar,i,0\nvar,j,0\nvar,k,0\nvar,l,0\nvar,m,0\nvar,n,0\nvar,o,0\nvar,p,0\nvar,q,0\n",
                9,
                17,
                2,
            ),
            refuses(
                b"var,a,0\nvar,b,0\nvar,c,0\nvar,d,0\nvar,e,0\nvar,f,0\nvar,g,0\nvar,h,0\nvar,i,0\nvar,j,0\nvar,k,0\nvar,l,0\nvar,m,0\nvar,n,0\nvar,o,0\nvar,p,0\nvar,a,0\n",
                9,
                17,
                2,
            ),
            refuses(b"var,x,0\nvar,x,1\n", 9, 2, 2),
            refuses(b"var,x,0\nvar,y,0\nvar,x,1\n", 9, 3, 2),
            accepts(b"var,a,0\nvar,ab,0\nvar,abc,0\n", 3, 3),
            accepts(b"var,ab,0\nvar,ba,0\n", 2, 2),
            refuses(b"var,x,0\nset,x,1\nvar,y,0\n", 9, 3, 2),
            refuses(b"var,x,0\nrun,1\nvar,y,0\n", 9, 3, 2),
            refuses(b"run,1\nvar,y,0\n", 9, 2, 2),
            refuses(b"if,0,1,lt\nend\nvar,y,0\n", 9, 3, 2),
            refuses(b"var,x,0\nrun,1\nrate,x,1,one\nvar,y,0\n", 9, 4, 2),
        ],
    );
}

#[test]
fn names(rt: HostRuntime) {
    all(
        &rt,
        &[
            refuses(b"set,x,1\nvar,x,0\n", 10, 1, 2),
            refuses(b"var,x,0\nset,x,y\n", 10, 2, 3),
            refuses(b"var,x,0\nset,y,y\n", 10, 2, 2),
            refuses(b"var,x,0\nset,x,x,1,add,y,add\n", 10, 2, 6),
            accepts(b"var,x,0\nset,x,x,1,add,x,add\n", 1, 2),
            refuses(b"run,x\n", 10, 1, 2),
            refuses(b"run,1,x,add\n", 10, 1, 3),
            refuses(b"if,0,x,lt\nend\n", 10, 1, 3),
            refuses(b"while,x,0,lt\nend\n", 10, 1, 2),
            refuses(b"var,x,0\nrun,1\nrate,y,1,one\n", 10, 3, 2),
            refuses(b"var,x,0\nrun,1\nrate,x,1,one,2,y\n", 10, 3, 6),
            refuses(b"var,xy,0\nset,x,1\n", 10, 2, 2),
            refuses(b"var,x,0\nset,xy,1\n", 10, 2, 2),
            refuses(b"var,x,0\nset,x,xx\n", 10, 2, 3),
        ],
    );
}

#[test]
fn held(rt: HostRuntime) {
    all(
        &rt,
        &[
            by_kind(
                b"var,x,1/3\n",
                Answer::Accepted(1, 1),
                Answer::Refused(11, 1, 3),
                Answer::Refused(11, 1, 3),
            ),
            by_kind(
                b"var,x,1/2\n",
                Answer::Accepted(1, 1),
                Answer::Accepted(1, 1),
                Answer::Refused(11, 1, 3),
            ),
            by_kind(
                b"var,x,1000\n",
                Answer::Accepted(1, 1),
                Answer::Accepted(1, 1),
                Answer::Accepted(1, 1),
            ),
            by_kind(
                b"var,x,-1000\n",
                Answer::Accepted(1, 1),
                Answer::Accepted(1, 1),
                Answer::Accepted(1, 1),
            ),
            by_kind(
                b"var,x,1001\n",
                Answer::Accepted(1, 1),
                Answer::Accepted(1, 1),
                Answer::Refused(11, 1, 3),
            ),
            by_kind(
                b"var,x,-1001\n",
                Answer::Accepted(1, 1),
                Answer::Accepted(1, 1),
                Answer::Refused(11, 1, 3),
            ),
            by_kind(
                b"var,x,4/2\n",
                Answer::Accepted(1, 1),
                Answer::Accepted(1, 1),
                Answer::Accepted(1, 1),
            ),
            by_kind(
                b"var,x,0/5\n",
                Answer::Accepted(1, 1),
                Answer::Accepted(1, 1),
                Answer::Accepted(1, 1),
            ),
            by_kind(
                b"var,x,1/1000\n",
                Answer::Accepted(1, 1),
                Answer::Accepted(1, 1),
                Answer::Refused(11, 1, 3),
            ),
            by_kind(
                b"var,x,1/1001\n",
                Answer::Accepted(1, 1),
                Answer::Refused(11, 1, 3),
                Answer::Refused(11, 1, 3),
            ),
            by_kind(
                b"var,x,2/2000\n",
                Answer::Accepted(1, 1),
                Answer::Accepted(1, 1),
                Answer::Refused(11, 1, 3),
            ),
            by_kind(
                b"var,x,1/2000\n",
                Answer::Accepted(1, 1),
                Answer::Refused(11, 1, 3),
                Answer::Refused(11, 1, 3),
            ),
            by_kind(
                b"var,x,2147483\n",
                Answer::Accepted(1, 1),
                Answer::Accepted(1, 1),
                Answer::Refused(11, 1, 3),
            ),
            by_kind(
                b"var,x,2147484\n",
                Answer::Accepted(1, 1),
                Answer::Refused(11, 1, 3),
                Answer::Refused(11, 1, 3),
            ),
            by_kind(
                b"var,x,2147483647/1000\n",
                Answer::Accepted(1, 1),
                Answer::Accepted(1, 1),
                Answer::Refused(11, 1, 3),
            ),
            by_kind(
                b"var,x,-2147483647/1000\n",
                Answer::Accepted(1, 1),
                Answer::Accepted(1, 1),
                Answer::Refused(11, 1, 3),
            ),
            by_kind(
                b"var,x,-2147483647/2147483647\n",
                Answer::Accepted(1, 1),
                Answer::Accepted(1, 1),
                Answer::Accepted(1, 1),
            ),
            by_kind(
                b"var,x,-2147483647/2147483646\n",
                Answer::Accepted(1, 1),
                Answer::Refused(11, 1, 3),
                Answer::Refused(11, 1, 3),
            ),
            by_kind(
                b"var,x,1\nset,x,x,2,1/3,add,mul\n",
                Answer::Accepted(1, 2),
                Answer::Refused(11, 2, 5),
                Answer::Refused(11, 2, 5),
            ),
            by_kind(
                b"run,1/3,1,add,1/7,add\n",
                Answer::Accepted(0, 1),
                Answer::Refused(11, 1, 2),
                Answer::Refused(11, 1, 2),
            ),
            by_kind(
                b"if,1/2,1/3,lt\nend\n",
                Answer::Accepted(0, 2),
                Answer::Refused(11, 1, 3),
                Answer::Refused(11, 1, 2),
            ),
            by_kind(
                b"while,1,1/3,lt\nend\n",
                Answer::Accepted(0, 2),
                Answer::Refused(11, 1, 3),
                Answer::Refused(11, 1, 3),
            ),
            by_kind(
                b"var,x,1\nrun,1\nrate,x,1,one,1/3,one\n",
                Answer::Accepted(1, 3),
                Answer::Refused(11, 3, 5),
                Answer::Refused(11, 3, 5),
            ),
            by_kind(
                b"var,x,1\nvar,y,1/3\n",
                Answer::Accepted(2, 2),
                Answer::Refused(11, 2, 3),
                Answer::Refused(11, 2, 3),
            ),
        ],
    );
}

#[test]
fn rates(rt: HostRuntime) {
    all(
        &rt,
        &[
            refuses(b"var,x,0\nrate,x,1,one\n", 12, 2, 2),
            accepts(b"var,x,0\nrun,5\nrate,x,1,one\n", 1, 3),
            refuses(b"var,x,0\nrun,5\nrate,x,1,one\nrate,x,2,one\n", 12, 4, 2),
            accepts(b"var,x,0\nrun,5\nrate,x,1,one\nrun,5\nrate,x,2,one\n", 1, 5),
            refuses(
                b"var,x,0\nvar,y,0\nrun,5\nrate,x,1,one\nrate,y,1,one\nrate,x,2,one\n",
                12,
                6,
                2,
            ),
            refuses(b"var,x,0\nrun,1\nset,x,1\nrate,x,1,one\n", 12, 4, 2),
            refuses(b"var,x,0\nif,0,1,lt\nrate,x,1,one\nend\n", 12, 3, 2),
            refuses(
                b"var,x,0\nif,0,1,lt\nrun,1\nelse\nrate,x,1,one\nend\n",
                12,
                5,
                2,
            ),
            refuses(
                b"var,x,0\nwhile,0,1,lt\nrun,1\nend\nrate,x,1,one\n",
                12,
                5,
                2,
            ),
            accepts(b"var,x,0\nwhile,0,1,lt\nrun,1\nrate,x,1,one\nend\n", 1, 5),
            accepts(
                b"var,a,0\nvar,b,0\nvar,c,0\nvar,d,0\nvar,e,0\nvar,f,0\nvar,g,0\nvar,h,0\nvar,i,0\nvar,j,0\nvar,k,0\nvar,l,0\nvar,m,0\nvar,n,0\nvar,o,0\nvar,p,0\nrun,1\nrate,a,1,one\nrate,b,1,one\nrate,c,1,one\nrate,d,1,one\nrate,e,1,one\nrate,f,1,one\nrate,g,1,one\nrate,h,1,one\nrate,i,1,one\nrate,j,1,one\nrate,k,1,one\nrate,l,1,one\nrate,m,1,one\nrate,n,1,one\nrate,o,1,one\nrate,p,1,one\n",
                16,
                33,
            ),
            refuses(
                b"var,a,0\nvar,b,0\nvar,c,0\nvar,d,0\nvar,e,0\nvar,f,0\nvar,g,0\nvar,h,0\nvar,i,0\nvar,j,0\nvar,k,0\nvar,l,0\nvar,m,0\nvar,n,0\nvar,o,0\nvar,p,0\nrun,1\nrate,a,1,one\nrate,b,1,one\nrate,c,1,one\nrate,d,1,one\nrate,e,1,one\nrate,f,1,one\nrate,g,1,one\nrate,h,1,one\nrate,i,1,one\nrate,j,1,one\nrate,k,1,one\nrate,l,1,one\nrate,m,1,one\nrate,n,1,one\nrate,o,1,one\nrate,p,1,one\nrate,p,1,one\n",
                12,
                34,
                2,
            ),
            refuses(
                b"var,x,0\nvar,y,0\nrun,1\nrate,x,1,one\nwhile,0,1,lt\nrate,y,1,one\nend\n",
                12,
                6,
                2,
            ),
        ],
    );
}

#[test]
fn blocks(rt: HostRuntime) {
    all(
        &rt,
        &[
            refuses(b"end\n", 13, 1, 0),
            refuses(b"else\n", 13, 1, 0),
            refuses(b"if,0,1,lt\nend\nend\n", 13, 3, 0),
            refuses(b"if,0,1,lt\nend\nelse\n", 13, 3, 0),
            accepts(b"if,0,1,lt\nelse\nend\n", 0, 3),
            refuses(b"if,0,1,lt\nelse\nelse\nend\n", 13, 3, 0),
            refuses(b"while,0,1,lt\nelse\nend\n", 13, 2, 0),
            accepts(b"while,0,1,lt\nend\n", 0, 2),
            refuses(b"if,0,1,lt\nwhile,0,1,lt\nelse\nend\nend\n", 13, 3, 0),
            accepts(b"if,0,1,lt\nwhile,0,1,lt\nend\nelse\nend\n", 0, 5),
            accepts(b"if,0,1,lt\nelse\nif,0,1,lt\nelse\nend\nend\n", 0, 6),
            refuses(
                b"if,0,1,lt\nelse\nif,0,1,lt\nelse\nend\nelse\nend\n",
                13,
                6,
                0,
            ),
            accepts(
                b"if,0,1,lt\nif,0,1,lt\nif,0,1,lt\nif,0,1,lt\nif,0,1,lt\nif,0,1,lt\nif,0,1,lt\nif,0,1,lt\nend\nend\nend\nend\nend\nend\nend\nend\n",
                0,
                16,
            ),
            refuses(
                b"if,0,1,lt\nif,0,1,lt\nif,0,1,lt\nif,0,1,lt\nif,0,1,lt\nif,0,1,lt\nif,0,1,lt\nif,0,1,lt\nif,0,1,lt\nend\nend\nend\nend\nend\nend\nend\nend\nend\n",
                13,
                9,
                0,
            ),
            accepts(
                b"while,0,1,lt\nwhile,0,1,lt\nwhile,0,1,lt\nwhile,0,1,lt\nwhile,0,1,lt\nwhile,0,1,lt\nwhile,0,1,lt\nwhile,0,1,lt\nend\nend\nend\nend\nend\nend\nend\nend\n",
                0,
                16,
            ),
            refuses(
                b"while,0,1,lt\nwhile,0,1,lt\nwhile,0,1,lt\nwhile,0,1,lt\nwhile,0,1,lt\nwhile,0,1,lt\nwhile,0,1,lt\nwhile,0,1,lt\nwhile,0,1,lt\nend\nend\nend\nend\nend\nend\nend\nend\nend\n",
                13,
                9,
                0,
            ),
            accepts(
                b"if,0,1,lt\nend\nif,0,1,lt\nend\nif,0,1,lt\nend\nif,0,1,lt\nend\nif,0,1,lt\nend\nif,0,1,lt\nend\nif,0,1,lt\nend\nif,0,1,lt\nend\nif,0,1,lt\nend\n",
                0,
                18,
            ),
            accepts(
                b"if,0,1,lt\nif,0,1,lt\nif,0,1,lt\nif,0,1,lt\nif,0,1,lt\nif,0,1,lt\nif,0,1,lt\nif,0,1,lt\nelse\nend\nelse\nend\nelse\nend\nelse\nend\nelse\nend\nelse\nend\nelse\nend\nelse\nend\n",
                0,
                24,
            ),
            accepts(
                b"if,0,1,lt\nif,0,1,lt\nif,0,1,lt\nif,0,1,lt\nif,0,1,lt\nif,0,1,lt\nif,0,1,lt\nif,0,1,lt\nend\nwhile,0,1,lt\nend\nend\nend\nend\nend\nend\nend\nend\n",
                0,
                18,
            ),
            refuses(
                b"if,0,1,lt\nif,0,1,lt\nif,0,1,lt\nif,0,1,lt\nif,0,1,lt\nif,0,1,lt\nif,0,1,lt\nif,0,1,lt\nend\nwhile,0,1,lt\nwhile,0,1,lt\nend\nend\nend\nend\nend\nend\nend\nend\nend\n",
                13,
                11,
                0,
            ),
        ],
    );
}

#[test]
fn left_open(rt: HostRuntime) {
    all(
        &rt,
        &[
            refuses(b"if,0,1,lt\n", 13, 1, 0),
            refuses(b"while,0,1,lt\n", 13, 1, 0),
            refuses(b"if,0,1,lt\nwhile,0,1,lt\n", 13, 2, 0),
            refuses(b"if,0,1,lt\nwhile,0,1,lt\nend\n", 13, 1, 0),
            refuses(b"if,0,1,lt\nend\nwhile,0,1,lt\n", 13, 3, 0),
            refuses(b"if,0,1,lt\nelse\n", 13, 1, 0),
            refuses(
                b"if,0,1,lt\nif,0,1,lt\nif,0,1,lt\nif,0,1,lt\nif,0,1,lt\nif,0,1,lt\nif,0,1,lt\nif,0,1,lt\n",
                13,
                8,
                0,
            ),
            refuses(
                b"if,0,1,lt\nif,0,1,lt\nif,0,1,lt\nif,0,1,lt\nif,0,1,lt\nif,0,1,lt\nif,0,1,lt\nif,0,1,lt\nend\n",
                13,
                7,
                0,
            ),
            refuses(
                b"if,0,1,lt\nif,0,1,lt\nif,0,1,lt\nif,0,1,lt\nif,0,1,lt\nif,0,1,lt\nif,0,1,lt\nif,0,1,lt\nif,0,1,lt\n",
                13,
                9,
                0,
            ),
            refuses(b"run,1\nif,0,1,lt\nrun,1\n", 13, 2, 0),
        ],
    );
}

#[test]
fn items(rt: HostRuntime) {
    all(
        &rt,
        &[
            refuses(b"var,x,0\nset,x,1,2\n", 14, 2, 0),
            refuses(b"run,add\n", 14, 1, 0),
            refuses(b"run,1,add\n", 14, 1, 0),
            refuses(b"if,1\n", 14, 1, 0),
            refuses(b"if,0,1,lt,not,not,and\nend\n", 14, 1, 0),
            accepts(b"run,1,2,add\n", 0, 1),
            accepts(b"run,1,2,sub\n", 0, 1),
            accepts(b"run,1,2,mul\n", 0, 1),
            accepts(b"run,1,2,div\n", 0, 1),
            accepts(b"run,1,0,div\n", 0, 1),
            refuses(b"run,1,2,lt\n", 14, 1, 0),
            refuses(b"run,1,2,le\n", 14, 1, 0),
            refuses(b"var,x,0\nset,x,1,2,lt\n", 14, 2, 0),
            refuses(b"if,1,2,add\nend\n", 14, 1, 0),
            accepts(b"if,1,2,le\nend\n", 0, 2),
            accepts(b"if,1,2,lt,not\nend\n", 0, 2),
            accepts(b"while,1,2,lt,1,2,le,and\nend\n", 0, 2),
            accepts(b"while,1,2,lt,1,2,le,or\nend\n", 0, 2),
            refuses(b"if,not\nend\n", 14, 1, 0),
            refuses(b"if,1,not\nend\n", 14, 1, 0),
            refuses(b"if,1,2,and\nend\n", 14, 1, 0),
            refuses(b"if,1,2,lt,3,and\nend\n", 14, 1, 0),
            refuses(b"if,3,1,2,lt,or\nend\n", 14, 1, 0),
            refuses(b"if,1,2,lt,or\nend\n", 14, 1, 0),
            refuses(b"if,1,2,lt,3,lt\nend\n", 14, 1, 0),
            refuses(b"if,3,1,2,lt,lt\nend\n", 14, 1, 0),
            refuses(b"run,1,2,lt,3,add\n", 14, 1, 0),
            refuses(b"run,3,1,2,lt,add\n", 14, 1, 0),
            refuses(b"if,1,2,lt,1,2,lt\nend\n", 14, 1, 0),
            refuses(b"if,1,2,lt,1\nend\n", 14, 1, 0),
            refuses(b"if,1,1,2,lt\nend\n", 14, 1, 0),
            refuses(b"while,1\nend\n", 14, 1, 0),
        ],
    );
}

// Eight results may wait. Nine cannot come down to one within 16 items, so such a line is wrong twice over.
#[test]
fn waiting(rt: HostRuntime) {
    all(
        &rt,
        &[
            accepts(b"run,1,1,1,1,1,1,1,1,add,add,add,add,add,add,add\n", 0, 1),
            refuses(
                b"run,1,1,1,1,1,1,1,1,1,add,add,add,add,add,add,add\n",
                14,
                1,
                0,
            ),
            refuses(b"run,1,1,1,1,1,1,1,1,add,add,add,add,add,add\n", 14, 1, 0),
            refuses(
                b"run,1,1,1,1,1,1,1,1,add,add,add,add,add,add,add,add\n",
                14,
                1,
                0,
            ),
            accepts(b"run,1,1,add,1,add,1,add,1,add,1,add,1,add,1,add\n", 0, 1),
            accepts(
                b"if,0,0,0,0,0,0,0,0,add,add,add,add,add,add,lt\nend\n",
                0,
                2,
            ),
            refuses(
                b"if,0,0,0,0,0,0,0,0,0,add,add,add,add,add,add,lt\nend\n",
                14,
                1,
                0,
            ),
            accepts(
                b"if,1,2,lt,1,2,lt,and,1,2,lt,and,1,2,lt,and,not\nend\n",
                0,
                2,
            ),
            accepts(
                b"var,x,1\nset,x,x,x,x,x,x,x,x,x,mul,mul,mul,mul,mul,mul,mul\n",
                1,
                2,
            ),
            refuses(
                b"var,x,1\nset,x,x,x,x,x,x,x,x,x,x,mul,mul,mul,mul,mul,mul,mul\n",
                14,
                2,
                0,
            ),
        ],
    );
}

#[test]
fn chains(rt: HostRuntime) {
    all(
        &rt,
        &[
            accepts(b"var,a,0\nrun,1\nrate,a,1,one\n", 1, 3),
            accepts(b"var,a,0\nvar,b,0\nrun,1\nrate,a,1,b\nrate,b,1,one\n", 2, 5),
            accepts(
                b"var,a,0\nvar,b,0\nvar,c,0\nrun,1\nrate,a,1,b\nrate,b,1,c\nrate,c,1,one\n",
                3,
                7,
            ),
            accepts(
                b"var,a,0\nvar,b,0\nvar,c,0\nvar,d,0\nrun,1\nrate,a,1,b\nrate,b,1,c\nrate,c,1,d\nrate,d,1,one\n",
                4,
                9,
            ),
            refuses(
                b"var,a,0\nvar,b,0\nvar,c,0\nvar,d,0\nvar,e,0\nrun,1\nrate,a,1,b\nrate,b,1,c\nrate,c,1,d\nrate,d,1,e\nrate,e,1,one\n",
                15,
                6,
                0,
            ),
            refuses(
                b"var,a,0\nvar,b,0\nvar,c,0\nvar,d,0\nvar,e,0\nvar,f,0\nrun,1\nrate,a,1,b\nrate,b,1,c\nrate,c,1,d\nrate,d,1,e\nrate,e,1,f\nrate,f,1,one\n",
                15,
                7,
                0,
            ),
            accepts(
                b"var,a,0\nvar,b,0\nvar,c,0\nvar,d,0\nrun,1\nrate,a,1,one\nrate,b,1,a\nrate,c,1,b\nrate,d,1,c\n",
                4,
                9,
            ),
            refuses(
                b"var,a,0\nvar,b,0\nvar,c,0\nvar,d,0\nvar,e,0\nrun,1\nrate,a,1,one\nrate,b,1,a\nrate,c,1,b\nrate,d,1,c\nrate,e,1,d\n",
                15,
                6,
                0,
            ),
            accepts(
                b"var,a,0\nvar,b,0\nvar,c,0\nvar,d,0\nvar,e,0\nrun,1\nrate,a,1,b\nrate,b,1,c\nrate,c,1,d\nrate,d,1,e\n",
                5,
                10,
            ),
            refuses(
                b"var,a,0\nvar,b,0\nvar,c,0\nvar,d,0\nvar,e,0\nrun,1\nrate,a,0,b\nrate,b,0,c\nrate,c,0,d\nrate,d,0,e\nrate,e,0,one\n",
                15,
                6,
                0,
            ),
            accepts(
                b"var,a,0\nvar,b,0\nvar,c,0\nvar,d,0\nvar,e,0\nvar,f,0\nrun,1\nrate,a,1,b\nrate,b,1,c\nrate,c,1,one\nrun,1\nrate,d,1,e\nrate,e,1,f\nrate,f,1,a\n",
                6,
                14,
            ),
            accepts(
                b"var,a,0\nvar,b,0\nvar,c,0\nvar,d,0\nvar,e,0\nvar,f,0\nvar,g,0\nvar,h,0\nrun,1\nrate,a,1,b\nrate,b,1,c\nrate,c,1,d\nrate,d,1,one\nrate,e,1,f\nrate,f,1,g\nrate,g,1,h\nrate,h,1,one\n",
                8,
                17,
            ),
            accepts(
                b"var,a,0\nvar,b,0\nvar,c,0\nvar,d,0\nvar,e,0\nrun,1\nrate,a,1,b,1,c\nrate,b,1,d\nrate,c,1,d\nrate,d,1,e\n",
                5,
                10,
            ),
            refuses(
                b"var,a,0\nvar,b,0\nvar,c,0\nvar,d,0\nvar,e,0\nvar,f,0\nrun,1\nrate,a,1,b,1,c\nrate,b,1,d\nrate,c,1,d\nrate,d,1,e\nrate,e,1,f\nrate,f,1,one\n",
                15,
                7,
                0,
            ),
            accepts(
                b"var,a,0\nvar,b,0\nrun,1\nrate,a,1,b\nrun,1\nrate,b,1,a\n",
                2,
                6,
            ),
        ],
    );
}

#[test]
fn circles(rt: HostRuntime) {
    all(
        &rt,
        &[
            refuses(b"var,a,0\nrun,1\nrate,a,1,a\n", 15, 2, 0),
            refuses(
                b"var,a,0\nvar,b,0\nrun,1\nrate,a,1,b\nrate,b,1,a\n",
                15,
                3,
                0,
            ),
            refuses(
                b"var,a,0\nvar,b,0\nvar,c,0\nrun,1\nrate,a,1,b\nrate,b,1,c\nrate,c,1,a\n",
                15,
                4,
                0,
            ),
            refuses(
                b"var,a,0\nvar,b,0\nvar,c,0\nvar,d,0\nrun,1\nrate,a,1,b\nrate,b,1,c\nrate,c,1,d\nrate,d,1,a\n",
                15,
                5,
                0,
            ),
            refuses(
                b"var,a,0\nvar,b,0\nvar,c,0\nvar,d,0\nvar,e,0\nrun,1\nrate,a,1,b\nrate,b,1,c\nrate,c,1,d\nrate,d,1,e\nrate,e,1,a\n",
                15,
                6,
                0,
            ),
            refuses(b"var,x,1\nrun,5\nrate,x,1,x\n", 15, 2, 0),
            refuses(b"var,x,1\nrun,5\nrate,x,0,x\n", 15, 2, 0),
            refuses(b"var,x,0\nif,1,0,lt\nrun,1\nrate,x,1,x\nend\n", 15, 3, 0),
            refuses(
                b"var,x,0\nrun,1\nrate,x,1,one\nrun,1\nrate,x,1,x\nrun,1\nrate,x,1,x\n",
                15,
                4,
                0,
            ),
            refuses(
                b"var,a,0\nvar,b,0\nvar,c,0\nrun,1\nrate,a,1,b\nrate,b,1,c\nrate,c,1,b\n",
                15,
                4,
                0,
            ),
            refuses(
                b"var,a,0\nvar,b,0\nvar,c,0\nrun,1\nrate,c,1,one\nrate,a,1,b\nrate,b,1,a\n",
                15,
                4,
                0,
            ),
        ],
    );
}

#[test]
fn six_parts(rt: HostRuntime) {
    all(
        &rt,
        &[
            accepts(
                b"var,x,0\nvar,y,0\nrun,1\nrate,x,1,one,1,one,1,one,1,one,1,one,1,y\n",
                2,
                4,
            ),
            accepts(
                b"var,x,0\nvar,y,0\nrun,1\nrate,x,1,one,1,one,1,one,1,one,1,one,1,y\nrate,y,1,one,1,one,1,one,1,one,1,one,1,one\n",
                2,
                5,
            ),
            refuses(
                b"var,x,0\nrun,1\nrate,x,1,one,1,one,1,one,1,one,1,one,1,x\n",
                15,
                2,
                0,
            ),
            refuses(
                b"var,x,0\nrun,1\nrate,x,1,x,1,one,1,one,1,one,1,one,1,one\n",
                15,
                2,
                0,
            ),
            refuses(
                b"var,x,0\nrun,1\nrate,x,1,one,1,one,1,one,1,one,1,one,1,y\n",
                10,
                3,
                14,
            ),
            by_kind(
                b"var,x,0\nrun,1\nrate,x,1,one,1,one,1,one,1,one,1,one,1/3,one\n",
                Answer::Accepted(1, 3),
                Answer::Refused(11, 3, 13),
                Answer::Refused(11, 3, 13),
            ),
            accepts(
                b"var,a,0\nvar,b,0\nvar,c,0\nvar,d,0\nvar,e,0\nvar,f,0\nvar,g,0\nrun,1\nrate,a,1,b,1,c,1,d,1,e,1,f,1,g\nrate,g,1,b\nrate,b,1,c\nrate,c,1,d\n",
                7,
                12,
            ),
            refuses(
                b"var,a,0\nvar,b,0\nvar,c,0\nvar,d,0\nvar,e,0\nvar,f,0\nvar,g,0\nrun,1\nrate,a,1,b,1,c,1,d,1,e,1,f,1,g\nrate,g,1,b\nrate,b,1,c\nrate,c,1,d\nrate,d,1,one\n",
                15,
                8,
                0,
            ),
        ],
    );
}

#[test]
fn two_faults_on_a_line(rt: HostRuntime) {
    all(
        &rt,
        &[
            by_kind(
                b"var,x,1\nvar,x,1/3\n",
                Answer::Refused(9, 2, 2),
                Answer::Refused(9, 2, 2),
                Answer::Refused(9, 2, 2),
            ),
            by_kind(
                b"var,x,0\nset,y,1/3\n",
                Answer::Refused(10, 2, 2),
                Answer::Refused(10, 2, 2),
                Answer::Refused(10, 2, 2),
            ),
            by_kind(
                b"var,x,0\nset,x,1/3,y,add\n",
                Answer::Refused(10, 2, 4),
                Answer::Refused(10, 2, 4),
                Answer::Refused(10, 2, 4),
            ),
            refuses(b"var,x,0\nrate,y,1,one\n", 10, 2, 2),
            by_kind(
                b"var,x,0\nrate,x,1/3,one\n",
                Answer::Refused(12, 2, 2),
                Answer::Refused(11, 2, 3),
                Answer::Refused(11, 2, 3),
            ),
            refuses(b"var,x,0\nset,x,y,1\n", 10, 2, 3),
            by_kind(
                b"run,1/3,1\n",
                Answer::Refused(14, 1, 0),
                Answer::Refused(11, 1, 2),
                Answer::Refused(11, 1, 2),
            ),
            refuses(
                b"if,0,1,lt\nif,0,1,lt\nif,0,1,lt\nif,0,1,lt\nif,0,1,lt\nif,0,1,lt\nif,0,1,lt\nif,0,1,lt\nif,1\n",
                13,
                9,
                0,
            ),
            refuses(b"var,x,0\nset,x,y,z\n", 10, 2, 3),
            by_kind(
                b"run,1/3,1/7,add\n",
                Answer::Accepted(0, 1),
                Answer::Refused(11, 1, 2),
                Answer::Refused(11, 1, 2),
            ),
            refuses(
                b"if,0,1,lt\nif,0,1,lt\nif,0,1,lt\nif,0,1,lt\nif,0,1,lt\nif,0,1,lt\nif,0,1,lt\nif,0,1,lt\nif,x,0,lt\n",
                10,
                9,
                2,
            ),
        ],
    );
}

#[test]
fn two_faults_on_two_lines(rt: HostRuntime) {
    all(
        &rt,
        &[
            by_kind(
                b"var,x,1/3\nset,y,1\n",
                Answer::Refused(10, 2, 2),
                Answer::Refused(11, 1, 3),
                Answer::Refused(11, 1, 3),
            ),
            refuses(b"var,x,0\nif,0,1,lt\nrun,5\nrate,x,1,x\n", 13, 2, 0),
            refuses(b"if,0,1,lt\nrun,add\n", 14, 2, 0),
            refuses(b"var,x,0\nrun,1\nrate,x,1,x\nrun,add\n", 14, 4, 0),
            refuses(b"var,x,0\nrun,1\nrate,x,1,x\nend\n", 13, 4, 0),
            refuses(b"run,add\nend\n", 14, 1, 0),
            refuses(b"end\nrun,add\n", 13, 1, 0),
            refuses(b"var,x,0\nset,x,y\nvar,x,0\n", 10, 2, 3),
            refuses(b"var,x,0\nvar,x,0\nset,x,y\n", 9, 2, 2),
            refuses(b"if,1\n", 14, 1, 0),
            by_kind(
                b"run,1/3\nend\n",
                Answer::Refused(13, 2, 0),
                Answer::Refused(11, 1, 2),
                Answer::Refused(11, 1, 2),
            ),
            by_kind(
                b"end\nrun,1/3\n",
                Answer::Refused(13, 1, 0),
                Answer::Refused(13, 1, 0),
                Answer::Refused(13, 1, 0),
            ),
        ],
    );
}

// The answer in fractions for a text of which one entry was changed after reading.
fn changed(text: &[u8], at: usize, entry: Entry) -> Answer {
    let mut table = [Entry::BLANK; 16];
    match read(text, &mut table) {
        Ok(draft) => {
            if at < 16 {
                table[at] = entry;
            }
            answer_for::<Fractions>(draft, &table).into()
        }
        Err(refusal) => Err(Refused::Unread(refusal)).into(),
    }
}

fn number(
    line: usize,
    field: usize,
    from: usize,
    to: usize,
    minus: bool,
    top: u32,
    bottom: u32,
) -> Entry {
    Entry {
        place: Place {
            line,
            field,
            from,
            to,
        },
        token: Token::Number(Number { minus, top, bottom }),
    }
}

const OTHER: Answer = Answer::Refused(8, 0, 0);

#[test]
fn a_changed_table(rt: HostRuntime) {
    let text: &[u8] = b"var,x,-4/2\nrun,1\n";
    let good = Answer::Accepted(1, 2);
    assert_eq!(rt; changed(text, 2, number(1, 3, 6, 10, true, 4, 2)), good);
    assert_eq!(rt; changed(text, 2, number(2, 3, 6, 10, true, 4, 2)), OTHER);
    assert_eq!(rt; changed(text, 2, number(1, 4, 6, 10, true, 4, 2)), OTHER);
    assert_eq!(rt; changed(text, 2, number(1, 3, 5, 10, true, 4, 2)), OTHER);
    assert_eq!(rt; changed(text, 2, number(1, 3, 6, 11, true, 4, 2)), OTHER);
    assert_eq!(rt; changed(text, 2, number(1, 3, 6, 10, false, 4, 2)), OTHER);
    assert_eq!(rt; changed(text, 2, number(1, 3, 6, 10, true, 2, 2)), OTHER);
    assert_eq!(rt; changed(text, 2, number(1, 3, 6, 10, true, 2, 1)), OTHER);
    assert_eq!(rt; changed(text, 0, Entry::BLANK), OTHER);
    assert_eq!(rt; changed(text, 1, Entry::BLANK), OTHER);
    assert_eq!(rt; changed(text, 4, Entry::BLANK), OTHER);
    assert_eq!(rt; changed(text, 5, number(1, 1, 1, 1, true, 1, 1)), good);
    assert_eq!(rt; changed(b"var,x,0\nset,x,y\n", 0, Entry::BLANK), OTHER);
}

// The answer in fractions for a text with the first `n` entries of a table that another text was read into.
fn with_table_of(text: &[u8], other: &[u8], n: usize) -> Answer {
    let mut table = [Entry::BLANK; 16];
    let mut others = [Entry::BLANK; 16];
    let Ok(draft) = read(text, &mut table) else {
        return Answer::Unread(0, 0, 0);
    };
    let Ok(_other) = read(other, &mut others) else {
        return Answer::Unread(0, 0, 0);
    };
    answer_for::<Fractions>(draft, &others[..n.min(16)]).into()
}

#[test]
fn another_table(rt: HostRuntime) {
    let text: &[u8] = b"var,x,1\nset,x,2\n";
    assert_eq!(rt; with_table_of(text, text, 6), Answer::Accepted(1, 2));
    assert_eq!(rt; with_table_of(text, text, 7), Answer::Accepted(1, 2));
    assert_eq!(rt; with_table_of(text, text, 16), Answer::Accepted(1, 2));
    assert_eq!(rt; with_table_of(text, text, 5), OTHER);
    assert_eq!(rt; with_table_of(text, text, 0), OTHER);
    assert_eq!(rt; with_table_of(b"", text, 0), Answer::Accepted(0, 0));
    assert_eq!(rt; with_table_of(b"", text, 6), Answer::Accepted(0, 0));
    assert_eq!(rt;
        with_table_of(text, b"var,y,1\nset,y,2\n", 6),
        Answer::Accepted(1, 2)
    );
    assert_eq!(rt; with_table_of(text, b"var,x,1\nset,x,3\n", 6), OTHER);
    assert_eq!(rt; with_table_of(text, b"var,x,1\nset,x,x\n", 6), OTHER);
    assert_eq!(rt; with_table_of(text, b"var,x,1\nvar,x,2\n", 6), OTHER);
    assert_eq!(rt; with_table_of(text, b"var,xx,1\nset,x,2\n", 6), OTHER);
    assert_eq!(rt; with_table_of(text, b"var,x,1\n", 6), OTHER);
    assert_eq!(rt; with_table_of(text, b"", 16), OTHER);
}

// The answer in fractions for a draft that was refused in another kind before.
fn again(text: &[u8]) -> (Answer, Answer) {
    let mut table = [Entry::BLANK; 16];
    let Ok(draft) = read(text, &mut table) else {
        return (OTHER, OTHER);
    };
    match check::<Thousandths>(draft, &table) {
        Ok(script) => (Answer::Accepted(script.variables(), script.lines()), OTHER),
        Err((draft, refusal)) => {
            let first = Answer::Refused(refusal.reason.number(), refusal.line, refusal.field);
            (first, answer_for::<Fractions>(draft, &table).into())
        }
    }
}

#[test]
fn a_draft_comes_back(rt: HostRuntime) {
    assert_eq!(rt;
        again(b"var,x,1/3\nrun,1\n"),
        (Answer::Refused(11, 1, 3), Answer::Accepted(1, 2))
    );
    assert_eq!(rt;
        again(b"var,x,1/3\nrun,y\n"),
        (Answer::Refused(11, 1, 3), Answer::Refused(10, 2, 2))
    );
}

// Writes the piece over and over.
fn repeat(out: &mut [u8], piece: &[u8]) {
    for (slot, b) in out.iter_mut().zip(piece.iter().cycle()) {
        *slot = *b;
    }
}

// The answer in fractions for a text of N bytes that is this piece over and over.
fn repeated<const N: usize>(piece: &[u8]) -> Answer
    requires { N < 20000 }
{
    let mut text = [0u8; N];
    repeat(&mut text, piece);
    let mut table = [Entry::BLANK; 4608];
    answer_to::<Fractions>(&text, &mut table).into()
}

#[test]
fn long_scripts(rt: HostRuntime) {
    let sums: &[u8] = b"run,1,1,1,1,1,1,1,1,add,add,add,add,add,add,add\n";
    assert_eq!(rt; repeated::<12288>(sums), Answer::Accepted(0, 256));
    let blocks: &[u8] = b"if,0,1,lt\nend\n";
    assert_eq!(rt; repeated::<1792>(blocks), Answer::Accepted(0, 256));
    assert_eq!(rt; repeated::<1788>(blocks), Answer::Refused(13, 255, 0));
    assert_eq!(rt; repeated::<1802>(blocks), Answer::Unread(4, 257, 0));
}
