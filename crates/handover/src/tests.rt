// Benches and their lines, and lines that are refused.
use super::*;
use kinds::fractions::Fractions;
use kinds::small::SmallWholes;
use kinds::thousandths::Thousandths;
use number::{Kind, Pair};
use record::{Bench, Values};
use std::test::Fail;

// The largest counts, and this value so many times.
fn bench(count: usize, value: Pair) -> Bench {
    Bench {
        line: 257,
        left: 2147483647,
        total: 2147483647,
        over: 2147483647,
        values: Values {
            count,
            pairs: [value; 16],
        },
    }
}

// The number, the line and the field of a refusal; zeros where a bench is taken up.
fn refusal<K: Kind>(line: &[u8]) -> (u8, u32, u32) {
    match take_line::<K>(line) {
        Ok(_) => (0, 0, 0),
        Err(r) => (r.reason.number(), r.line, r.field),
    }
}

#[test]
fn written(rt: HostRuntime) {
    let mut buffer = [b'.'; 50];
    let b = bench(1, Pair { a: -3, b: 2 });
    assert_eq!(rt; write_line::<Fractions>(&b, &mut buffer), Some(48));
    assert!(rt; &buffer == b"bench,257,2147483647,2147483647,2147483647,-3/2\n..");
    assert_eq!(rt; write_line::<Fractions>(&b, &mut buffer[0..48]), Some(48));
}

#[test]
fn not_written(rt: HostRuntime) {
    let mut buffer = [b'.'; 47];
    let half = Pair { a: 1, b: 2 };
    assert_eq!(rt;
        write_line::<Fractions>(&bench(1, Pair { a: -3, b: 2 }), &mut buffer),
        None
    );
    assert_eq!(rt;
        write_line::<Fractions>(&bench(1, Pair { a: 4, b: 2 }), &mut buffer),
        None
    );
    assert_eq!(rt;
        write_line::<Fractions>(&bench(17, half), &mut buffer),
        None
    );
    assert_eq!(rt;
        write_line::<SmallWholes>(&bench(1, half), &mut buffer),
        None
    );
    assert!(rt; buffer == [b'.'; 47]);
}

#[test]
fn longest(rt: HostRuntime) {
    let mut buffer = [0; 512];
    let b = bench(
        16,
        Pair {
            a: -2147483647,
            b: 2147483646,
        },
    );
    assert_eq!(rt; write_line::<Fractions>(&b, &mut buffer), Some(411));
    assert_eq!(rt; refusal::<Fractions>(&buffer[0..411]), (0, 0, 0));
    assert_eq!(rt; refusal::<Fractions>(&buffer[0..410]), (16, 0, 0));
    assert_eq!(rt; refusal::<Fractions>(&buffer[0..412]), (16, 0, 0));
}

#[test]
fn taken(rt: HostRuntime) -> Result<(), Fail> {
    let line = b"bench,9,0,23,3,-3/2,0\n";
    let b = take_line::<Fractions>(line).map_err(|_| Fail::new("refused"))?;
    assert_eq!(rt; (b.line, b.left, b.total, b.over), (9, 0, 23, 3));
    assert_eq!(rt; b.values.count, 2);
    assert_eq!(rt; b.values.pairs[0], Pair { a: -3, b: 2 });
    let mut buffer = [0; 22];
    assert_eq!(rt; write_line::<Fractions>(&b, &mut buffer), Some(22));
    assert!(rt; &buffer == line);
    Ok(())
}

#[test]
fn not_formed(rt: HostRuntime) {
    let lines: [&[u8]; 20] = [
        b"",
        b"bench",
        b"bench,3,5,5\n",
        b"bench,3,5,5,0",
        b"bench,3,5,5,0\n\n",
        b"bench,3,5,5,0\n.",
        b"bench,3,5,5,0,\n",
        b"bench,3,,5,0\n",
        b"Bench,3,5,5,0\n",
        b"bench, 3,5,5,0\n",
        b"bench,0,5,5,0\n",
        b"bench,258,5,5,0\n",
        b"bench,3,05,5,0\n",
        b"bench,3,-5,5,0\n",
        b"bench,3,5,2147483648,0\n",
        b"bench,3,5,5,0,-0\n",
        b"bench,3,5,5,0,4/2\n",
        b"bench,3,5,5,0,25/1\n",
        b"bench,3,5,5,0,0/3\n",
        b"bench,3,5,5,0,0,0,0,0,0,0,0,0,0,0,0,0,0,0,0,0,0\n",
    ];
    for line in lines {
        assert_eq!(rt; refusal::<Fractions>(line), (16, 0, 0));
    }
}

#[test]
fn not_held(rt: HostRuntime) {
    let line = b"bench,3,5,5,0,25,1/2,1/3\n";
    assert_eq!(rt; refusal::<Fractions>(line), (0, 0, 0));
    assert_eq!(rt; refusal::<Thousandths>(line), (17, 0, 8));
    assert_eq!(rt; refusal::<SmallWholes>(line), (17, 0, 7));
}
