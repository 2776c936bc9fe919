// A table of operations at the edges of what each kind holds, worked out by another program.
#![tactic(auto)]

use number::Fault;

pub mod fractions_table;
pub mod small_table;
pub mod thousandths_table;

// A pair, or why there is none.
pub type Held = Result<(i64, i64), Fault>;

// A truth, or why there is none.
pub type Truth = Result<bool, Fault>;

pub const NOT_HELD: Held = Err(Fault::NotHeld);

pub const ZERO_DIVISOR: Held = Err(Fault::ZeroDivisor);

pub const NO_TRUTH: Truth = Err(Fault::NotHeld);

// Two pairs, and the answer of each operation on them.
#[derive(Clone, Copy)]
pub struct Case {
    pub p: (i64, i64),
    pub q: (i64, i64),
    pub add: Held,
    pub sub: Held,
    pub mul: Held,
    pub div: Held,
    pub lt: Truth,
    pub le: Truth,
}

// A fraction to take, and its pair.
#[derive(Clone, Copy)]
pub struct Taken {
    pub n: i64,
    pub d: i64,
    pub take: Held,
}

// A pair, and its lowest terms.
#[derive(Clone, Copy)]
pub struct Told {
    pub p: (i64, i64),
    pub terms: Held,
}

// A pair, and what it is when scaled.
#[derive(Clone, Copy)]
pub struct Scaled {
    pub p: (i64, i64),
    pub n: u32,
    pub k: u32,
    pub scale: Held,
}

#[cfg(test)]
mod tests {
    use super::*;
    use kinds::fractions::Fractions;
    use kinds::small::SmallWholes;
    use kinds::thousandths::Thousandths;
    use number::{Kind, Pair, Quantity};
    use std::process::Abort;

    fn pair(p: (i64, i64)) -> Pair {
        Pair { a: p.0, b: p.1 }
    }

    fn parts(r: Result<Pair, Fault>) -> Held {
        let p = r?;
        Ok((p.a, p.b))
    }

    fn operations<K: Kind>(rt: &impl Abort, cases: &[Case]) {
        for c in cases {
            let (p, q) = (pair(c.p), pair(c.q));
            assert_eq!(rt; parts(K::add(p, q)), c.add);
            assert_eq!(rt; parts(K::sub(p, q)), c.sub);
            assert_eq!(rt; parts(K::mul(p, q)), c.mul);
            assert_eq!(rt; parts(K::div(p, q)), c.div);
            assert_eq!(rt; K::lt(p, q), c.lt);
            assert_eq!(rt; K::le(p, q), c.le);
        }
    }

    fn taking<K: Kind>(rt: &impl Abort, rows: &[Taken]) {
        for r in rows {
            assert_eq!(rt; parts(K::take(r.n, r.d)), r.take);
        }
    }

    fn telling<K: Kind>(rt: &impl Abort, rows: &[Told]) {
        for r in rows {
            assert_eq!(rt; K::terms(pair(r.p)), r.terms);
        }
    }

    fn scaling<K: Kind>(rt: &impl Abort, rows: &[Scaled]) {
        for r in rows {
            assert_eq!(rt; parts(K::scale(pair(r.p), r.n, r.k)), r.scale);
        }
    }

    // The table of a kind.
    fn table<K: Kind>(
        rt: &impl Abort,
        cases: &[Case],
        taken: &[Taken],
        told: &[Told],
        scaled: &[Scaled],
    ) {
        operations::<K>(rt, cases);
        taking::<K>(rt, taken);
        telling::<K>(rt, told);
        scaling::<K>(rt, scaled);
    }

    #[test]
    fn fractions(rt: HostRuntime) {
        use fractions_table::{CASES, SCALED, TAKEN, TOLD};
        table::<Fractions>(&rt, &CASES, &TAKEN, &TOLD, &SCALED);
    }

    #[test]
    fn thousandths(rt: HostRuntime) {
        use thousandths_table::{CASES, SCALED, TAKEN, TOLD};
        table::<Thousandths>(&rt, &CASES, &TAKEN, &TOLD, &SCALED);
    }

    #[test]
    fn small_wholes(rt: HostRuntime) {
        use small_table::{CASES, SCALED, TAKEN, TOLD};
        table::<SmallWholes>(&rt, &CASES, &TAKEN, &TOLD, &SCALED);
    }

    // A start of 1 and derivatives of 1, two ticks on.
    #[test]
    fn two_ticks(rt: HostRuntime) {
        let one = Pair { a: 1, b: 1 };
        let quantity = Quantity {
            d0: one,
            d1: one,
            d2: one,
            d3: one,
            d4: one,
        };
        assert_eq!(rt; quantity.value_at::<Fractions>(2), Ok(Pair { a: 7, b: 1 }));
    }
}
