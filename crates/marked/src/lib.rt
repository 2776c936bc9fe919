// The eight marked runs: four scripts, and what is answered to advances of new benches of them.
#![tactic(auto)]

ghost use Rattle.std.specs.Prelude.{◌≡◌};
ghost use Rattle.marked.specs.Texts.{text_a, text_b, text_c, text_d};
ghost use Rattle.marked.specs.Runs.{MarkedFromText};

// The texts of the four scripts.
#[derive(Clone, Copy, PartialEq, Eq, Debug)]
pub struct Texts {
    pub a: &'static [u8],
    pub b: &'static [u8],
    pub c: &'static [u8],
    pub d: &'static [u8],
}

// The texts, and the runs from them on.
pub fn marked_runs() -> Texts
    ensures texts { (result.a.now ≡ text_a) × (result.b.now ≡ text_b) × (result.c.now ≡ text_c) × (result.d.now ≡ text_d) }
    ensures runs { MarkedFromText }
{
    Texts {
        a: b"var,p,0\nvar,v,0\nrun,10\nrate,p,1,v\nrate,v,2,one\nrun,10\nrate,p,1,v\nrate,v,-2,one\n",
        b: b"var,x,1\nwhile,0,1,lt\nset,x,x,2,div\nend\n",
        c: b"var,p,2147000000\nvar,v,2000\nrun,2000\nrate,p,1,v\nrate,v,-2,one\n",
        d: b"var,x,1\nrun,1\nrate,x,-1,one\nset,x,1,x,div\n",
    }
}
