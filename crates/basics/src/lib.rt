// The ground floor: the words about lists and truth values that the definitions above share (specs/Lists.antt), their laws
// (specs/Laws.antt), and the few loops over lists of numbers that know nothing of typesetting. It relies on nothing.
#![tactic(auto)]

ghost use Rattle.std.specs.Prelude.{◌≡◌, ◌<◌, ◌^◌, max};
ghost use Rattle.basics.specs.Lists.{sum, any, other};

/// The larger of two numbers. By hand, since `a.max(b)` costs plain text 2 % more instructions (`bench/run`).
pub fn larger(a: u32, b: u32) -> u32
    ensures { result ≡ max a b }
{
    if a <= b { b } else { a }
}

/// The sum of a list. The caller knows that it fits: a word's widths, at most 4,096 each, are few.
#[tactic(auto, using(crate::specs::Laws::sum_steps))]
pub fn sum_of(xs: &[u32]) -> u32
    requires { sum xs.now < 2 ^ 32 }
    ensures { result ≡ sum xs.now }
{
    let mut s: u32 = 0;
    for x in xs {
        s += *x;
    }
    s
}

/// Whether some number of a list is not `v`.
pub fn any_but(v: u32, xs: &[u32]) -> bool
    ensures { result ≡ any (other v) xs.now }
{
    xs.iter().any(|x| *x != v)
}
