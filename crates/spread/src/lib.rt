// Solid and spread: where the characters of one string stand when it is the shorter of a word's two (document 01, "Level one", with R-4). The gap
// rule gives three numbers, the gap in front, the space within and the gap behind, and everything above cites only those; one
// loop then writes the starts of any string. It relies on `basics` alone and knows nothing of kinds, elements or lines.
#![tactic(auto)]

ghost use Rattle.std.specs.Prelude.{◌≡◌, ◌-◌, ◌*◌, ◌/◌, ◌≤◌, ◌<◌};
ghost use Rattle.spread.specs.Worded.{whole, held};
ghost use Rattle.spread.specs.Ratio.{ratio_for, ratios_of, Sound, Housed};
ghost use Rattle.spread.specs.Gap.{gaps_by, gaps, starts};
ghost use Rattle.spread.specs.Running.{Ready};

/// How the shorter string is set: Limited is spread with at most half an em at each end.
#[derive(Clone, Copy, Debug, PartialEq, Eq)]
pub enum Way {
    Solid,
    Spread,
    Limited,
}

/// Which of a word's two strings is the shorter: each has its own ratio.
#[derive(Clone, Copy, Debug, PartialEq, Eq)]
pub enum Which {
    Ruby,
    Base,
}

/// 1:2:1 for both, as document 01 has it: what a sheet without ratios means.
pub const USUAL: [[u32; 3]; 2] = [[1, 2, 1], [1, 2, 1]];

/// A house ratio (R-4): the parts of the gap in front, of each gap within and of the gap behind.
#[derive(Clone, Copy, Debug, PartialEq, Eq)]
pub struct Ratio {
    pub a: u32,
    pub m: u32,
    pub c: u32,
}

/// The space of a string in half units: in front, within and behind.
#[derive(Clone, Copy, Debug, PartialEq, Eq)]
pub struct Gaps {
    pub front: u32,
    pub within: u32,
    pub rear: u32,
}

// The ratio of the string that is spread, of the two that a job carries: "one for spread ruby and one for spread base, each of three numbers a, m, c". By a match, since document 01 has them by value.
#[tactic(auto, using(crate::proofs::Steps::spread_steps))]
fn ratio_of(which: Which, ratios: [[u32; 3]; 2]) -> Ratio
    ensures { result ≡ ratio_for which (ratios_of ratios) }
{
    match which {
        Which::Ruby => Ratio {
            a: ratios[0][0],
            m: ratios[0][1],
            c: ratios[0][2],
        },
        Which::Base => Ratio {
            a: ratios[1][0],
            m: ratios[1][1],
            c: ratios[1][2],
        },
    }
}

// S = a + m(n - 1) + c. The bounds of counts and widths are asked of plain numbers here and below: a type for them would ask no less, and more of who calls from outside.
#[tactic(auto, using(crate::proofs::Steps::spread_steps))]
fn whole_of(r: Ratio, n: u32) -> u32
    requires { (Sound r) × (0 < n) × (n ≤ 4096) }
    ensures { result ≡ whole r n }
{
    r.a + r.m * (n - 1) + r.c
}

// floor(2D * part / S).
#[tactic(auto, using(crate::proofs::Steps::share_steps))]
fn share_of(d: u32, part: u32, s: u32) -> u32
    requires { (d ≤ 262144) × (part ≤ 7) × (0 < s) × (part ≤ s) }
    ensures { (result ≡ 2 * d * part / s) × (result ≤ 2 * d) }
{
    2 * d * part / s
}

// An end gap, held to em half units where there is a limit.
fn hold(limited: bool, em: u32, g: u32) -> u32
    ensures { result ≡ held limited em g }
{
    if limited { g.min(em) } else { g }
}

// The gaps of a string of n characters that is spread.
#[tactic(auto, using(crate::proofs::Steps::spread_steps), unfolding(crate::specs::Gap::gaps_by))]
fn spread_of(limited: bool, r: Ratio, em: u32, d: u32, n: u32) -> Gaps
    requires { (Sound r) × (d ≤ 262144) × (0 < n) × (n ≤ 4096) }
    ensures { result ≡ gaps_by limited r em d n }
{
    if n == 1 {
        if r.a + r.c == 0 {
            return Gaps {
                front: d,
                within: 0,
                rear: d,
            };
        }
        let f = share_of(d, r.a, whole_of(r, n));
        return Gaps {
            front: f,
            within: 0,
            rear: 2 * d - f,
        };
    }
    let s = whole_of(r, n);
    let f = share_of(d, r.a, s);
    if r.m == 0 {
        return Gaps {
            front: f,
            within: 0,
            rear: 2 * d - f,
        };
    }
    let front = hold(limited, em, f);
    let rear = hold(limited, em, share_of(d, r.c, s));
    Gaps {
        front,
        within: 2 * d - (front + rear),
        rear,
    }
}

/// The gaps of the shorter string by its way and its ratio: d is the difference of the sums in units, n the string's characters.
#[tactic(auto, using(crate::proofs::Steps::way_steps), unfolding(crate::specs::Gap::gaps))]
pub fn gaps_of(which: Which, way: Way, ratios: [[u32; 3]; 2], em: u32, d: u32, n: u32) -> Gaps
    requires { (Housed (ratios_of ratios)) × (d ≤ 262144) × (0 < n) × (n ≤ 4096) }
    ensures { result ≡ gaps way (ratio_for which (ratios_of ratios)) em d n }
{
    match way {
        Way::Solid => Gaps {
            front: d,
            within: 0,
            rear: d,
        },
        Way::Spread => spread_of(false, ratio_of(which, ratios), em, d, n),
        Way::Limited => spread_of(true, ratio_of(which, ratios), em, d, n),
    }
}

/// The starts of a string's characters: the first at `at`, with `within` half units of space within the string. One division for the string; then, from gap to
/// gap as by pencil, each gap gets the quotient, the remainder is carried, and a gap where the carried remainders make up the number of gaps gets one half
/// unit more (specs/Carried.antt). One loop serves solid and spread.
pub fn put_starts(ws: &[u32], at: u32, within: u32, out: &mut [u32])
    requires { Ready within at ws.now out.old }
    ensures { out.new ≡ starts within at ws.now }
{
    let n = ws.len();
    if n == 0 {
        return;
    }
    out[0] = at;
    if n == 1 {
        return;
    }
    let gaps = (n - 1) as u32;
    let quotient = within / gaps;
    let remainder = within % gaps;
    let mut x = at;
    let mut carried: u32 = 0;
    // Written for the compiler: `for i in 0..n - 1` with one write behind the `if` costs words 1 % more instructions (`bench/run`).
    let mut i: usize = 0;
    while i + 1 < n {
        let left = carried + remainder;
        x += 2 * ws[i] + quotient;
        i += 1;
        if left < gaps {
            carried = left;
            out[i] = x;
        } else {
            carried = left - gaps;
            x += 1;
            out[i] = x;
        }
    }
}
