// Where lines end (document 01, "Level two": "Lines are filled from the first: each ends at the furthest permitted break whose line can be set"), by the rows
// of the job's table alone. One pass over the pieces for each line, with the line's state by value; it stops once a whole piece passes the measure, since
// what stands in a longer line stands there too, and never at a failed part of a J. It relies on `cells` for rows, parts and states, on `line`
// and `refusal`.
#![tactic(auto)]

ghost use Rattle.std.specs.Prelude.{◌≡◌, true, cond, ◌+◌, ◌-◌, ◌*◌, ◌/◌, ◌≤◌, ◌<◌, length};
ghost use Rattle.line.specs.Setting as setting;
ghost use Rattle.cells.specs.Cells.{cell_at, lines_of};
ghost use Rattle.cells.specs.Sound.{Sound};
ghost use Rattle.filling.specs.Search.{most_of, inner_break, behind, end_break, Stands};
ghost use Rattle.filling.specs.Lines.{over, told_of, extents_of};

/// A break, and the extent of the line that ends there, in half units; 0 and 0 where there is none.
#[derive(Clone, Copy)]
pub struct Break {
    pub at: usize,
    pub extent: u32,
}

const NONE: Break = Break { at: 0, extent: 0 };

// The furthest end of what stands.
fn extent_of(st: line::State) -> u32
    ensures { result ≡ setting.furthest st }
{
    st.end.max(st.right.max(st.left))
}

// How many of a J's first characters a line may have at most that ends within the J, its block so far at `end`: each is one em wide.
fn most_within(bases: usize, end: u32, em: u32, limit: u32) -> usize
    requires { (0 < bases) × (0 < em) × (em ≤ 4096) }
    ensures { result ≡ most_of bases end em limit }
{
    if limit <= end {
        return 0;
    }
    let room = ((limit - end) / (2 * em)) as usize;
    room.min(bases - 1)
}

// The furthest break within the J from i on, after a line of the state st, or `last`: each inner break is a try, from the furthest on that the measure leaves room for.
fn within(
    t: &cells::Table,
    n: usize,
    i: usize,
    bases: usize,
    st: line::State,
    last: Break,
    limit: u32,
) -> Break
    requires { (Stands t.now n i st) × (bases ≡ (cell_at t.now i).bases) × ((cell_at t.now i).cut ≡ true) }
    ensures { result ≡ inner_break limit t.now st i last (bases - 1) }
{
    let most = most_within(bases, st.end, t.em(), limit);
    for k in (1..most + 1).rev() {
        let step = cells::advance_cut(t, i, i + k, st);
        let extent = extent_of(step.st);
        if extent <= limit {
            return Break { at: i + k, extent };
        }
    }
    last
}

// The furthest break up to the end of the piece at i, whose line has the extent `extent` there.
#[tactic(auto, unfolding(crate::specs::Search::behind))]
fn break_behind(
    t: &cells::Table,
    n: usize,
    i: usize,
    st: line::State,
    last: Break,
    extent: u32,
    limit: u32,
) -> Break
    requires { Stands t.now n i st }
    ensures { result ≡ behind limit t.now i st last extent }
{
    let a = t.row(i);
    let bases = a.bases as usize;
    if extent <= limit {
        if a.ends {
            return Break {
                at: i + bases,
                extent,
            };
        }
    }
    if a.cut {
        return within(t, n, i, bases, st, last, limit);
    }
    last
}

// The same of a piece that is not cut: its end `c`, where a line may end there, or `last`.
fn break_whole(ends: bool, c: usize, last: Break, extent: u32) -> Break
    ensures { result ≡ cond ends (record { at = c; extent = extent }) last }
{
    if ends {
        return Break { at: c, extent };
    }
    last
}

// Where the line from s ends: the furthest permitted break whose line can be set. A J gets copies of the state and of the last break: what goes to a function that
// is not put into the loop lies in memory, and so would the state of every line.
fn line_end(t: &cells::Table, n: usize, s: usize, limit: u32) -> Break
    requires { (Sound t.now n) × (s < n) }
    ensures { result ≡ end_break limit t.now n s }
{
    let mut st = line::START;
    let mut i = s;
    let mut last = NONE;
    // From piece to piece: a row says where the next one begins.
    while i < n {
        let a = t.row(i);
        let c = i + a.bases as usize;
        if a.cut {
            let here = st;
            let kept = last;
            let step = cells::advance_cut(t, i, c, here);
            let extent = extent_of(step.st);
            let found = break_behind(t, n, i, here, kept, extent, limit);
            if limit < extent {
                return found;
            }
            last = found;
            st = step.st;
        } else {
            let step = cells::advance(t, i, c, st);
            let extent = extent_of(step.st);
            if limit < extent {
                return last;
            }
            last = break_whole(a.ends, c, last, extent);
            st = step.st;
        }
        i = c;
    }
    Break {
        at: n,
        extent: extent_of(st),
    }
}

/// "Lines are filled from the first": the ends of all lines of a table of n rows, at the front of a lent list, and their extents at the front of another; how many lines there are,
/// or the refusal at the line that cannot be set, with those before it in the lists. `limit` is the measure in half units. Never put into
/// its only caller, where it would be slower.
#[inline(never)]
pub fn fill_lines(
    t: &cells::Table,
    n: usize,
    ends: &mut [u32],
    extents: &mut [u32],
    limit: u32,
) -> Result<usize, refusal::Refusal>
    requires { (Sound t.now n) × (n ≤ length ends.old) × (n ≤ length extents.old) }
    ensures { let es = lines_of limit t.now n in (result ≡ told_of n es) × (ends.new ≡ over es ends.old) × (extents.new ≡ over (extents_of t.now 0 es) extents.old) }
{
    let mut s: usize = 0;
    let mut k: usize = 0;
    // From line to line: the next begins where this one ends.
    while s < n {
        let found = line_end(t, n, s, limit);
        let e = found.at;
        if e == 0 {
            return Err(refusal::Refusal::NoBreak(s as u32));
        }
        ends[k] = e as u32;
        extents[k] = found.extent;
        k += 1;
        s = e;
    }
    Ok(k)
}
