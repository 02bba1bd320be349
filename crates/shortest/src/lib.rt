// How far a declined line falls short (document 01, refusal 11: "after the lines so far, no permitted break gives a line that can be set"): the extent that
// the shortest permitted line from a base character has, so that an editor is told what measure would do. One pass over the pieces of the line by the rows of
// the job's table, with the line's state by value, as the filling makes it, but with no measure to stop at: every permitted break ahead is a try, and the least
// extent of all remains. It relies on `cells` for rows, parts and states, on `line` and `basics`; its laws on `join` and `job` for what all this means.
#![tactic(auto)]

ghost use Rattle.std.specs.Prelude.{◌≡◌, true, ◌-◌, ◌<◌, min};
ghost use Rattle.line.specs.Setting as setting;
ghost use Rattle.cells.specs.Cells.{cell_at};
ghost use Rattle.cells.specs.Sound.{Sound};
ghost use Rattle.shortest.specs.Shortest.{needed_of};
ghost use Rattle.shortest.specs.Pass.{inner_least, behind, Stands};

// Past every extent: what is held before the first break.
const LARGEST: u32 = 4294967295;

// The lesser of the least extent so far and that of a line with this state: "the furthest end of any block or ruby in it".
fn lesser(st: line::State, least: u32) -> u32
    ensures { result ≡ min (setting.furthest st) least }
{
    st.end.max(st.right.max(st.left)).min(least)
}

// The least extent once each inner break of the J from i on is tried, after a line of the state st: a line may end "between any two base characters of a J".
fn within(t: &cells::Table, n: usize, i: usize, bases: usize, st: line::State, least: u32) -> u32
    requires { (Stands t.now n i st) × (bases ≡ (cell_at t.now i).bases) × ((cell_at t.now i).cut ≡ true) }
    ensures { result ≡ inner_least t.now st i least (bases - 1) }
{
    let mut found = least;
    for k in 1..bases {
        let step = cells::advance_cut(t, i, i + k, st);
        found = lesser(step.st, found);
    }
    found
}

// The least extent once the breaks of the piece at i are tried: those within it, and the one behind it, where the line has the state `next`. A line may end "after
// the last base character of an element whose flag is 1 .. and at the job's end".
fn least_behind(
    t: &cells::Table,
    n: usize,
    i: usize,
    st: line::State,
    next: line::State,
    least: u32,
) -> u32
    requires { Stands t.now n i st }
    ensures { result ≡ behind t.now n i st next least }
{
    let a = t.row(i);
    let bases = a.bases as usize;
    let mut found = least;
    if a.cut {
        found = within(t, n, i, bases, st, least);
    }
    if i + bases == n {
        return lesser(next, found);
    }
    if a.ends {
        return lesser(next, found);
    }
    found
}

/// The extent that the shortest permitted line from base character s has, of a table of n rows.
pub fn needed_extent(t: &cells::Table, n: usize, s: usize) -> u32
    requires { (Sound t.now n) × (s < n) }
    ensures { result ≡ needed_of t.now n s }
{
    let mut st = line::START;
    let mut i = s;
    let mut least = LARGEST;
    // From piece to piece: a row says where the next one begins.
    while i < n {
        let a = t.row(i);
        let c = i + a.bases as usize;
        let step = cells::advance(t, i, c, st);
        least = least_behind(t, n, i, st, step.st, least);
        st = step.st;
        i = c;
    }
    least
}
