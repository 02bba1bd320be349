// Why each gap of a job's lines is as wide as it is: the account of each piece of each line of an accepted job (specs/Theorems.antt), by the rows of the job's table. It walks
// a line's pieces as the filling and the writing do, and asks `account` for what holds each where it stands. It relies on `engine` for the table of a job without faults and for
// its lines' ends and extents, on `cells` for pieces and places, and on `job` for what all this means.
#![tactic(auto)]

ghost use Rattle.std.specs.Prelude.{◌≡◌, ◌+◌, ◌*◌, ◌/◌, ◌≤◌, ◌<◌, min, cond, leb, length, take};
ghost use Rattle.std.proofs.lemmas.List.Edits.{sets};
ghost use Rattle.basics.specs.Seen.{was};
ghost use Rattle.job_account.specs.Seen.{leaves};
ghost use Rattle.door.specs.Lent.{job_in};
ghost use Rattle.door.specs.Seen.{job_was};
ghost use Rattle.cells.specs.Cells.{Advances};
ghost use Rattle.account.specs.Claims.{Earlier};
ghost use Rattle.job_account.specs.Rows.{index_at, other_by, row, RowReady};
ghost use Rattle.job_account.specs.Table.{told_at, line_rows, behind, first, rows_by, counts_by};
ghost use Rattle.job_account.specs.Line.{LineReady};
ghost use Rattle.job_account.specs.Walk.{LinesReady};
ghost use Rattle.job_account.specs.Outcome.{telling};

/// The account of a piece and where its block starts, with the line's state and what stands once it is set.
#[derive(Clone, Copy)]
pub struct Told {
    pub account: account::Account,
    pub start: u64,
    pub st: line::State,
    pub before: account::Before,
}

/// The piece from row i up to c, number j of its line, set after the line so far, and why it stands there.
pub fn tell_piece(
    t: &cells::Table,
    i: usize,
    c: usize,
    st: line::State,
    j: u32,
    b: account::Before,
) -> Told
    requires { Advances t.now st i c }
    ensures { result ≡ told_at t.now i c st j b }
{
    let a = t.row(i);
    let step = cells::advance(t, i, c, st);
    let w: word::Word = step.word;
    let e = cells::element_of(w, a.before, a.after);
    let at = step.at;
    let next = step.st;
    let told = account::account_of(j, b, e, at);
    let start = account::block_start(e, at);
    let stands = account::pass(j, b, e, at);
    Told {
        account: told,
        start: start,
        st: next,
        before: stands,
    }
}

// The element's index in row `first` + j of a list of rows.
fn index_at(first: usize, j: u32, rows: &[u32]) -> u32
    requires { (first ≤ 1024) × (j ≤ 1024) × (6 * (first + j) < length rows.now) }
    ensures { result ≡ index_at rows.now first j }
{
    rows[6 * (first + j as usize)]
}

// The other element's index in the job, 0 where there is none, for piece j of a line whose rows begin at row `first` of the list: the row of each earlier piece has its own.
fn other_index(first: usize, j: u32, r: account::Reason, rows: &[u32]) -> u32
    requires { (first ≤ 1024) × (j ≤ 1024) × (6 * (first + j) ≤ length rows.now) × Earlier j r }
    ensures { result ≡ other_by (index_at rows.now first) r }
{
    match r {
        account::Reason::Start => 0,
        account::Reason::Block(k) => index_at(first, k, rows),
        account::Reason::Under(_, k, _) => index_at(first, k, rows),
        account::Reason::Over(_, k, _) => index_at(first, k, rows),
        account::Reason::Ruby(_, k) => index_at(first, k, rows),
        account::Reason::Edge(_) => 0,
        account::Reason::Free => 0,
    }
}

// The account of piece j of a line, of element k, as a row of six numbers: the element's index, its block's start, the gap, the reason's number, the other element and the depth.
// The line's rows begin at row `first` of the list. Numbers and no struct, since C lends the list (`bv_account_job`).
fn put_row(a: account::Account, first: usize, j: u32, k: u32, start: u64, out: &mut [u32])
    requires { RowReady a first j start out.old }
    ensures { let was = out.old in out.new ≡ sets was (6 * (first + j)) (row (index_at was first) k start a) }
{
    let r = a.reason;
    let other = other_index(first, j, r, out);
    let q = 6 * (first + j as usize);
    out[q] = k;
    out[q + 1] = start as u32;
    out[q + 2] = a.gap as u32;
    out[q + 3] = r.number();
    out[q + 4] = other;
    out[q + 5] = r.depth();
}

/// Where the walk stands before a line: the index of its first element, and the list's next row.
#[derive(Clone, Copy)]
pub struct Place {
    pub k: u32,
    pub q: usize,
}

// The index of the element behind a piece of element k, whose word ends at row `end`: with `more` the element goes on behind that word, and a J that the line's end e cuts
// goes on in the next line.
fn next_index(k: u32, more: bool, end: usize, e: usize) -> u32
    requires { k ≤ 1024 }
    ensures { result ≡ k + cond more 0 (cond (leb end e) 1 0) }
{
    if more {
        return k;
    }
    if end <= e { k + 1 } else { k }
}

/// The accounts of the line from s up to e, a row for each piece from row `from.q` of the list on; the answer is where the walk stands behind it.
pub fn tell_line(t: &cells::Table, s: usize, e: usize, from: Place, out: &mut [u32]) -> Place
    requires { LineReady t.now s e from out.old }
    ensures { let u = t.now in (result ≡ behind u s e from) × (out.new ≡ sets out.old (6 * from.q) (line_rows u from.k s e)) }
{
    let mut i = s;
    let mut st = line::START;
    let mut b = account::START;
    let mut j: u32 = 0;
    let mut k = from.k;
    // From piece to piece: a row says where the next one begins.
    while i < e {
        let a = t.row(i);
        let end = i + a.bases as usize;
        let told = tell_piece(t, i, e.min(end), st, j, b);
        put_row(told.account, from.q, j, k, told.start, out);
        k = next_index(k, a.more, end, e);
        st = told.st;
        b = told.before;
        j += 1;
        i = end;
    }
    Place {
        k,
        q: from.q + j as usize,
    }
}

/// The accounts of n lines that end where the front of `ends` says: in `rows` six numbers for each piece, in `told` for each line the count of pieces up to its end. Entries
/// that are not used stay as they were.
pub fn tell_lines(t: &cells::Table, n: usize, ends: &[u32], rows: &mut [u32], told: &mut [u32])
    requires { LinesReady t.now n ends.now rows.old told.old }
    ensures { let u = t.now in let es = take n ends.now in (rows.new ≡ sets rows.old 0 (rows_by u first 0 es)) × (told.new ≡ sets told.old 0 (counts_by u first 0 es)) }
{
    let mut at = Place { k: 0, q: 0 };
    let mut s: usize = 0;
    for l in 0..n {
        let e = ends[l] as usize;
        at = tell_line(t, s, e, at, rows);
        told[l] = at.q as u32;
        s = e;
    }
}

/// The extents of n lines, from the front of `found`.
pub fn put_extents(n: usize, found: &[u32], extents: &mut [u32])
    requires { (n ≤ 1024) × (n ≤ length found.now) × (n ≤ length extents.old) }
    ensures { extents.new ≡ sets extents.old 0 (take n found.now) }
{
    extents[..n].copy_from_slice(&found[..n]);
}

// For how many base characters the lists of an account have room.
fn room_of(rows: usize, told: usize, extents: usize) -> usize
    ensures { result ≡ min (rows / 6) (min told extents) }
{
    (rows / 6).min(told.min(extents))
}

/// The account of a job: the checks and refusals of the setting, and for an accepted job in `rows` and `told` what `tell_lines` has of its lines, and in `extents` how long each
/// of them is. Nothing is asked of the caller; a list that is too short is refused as a result list is (12), and no list is altered by a refusal. The answer is
/// the number of lines.
pub fn account(
    job: &door::Job,
    rows: &mut [u32],
    told: &mut [u32],
    extents: &mut [u32],
) -> job::Answer
    ensures { leaves result rows.new told.new extents.new ≡ telling (job_in job.now) rows.old told.old extents.old }
{
    let lengths = door::Lengths {
        lines: room_of(rows.len(), told.len(), extents.len()),
        ..engine::MOST
    };
    let mut list = [cells::NO_CELL; limits::MOST_BASES];
    let mut ends = [0; limits::MOST_BASES];
    let mut found = [0; limits::MOST_BASES];
    match engine::fill_job(&mut list, &mut ends, &mut found, job, lengths) {
        Err(why) => job::Answer::Refused(why),
        Ok(n) => {
            let t = cells::Table::new(job.ratios, job.em, &list);
            tell_lines(&t, n, &ends, rows, told);
            put_extents(n, &found, extents);
            job::Answer::Set(n)
        }
    }
}

/// The entry point of the account over lists: `account`, of a job whose lists are lent one by one, as `engine::set_job` is lent them.
pub fn account_job(
    em: u32,
    measure: u32,
    ratios: [[u32; 3]; 2],
    profile: u32,
    class: &[u32],
    width: &[u32],
    before: &[u32],
    after: &[u32],
    flag: &[u32],
    rclass: &[u32],
    rwidth: &[u32],
    lclass: &[u32],
    lwidth: &[u32],
    kind: &[u32],
    ebase: &[u32],
    eruby: &[u32],
    lkind: &[u32],
    eleft: &[u32],
    runs: &[u32],
    lruns: &[u32],
    rows: &mut [u32],
    told: &mut [u32],
    extents: &mut [u32],
) -> job::Answer
    ensures { let job = job_was em measure ratios profile class width before after flag rclass rwidth lclass lwidth kind ebase eruby lkind eleft runs lruns in leaves result rows.new told.new extents.new ≡ telling job rows.old told.old extents.old }
{
    let job = door::Job {
        em,
        measure,
        ratios,
        profile,
        base: door::Bases {
            class,
            width,
            before,
            after,
            flag,
        },
        ruby: door::Readings {
            class: rclass,
            width: rwidth,
        },
        left: door::Readings {
            class: lclass,
            width: lwidth,
        },
        elements: door::Elements {
            kind,
            bases: ebase,
            rubies: eruby,
            left_kind: lkind,
            lefts: eleft,
        },
        runs,
        left_runs: lruns,
    };
    account(&job, rows, told, extents)
}
