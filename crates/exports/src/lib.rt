// The library for callers in C and C++ (include/bolyverit.h): the setting and the account, each over lists and of a sheet, as functions over pointers and lengths. Nothing is decided here: an
// answer becomes a struct of two numbers, and the tables of a sheet are lent to `setter` and `account_sheet`. It relies on these two, on `engine`, `job_account` and `refusal`.
#![tactic(auto)]

ghost use Rattle.std.specs.Prelude.{◌≡◌, [], ◌∷◌};
ghost use Rattle.door.specs.Seen.{job_was};
ghost use Rattle.text.specs.Print.{Wrote};
ghost use Rattle.setter.specs.Answer.{answer_text, Fits};
ghost use Rattle.account_sheet.specs.Answer.{account_of_sheet};
ghost use Rattle.exports.specs.Told.{told, Few, Left, Accounted};

/// Number 0 and the number of lines, or a refusal's number and its place.
#[repr(C)]
#[derive(Clone, Copy)]
pub struct Answer {
    pub number: u32,
    pub place: u32,
}

// An answer as a caller in C gets it.
fn answer_of(a: job::Answer) -> Answer
    requires { Few a }
    ensures { result ≡ told a }
{
    match a {
        job::Answer::Set(n) => Answer {
            number: 0,
            place: n as u32,
        },
        job::Answer::Refused(why) => Answer {
            number: why.number(),
            place: why.place(),
        },
    }
}

/// Sets a job in lists. `rratio` and `bratio` are the ratios of spread ruby and of spread base, three numbers each, a, m, c.
#[unsafe(no_mangle)]
pub extern "C" fn bv_set_job(
    em: u32,
    measure: u32,
    rratio: &[u32; 3],
    bratio: &[u32; 3],
    profile: u32,
    class: &[u32],
    width: &[u32],
    before: &[u32],
    after: &[u32],
    flag: &[u32],
    rclass: &[u32],
    rwidth: &[u32],
    lclass: &[u32],
    lwidth: &[u32],
    kind: &[u32],
    ebase: &[u32],
    eruby: &[u32],
    lkind: &[u32],
    eleft: &[u32],
    runs: &[u32],
    lruns: &[u32],
    base: &mut [u32],
    ruby: &mut [u32],
    left: &mut [u32],
    lines: &mut [u32],
) -> Answer
    ensures { Left (job_was em measure (rratio.now ∷ bratio.now ∷ []) profile class width before after flag rclass rwidth lclass lwidth kind ebase eruby lkind eleft runs lruns) base.old ruby.old left.old lines.old result base.new ruby.new left.new lines.new }
{
    let answer = engine::set_job(
        em,
        measure,
        [*rratio, *bratio],
        profile,
        class,
        width,
        before,
        after,
        flag,
        rclass,
        rwidth,
        lclass,
        lwidth,
        kind,
        ebase,
        eruby,
        lkind,
        eleft,
        runs,
        lruns,
        base,
        ruby,
        left,
        lines,
    );
    answer_of(answer)
}

/// Sets a sheet; how many bytes at the front of `out` its answer has.
#[unsafe(no_mangle)]
pub extern "C" fn bv_set_sheet(sheet: &[u8], out: &mut [u8; limits::ANSWER]) -> usize
    ensures wrote { Wrote out.old 0 (answer_text sheet.now) result out.new }
    ensures fits { Fits result out.new }
{
    let mut set = [0; limits::SET];
    let mut base = [0; limits::BASE_TABLE];
    let mut ruby = [0; limits::RUBY_TABLE];
    let mut left = [0; limits::LEFT_TABLE];
    let mut elem = [0; limits::ELEMENT_TABLE];
    let mut runs = [0; limits::RUNS];
    let mut lruns = [0; limits::RUNS];
    let mut bases = [0; limits::MOST_BASES];
    let mut rubies = [0; limits::MOST_RUBIES];
    let mut lefts = [0; limits::MOST_LEFTS];
    let mut lines = [0; limits::MOST_BASES];
    setter::set_sheet(
        sheet,
        &mut set,
        &mut base,
        &mut ruby,
        &mut left,
        &mut elem,
        &mut runs,
        &mut lruns,
        &mut bases,
        &mut rubies,
        &mut lefts,
        &mut lines,
        out,
    )
}

/// The account of a job in lists: a row of six numbers for each piece, and for each line the count of pieces up to its end and the extent.
#[unsafe(no_mangle)]
pub extern "C" fn bv_account_job(
    em: u32,
    measure: u32,
    rratio: &[u32; 3],
    bratio: &[u32; 3],
    profile: u32,
    class: &[u32],
    width: &[u32],
    before: &[u32],
    after: &[u32],
    flag: &[u32],
    rclass: &[u32],
    rwidth: &[u32],
    lclass: &[u32],
    lwidth: &[u32],
    kind: &[u32],
    ebase: &[u32],
    eruby: &[u32],
    lkind: &[u32],
    eleft: &[u32],
    runs: &[u32],
    lruns: &[u32],
    rows: &mut [u32],
    told: &mut [u32],
    extents: &mut [u32],
) -> Answer
    ensures { Accounted (job_was em measure (rratio.now ∷ bratio.now ∷ []) profile class width before after flag rclass rwidth lclass lwidth kind ebase eruby lkind eleft runs lruns) rows.old told.old extents.old result rows.new told.new extents.new }
{
    let answer = job_account::account_job(
        em,
        measure,
        [*rratio, *bratio],
        profile,
        class,
        width,
        before,
        after,
        flag,
        rclass,
        rwidth,
        lclass,
        lwidth,
        kind,
        ebase,
        eruby,
        lkind,
        eleft,
        runs,
        lruns,
        rows,
        told,
        extents,
    );
    answer_of(answer)
}

/// The account of a sheet; how many bytes at the front of `out` its text has.
#[unsafe(no_mangle)]
pub extern "C" fn bv_account_sheet(sheet: &[u8], out: &mut [u8; limits::ANSWER]) -> usize
    ensures wrote { Wrote out.old 0 (account_of_sheet sheet.now) result out.new }
    ensures fits { Fits result out.new }
{
    let mut set = [0; limits::SET];
    let mut base = [0; limits::BASE_TABLE];
    let mut ruby = [0; limits::RUBY_TABLE];
    let mut left = [0; limits::LEFT_TABLE];
    let mut elem = [0; limits::ELEMENT_TABLE];
    let mut runs = [0; limits::RUNS];
    let mut lruns = [0; limits::RUNS];
    let mut rows = [0; limits::ACCOUNT];
    let mut told = [0; limits::MOST_BASES];
    let mut extents = [0; limits::MOST_BASES];
    account_sheet::account_sheet(
        sheet,
        &mut set,
        &mut base,
        &mut ruby,
        &mut left,
        &mut elem,
        &mut runs,
        &mut lruns,
        &mut rows,
        &mut told,
        &mut extents,
        out,
    )
}
