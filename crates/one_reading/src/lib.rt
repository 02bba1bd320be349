// An element without a left reading, laid: level one's answer by its form, taken apart, and its rows written or its refusal handed up; and the row of a P, which has no
// refusal. It relies on `word` for level one, on `class` for depths, and on `word_rows` and `cells` for rows.
#![tactic(auto)]

ghost use Rattle.std.specs.Prelude.{◌≡◌, true, ◌<◌, eqb, length, get_or, set};
ghost use Rattle.class.specs.Class.{depths_by};
ghost use Rattle.spread.specs.Ratio.{ratios_of};
ghost use Rattle.word.specs.declared.Form.TheVariants as Form;
ghost use Rattle.word.specs.Given.{is_j};
ghost use Rattle.word.specs.Answer.{answer};
ghost use Rattle.word.specs.Summed.{given_base, group_by, single_by, jukugo_judged, answered_by};
ghost use Rattle.door.specs.Job.{given};
ghost use Rattle.cells.specs.Cells.{beside};
ghost use Rattle.join.specs.Rows.{none};
ghost use Rattle.word_rows.specs.Table.{bare_row};
ghost use Rattle.word_rows.specs.Base.{BaseReady, bases_now, bases_was};
ghost use Rattle.word_rows.specs.Runs.{runs_only, HasRuns, jukugo_row};
ghost use Rattle.word_rows.specs.Word.{word_row, WordReady, flagged};
ghost use Rattle.word_rows.specs.Seen.{runs_now};
ghost use Rattle.one_reading.specs.Single.{single_row};
ghost use Rattle.one_reading.specs.Lay.{RubyReady, ruby_of, BasedReady, RunsReady, is_based, based_by, based_row, PlainReady, plain_row, FilledBy};
ghost use Rattle.one_reading.specs.Seen.{mono_now, mono_was};

use cells::Cell;
use refusal::Refusal;

// The row of a J of one character, which no line cuts.
fn put_single(
    rows: &mut [Cell],
    p: door::Piece,
    left: u32,
    w: word::Word,
    ends: bool,
    rclass: &[u32],
    rwidth: &[u32],
    runs: &[u32],
)
    requires { (p.bases ≡ 1) × HasRuns (runs_now 0 rclass rwidth runs) p rows.old }
    ensures { rows.new ≡ set rows.old p.base (beside (single_row p w ends rclass.now rwidth.now runs.now) (bare_row left)) }
{
    let u = p.run;
    let run = runs[u];
    let r = p.ruby;
    let own = word_rows::run_width(r, r + run as usize, rwidth);
    let western = class::is_western(rclass[r]);
    let row = Cell {
        bases: 1,
        ends,
        word: w,
        ruby: r as u32,
        rubies: run,
        own,
        western,
        ..cells::NO_CELL
    };
    rows[p.base] = cells::with_left(row, word_rows::bare(left));
}

// How deep ruby may lie on base character b, a P. Of most nothing is read but the class.
#[tactic(auto, using(class::specs::Laws::no_depths))]
fn depths_at(
    b: usize,
    em: u32,
    profile: u32,
    class: &[u32],
    width: &[u32],
    before: &[u32],
    after: &[u32],
) -> class::Depths
    requires { (b < 4096) × (b < length class.now) × (b < length width.now) × (b < length before.now) × (b < length after.now) }
    ensures { result ≡ depths_by profile (eqb b 0) (get_or class.now b 0) (get_or width.now b 0) (get_or before.now b 0) (get_or after.now b 0) em }
{
    if class::takes_ruby(profile, class[b]) {
        return class::depths_by(profile, b == 0, class[b], width[b], before[b], after[b], em);
    }
    class::Depths {
        before: 0,
        after: 0,
    }
}

/// The row of a P, base character b, before which r ruby characters and `left` left ones were taken.
pub fn put_plain(
    rows: &mut [Cell],
    b: usize,
    r: usize,
    left: u32,
    em: u32,
    profile: u32,
    base: &door::Bases,
)
    requires { let c = base.now in PlainReady b r c.class.now c.width.now c.before.now c.after.now c.flag.now rows.old }
    ensures { let c = base.now in rows.new ≡ set rows.old b (plain_row profile b r left em c.class.now c.width.now c.before.now c.after.now c.flag.now) }
{
    let answer = word::plain_answer(base.width[b]);
    let word::Answer::Set(w) = answer else {
        return; // unreachable: level one has no row for a P
    };
    let d = depths_at(
        b,
        em,
        profile,
        base.class,
        base.width,
        base.before,
        base.after,
    );
    rows[b] = Cell {
        bases: 1,
        ends: base.flag[b] == 1,
        word: w,
        before: d.before,
        after: d.after,
        ruby: r as u32,
        left,
        ..cells::NO_CELL
    };
}

/// An M: its row, or its refusal. `place` is the element's index. Neither ratio nor em is asked, since an M is always solid.
pub fn lay_mono(
    rows: &mut [Cell],
    place: u32,
    p: door::Piece,
    left: u32,
    width: &[u32],
    before: &[u32],
    after: &[u32],
    flag: &[u32],
    rwidth: &[u32],
) -> Result<door::Piece, Refusal>
    requires { let job = mono_now width before after flag rwidth in (p.bases ≡ 1) × WordReady job p rows.old }
    ensures { let job = mono_was width before after flag rwidth in FilledBy (answer Form.M place (given job p)) (λ w. word_row p w (flagged job p) 0 0) left p rows.old rows.new result }
{
    let b = p.base;
    let e = b + 1;
    let r = p.ruby;
    let s = r + p.rubies;
    let blank = word::blank_inside(&before[b..e], &after[b..e]);
    let ruby = basics::sum_of(&rwidth[r..s]);
    let answer = word::mono_answer(place, blank, width[b], ruby);
    let word::Answer::Set(w) = answer else {
        return word_rows::refused(place, answer);
    };
    let ends = word_rows::ends_behind(p, flag);
    word_rows::put_word(rows, p, w, ends, word_rows::bare(left));
    Ok(p)
}

/// The base of an element, as level one asks for it.
pub fn base_at(
    p: door::Piece,
    em: u32,
    class: &[u32],
    width: &[u32],
    before: &[u32],
    after: &[u32],
) -> word::Base
    requires { let job = bases_now em class width before after in BaseReady job p }
    ensures { let job = bases_was em class width before after in result ≡ given_base p.form (given job p) }
{
    let b = p.base;
    let e = b + p.bases;
    let form = p.form;
    word::base_of(
        form,
        em,
        &class[b..e],
        &width[b..e],
        &before[b..e],
        &after[b..e],
    )
}

// Its ruby.
fn ruby_at(p: door::Piece, rclass: &[u32], rwidth: &[u32]) -> word::Strand
    requires { RubyReady p rclass.now rwidth.now }
    ensures { result ≡ ruby_of p rclass.now rwidth.now }
{
    let r = p.ruby;
    let s = r + p.rubies;
    word::strand_of(&rclass[r..s], &rwidth[r..s])
}

// A G: its rows, or its refusal. A line may end behind it where `ends`. What `BasedReady` asks is of base, lists and rows together, so that no one of them could have it as its type's.
fn lay_group(
    rows: &mut [Cell],
    place: u32,
    p: door::Piece,
    left: u32,
    ratios: [[u32; 3]; 2],
    em: u32,
    base: word::Base,
    ends: bool,
    readings: &door::Readings,
) -> Result<door::Piece, Refusal>
    requires { let r = readings.now in BasedReady (ratios_of ratios) em base p r.class.now r.width.now rows.old }
    ensures { let r = readings.now in let ruby = ruby_of p r.class.now r.width.now in FilledBy (group_by place (ratios_of ratios) em base ruby) (λ w. word_row p w ends 0 0) left p rows.old rows.new result }
{
    let ruby = ruby_at(p, readings.class, readings.width);
    let answer = word::group_answer(place, ratios, em, base, ruby);
    let word::Answer::Set(w) = answer else {
        return word_rows::refused(place, answer);
    };
    word_rows::put_word(rows, p, w, ends, word_rows::bare(left));
    Ok(p)
}

// A J of one character: its row, or its refusal.
fn lay_single(
    rows: &mut [Cell],
    place: u32,
    p: door::Piece,
    left: u32,
    ratios: [[u32; 3]; 2],
    em: u32,
    base: word::Base,
    ends: bool,
    readings: &door::Readings,
    runs: &[u32],
) -> Result<door::Piece, Refusal>
    requires { let r = readings.now in (p.bases ≡ 1) × BasedReady (ratios_of ratios) em base p r.class.now r.width.now rows.old × RunsReady em base p r.class.now r.width.now runs.now rows.old }
    ensures { let r = readings.now in let ruby = ruby_of p r.class.now r.width.now in let job = runs_only em r.class.now r.width.now runs.now in FilledBy (single_by place (ratios_of ratios) em base ruby) (λ w. jukugo_row job p w ends) left p rows.old rows.new result }
{
    let ruby = ruby_at(p, readings.class, readings.width);
    let answer = word::single_answer(place, ratios, em, base, ruby);
    let word::Answer::Set(w) = answer else {
        return word_rows::refused(place, answer);
    };
    put_single(rows, p, left, w, ends, readings.class, readings.width, runs);
    Ok(p)
}

// A J of two characters or more: its rows, or its refusal. Level one is asked for its judgement alone, since such a J is measured by its runs, as they are written, and no row holds its word.
fn lay_cut(
    rows: &mut [Cell],
    place: u32,
    p: door::Piece,
    left: u32,
    ratios: [[u32; 3]; 2],
    em: u32,
    base: word::Base,
    ends: bool,
    readings: &door::Readings,
    runs: &[u32],
) -> Result<door::Piece, Refusal>
    requires { let r = readings.now in (1 < p.bases) × BasedReady (ratios_of ratios) em base p r.class.now r.width.now rows.old × RunsReady em base p r.class.now r.width.now runs.now rows.old }
    ensures { let r = readings.now in let ruby = ruby_of p r.class.now r.width.now in let job = runs_only em r.class.now r.width.now runs.now in FilledBy (answered_by (jukugo_judged place base ruby.sort) none) (λ w. jukugo_row job p w ends) left p rows.old rows.new result }
{
    let ruby = ruby_at(p, readings.class, readings.width);
    let sort = ruby.sort;
    let row = word::judge_jukugo(place, base, sort);
    let Ok(()) = row else {
        return word_rows::held(place, row);
    };
    word_rows::put_runs(
        rows,
        p,
        word_rows::NONE,
        ends,
        word_rows::bare(left),
        em,
        readings.class,
        readings.width,
        runs,
    );
    Ok(p)
}

/// A G or a J without a left reading, whose counts and characters are there: numbers 7 to 10 as level one gives them, or its rows.
pub fn lay_based(
    rows: &mut [Cell],
    place: u32,
    p: door::Piece,
    left: u32,
    ratios: [[u32; 3]; 2],
    em: u32,
    base: word::Base,
    ends: bool,
    readings: &door::Readings,
    runs: &[u32],
) -> Result<door::Piece, Refusal>
    requires { let r = readings.now in (is_based p.form ≡ true) × BasedReady (ratios_of ratios) em base p r.class.now r.width.now rows.old × (is_j p.form ≡ true → RunsReady em base p r.class.now r.width.now runs.now rows.old) }
    ensures { let r = readings.now in let ruby = ruby_of p r.class.now r.width.now in let job = runs_only em r.class.now r.width.now runs.now in FilledBy (based_by p.form p.bases place (ratios_of ratios) em base ruby) (λ w. based_row job p w ends) left p rows.old rows.new result }
{
    let form = p.form;
    match form {
        word::Form::P => Err(Refusal::Element(place)), // unreachable: a P is laid by `put_plain`
        word::Form::M => Err(Refusal::Element(place)), // unreachable: an M by `lay_mono`
        word::Form::G => lay_group(rows, place, p, left, ratios, em, base, ends, readings),
        word::Form::J => {
            if p.bases == 1 {
                lay_single(rows, place, p, left, ratios, em, base, ends, readings, runs)
            } else {
                lay_cut(rows, place, p, left, ratios, em, base, ends, readings, runs)
            }
        }
    }
}
