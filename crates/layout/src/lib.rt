// The rows of a job's lists, one for each base character (`row_of` of `join`). It goes over the elements once, in the order of the refusal list from number 5 on: an
// element is counted, its left reading has to be one that it takes, its characters have to be there, level one's answer is taken apart, and its rows are written. An
// element without a left reading is laid by `one_reading`, one with a left reading by `two_readings`. Behind it nobody sees the lists. It relies on `door` for the
// counts, on these two for an element's rows or its refusal, and on `cells` for rows.
#![tactic(auto)]

ghost use Rattle.std.specs.Prelude.{◌≡◌, ◌&&◌, ◌≤◌, ltb, eqb, length, get_or, OnOk};
ghost use Rattle.door.specs.Lent.{job_in};
ghost use Rattle.door.specs.Values.{sizes_of};
ghost use Rattle.door.specs.Loop.{part_faults};
ghost use Rattle.door.specs.Verdict.{verdict};
ghost use Rattle.join.specs.Rows.{table_of, Holds};
ghost use Rattle.layout.specs.Step.{Standing, Stepped};
ghost use Rattle.layout.specs.Walk.{Ready};

use cells::Cell;
use refusal::Refusal;

// There is an element k of these, and it is a P without a left reading.
fn is_plain(k: usize, n: usize, elements: &door::Elements) -> bool
    requires { let e = elements.now in (k ≤ 4096) × (n ≤ length e.kind.now) × (n ≤ length e.left_kind.now) }
    ensures { let e = elements.now in result ≡ (ltb k n && (eqb (get_or e.kind.now k 0) 80 && eqb (get_or e.left_kind.now k 0) 78)) }
{
    if k < n {
        if elements.kind[k] == limits::PLAIN {
            return elements.left_kind[k] == limits::LEFT_NONE;
        }
    }
    false
}

// Element k, a word with ruby and without a left kind, behind what those before it have taken of all that there is: numbers 5, 6, and 7 to 10 as level one gives them, or its rows.
fn lay_word(
    rows: &mut [Cell],
    k: usize,
    at: door::Taken,
    sizes: door::Sizes,
    job: &door::Job,
) -> Result<door::Piece, Refusal>
    requires { let job = job_in job.now in (sizes ≡ sizes_of job) × Standing job k at rows.old × (get_or job.left_kind k 0 ≡ 78) }
    ensures { Stepped (job_in job.now) k at rows.old rows.new result }
{
    let place = k as u32;
    let left = at.left as u32;
    if job.elements.kind[k] == limits::MONO {
        // An M is counted by itself: most words are, and no other form asks for so little.
        let mono = door::count_mono(job.elements.rubies[k], at);
        let Some(p) = mono else {
            return Err(Refusal::Element(place));
        };
        if door::runs_out(p, sizes) {
            return Err(Refusal::Supply(place));
        }
        return one_reading::lay_mono(
            rows,
            place,
            p,
            left,
            job.base.width,
            job.base.before,
            job.base.after,
            job.base.flag,
            job.ruby.width,
        );
    }
    let e = job.elements;
    let counted = door::count_right(e.kind[k], e.bases[k], e.rubies[k], at, job.runs);
    let Some(p) = counted else {
        return Err(Refusal::Element(place));
    };
    if door::runs_out(p, sizes) {
        return Err(Refusal::Supply(place));
    }
    let base = one_reading::base_at(
        p,
        job.em,
        job.base.class,
        job.base.width,
        job.base.before,
        job.base.after,
    );
    let ends = word_rows::ends_behind(p, job.base.flag);
    one_reading::lay_based(
        rows, place, p, left, job.ratios, job.em, base, ends, &job.ruby, job.runs,
    )
}

// The same for an element with a left kind: numbers 5, 16, 6, and 7 to 10, or its rows. Words without one do not go this way, so that a job without left readings pays nothing for them.
fn lay_both(
    rows: &mut [Cell],
    k: usize,
    at: door::Taken,
    sizes: door::Sizes,
    job: &door::Job,
) -> Result<door::Piece, Refusal>
    requires { let job = job_in job.now in (sizes ≡ sizes_of job) × Standing job k at rows.old × (get_or job.left_kind k 0 ≡ 78 → ⊥) }
    ensures { Stepped (job_in job.now) k at rows.old rows.new result }
{
    let place = k as u32;
    let e = job.elements;
    let counted = door::count_element(
        e.kind[k],
        e.bases[k],
        e.rubies[k],
        e.left_kind[k],
        e.lefts[k],
        at,
        job.runs,
        job.left_runs,
    );
    let Some(p) = counted else {
        return Err(Refusal::Element(place));
    };
    if !door::takes_left(p) {
        return Err(Refusal::LeftKind(place));
    }
    if door::runs_out(p, sizes) {
        return Err(Refusal::Supply(place));
    }
    let base = two_readings::base_beside(
        p,
        job.em,
        job.base.class,
        job.base.width,
        job.base.before,
        job.base.after,
    );
    let right = two_readings::right_at(p, job.em, job.ruby.class, job.ruby.width, job.runs);
    let left = two_readings::left_at(p, job.em, job.left.class, job.left.width, job.left_runs);
    let form = p.form;
    let gloss = p.gloss;
    let answer = word::both_answer(form, gloss, place, job.ratios, job.em, base, right, left);
    let word::Answer::Set(w) = answer else {
        return word_rows::refused(place, answer);
    };
    let ends = word_rows::ends_behind(p, job.base.flag);
    if two_readings::is_apart(p) {
        two_readings::put_characters(
            rows,
            p,
            ends,
            job.ratios,
            job.em,
            job.base.width,
            job.ruby.width,
            job.runs,
            job.left.width,
            job.left_runs,
        );
        return Ok(p);
    }
    two_readings::put_whole(
        rows,
        p,
        w,
        ends,
        job.em,
        job.ruby.class,
        job.ruby.width,
        job.runs,
        job.left.width,
        job.left_runs,
    );
    Ok(p)
}

/// The rows of a job's elements, or the first of their refusals; characters have passed numbers 3 and 4. Never put into its only caller, where it would be slower.
#[inline(never)]
pub fn layout(rows: &mut [Cell], job: &door::Job) -> Result<(), Refusal>
    requires { Ready (job_in job.now) rows.old }
    ensures { let job = job_in job.now in (result ≡ verdict (part_faults job)) × OnOk result (Holds job (table_of job rows.new)) }
{
    // Copied, so that the loop's lists are at hand: behind the reference each would be read anew after each row (4 to 10 instructions a character).
    let own = *job;
    let job = &own;
    let sizes = job.sizes();
    let mut k: usize = 0;
    let mut at = door::Taken {
        base: 0,
        ruby: 0,
        run: 0,
        left: 0,
        leftrun: 0,
    };
    // No range: the loop within takes several elements.
    while k < sizes.elements {
        if is_plain(k, sizes.elements, &job.elements) {
            // A loop of their own for the P of a text: most have a P next to them, and its lists are then at hand.
            'text: while is_plain(k, sizes.elements, &job.elements) {
                if sizes.bases <= at.base {
                    return Err(Refusal::Supply(k as u32));
                }
                let left = at.left as u32;
                one_reading::put_plain(
                    rows,
                    at.base,
                    at.ruby,
                    left,
                    job.em,
                    job.profile,
                    &job.base,
                );
                at.base += 1;
                k += 1;
            }
            continue;
        }
        if job.elements.left_kind[k] == limits::LEFT_NONE {
            let p = lay_word(rows, k, at, sizes, job)?;
            at = door::past(at, p);
            k += 1;
            continue;
        }
        let p = lay_both(rows, k, at, sizes, job)?;
        at = door::past(at, p);
        k += 1;
    }
    if door::left_over(at, sizes) {
        return Err(Refusal::Supply(sizes.elements as u32));
    }
    Ok(())
}
