// Writes numbers and words into a lent list of bytes, from a place on; the answer is the place past them.
ghost use Rattle.std.specs.Prelude.{◌≡◌, [], ◌∷◌, ◌+◌, ◌/◌, ◌%◌, ◌^◌, ◌≤◌, ◌<◌, length};
ghost use Rattle.text.specs.Print.{width, decimal, Wrote};

// How many digits n takes.
#[tactic(auto, using(crate::proofs::Steps::width_steps))]
fn width_of(n: u32) -> usize
    ensures value { result ≡ width n }
    ensures upper_bound { result ≤ 10 }
{
    if n == 0 {
        return 1;
    }
    n.ilog10() as usize + 1
}

/// n in decimal, its last digit first.
#[tactic(auto, using(crate::proofs::Steps::digit_steps))]
pub fn put_number(out: &mut [u8], from: usize, n: u32) -> usize
    requires { from + length (decimal n) ≤ length out.old }
    ensures { Wrote out.old from (decimal n) result out.new }
{
    let end = from + width_of(n);
    let mut rest = n;
    for at in (from..end).rev() {
        out[at] = b'0' + (rest % 10) as u8;
        rest /= 10;
    }
    end
}

/// One byte.
pub fn put_byte(out: &mut [u8], at: usize, b: u8) -> usize
    requires { at < length out.old }
    ensures { Wrote out.old at (b ∷ []) result out.new }
{
    out[at] = b;
    at + 1
}

/// The bytes of a word. One by one: the library's copy of a slice would ask `memmove` of whoever links the archive for C, which nothing else of ours does.
pub fn put_word(out: &mut [u8], from: usize, w: &[u8]) -> usize
    requires { from + length w.now ≤ length out.old }
    ensures { Wrote out.old from w.now result out.new }
{
    let end = from + w.len();
    for i in 0..w.len() {
        out[from + i] = w[i];
    }
    end
}
