// Text and numbers: a sheet's bytes to numbers and fixed words, and numbers back to bytes (document 01, "The job sheet"). What stands here knows nothing
// of sections: where a number or a word ends, and which byte ends it, is the caller's to say. The reader holds the sheet's bytes and its own place in them. It
// relies on `basics` alone, for a law.
#![tactic(auto)]

pub mod print;

ghost use Rattle.std.specs.Prelude.{◌≡◌, ◌≤◌, length, drop};
ghost use Rattle.text.specs.Determined.{Opened};
ghost use Rattle.text.specs.Text.{number, more, alone, word};

// More digits of a number, after some that say `first`, up to the byte `stop`.
#[tactic(auto, using(crate::proofs::Steps::more_steps))]
fn more(s: &[u8], from: usize, first: u32, stop: u8) -> Option<(u32, usize)>
    requires { from ≤ length s.now }
    ensures { result ≡ more (drop from s.now) stop first from }
{
    let mut v = first;
    for at in from..s.len() {
        let b = s[at];
        if b == stop {
            return Some((v, at + 1));
        }
        if !b.is_ascii_digit() {
            return None;
        }
        v = v.checked_mul(10)?.checked_add((b - b'0') as u32)?;
    }
    None
}

// The byte `stop` after a 0: no digit may follow it.
#[tactic(auto, unfolding(crate::specs::Text::alone))]
fn alone(s: &[u8], at: usize, stop: u8) -> Option<(u32, usize)>
    ensures { result ≡ alone (drop at s.now) stop at }
{
    if *s.get(at)? == stop {
        Some((0, at + 1))
    } else {
        None
    }
}

// The number at a place, ended by the byte `stop`.
#[tactic(auto, unfolding(crate::specs::Text::number))]
fn number_at(s: &[u8], at: usize, stop: u8) -> Option<(u32, usize)>
    ensures { result ≡ number (drop at s.now) stop at }
{
    let b = *s.get(at)?;
    if b == b'0' {
        return alone(s, at + 1, stop);
    }
    if !b.is_ascii_digit() {
        return None;
    }
    more(s, at + 1, (b - b'0') as u32, stop)
}

// The place past a word whose bytes stand at a place.
#[tactic(auto, unfolding(crate::specs::Text::word))]
fn word_at(s: &[u8], at: usize, w: &[u8]) -> Option<usize>
    ensures { result ≡ word w.now (drop at s.now) at }
{
    if s[at.min(s.len())..].starts_with(w) {
        Some(at + w.len())
    } else {
        None
    }
}

/// "The reader of a sheet holds the sheet's bytes and its own place in them."
#[derive(Clone, Copy)]
pub struct Reader<'a> {
    pub sheet: &'a [u8],
    pub at: usize,
}

impl<'a> Reader<'a> {
    /// A reader of a sheet at a place.
    pub fn open(sheet: &'a [u8], at: usize) -> Reader<'a>
        ensures { Opened sheet.entry at result }
    {
        Reader { sheet, at }
    }

    /// The number there, ended by the byte `stop`, and the place past that.
    pub fn number(self, stop: u8) -> Option<(u32, usize)>
        ensures { result ≡ number (drop self.entry.at self.entry.sheet.now) stop self.entry.at }
    {
        number_at(self.sheet, self.at, stop)
    }

    /// The place past a word that stands there.
    pub fn word(self, w: &[u8]) -> Option<usize>
        ensures { result ≡ word w.now (drop self.entry.at self.entry.sheet.now) self.entry.at }
    {
        word_at(self.sheet, self.at, w)
    }
}

/// A number of a sheet, by way of a reader.
pub fn read_number(s: &[u8], at: usize, stop: u8) -> Option<(u32, usize)>
    ensures { result ≡ number (drop at s.now) stop at }
{
    Reader::open(s, at).number(stop)
}

/// The bytes of a word at a place of a sheet, by way of a reader.
pub fn read_word(s: &[u8], from: usize, w: &[u8]) -> Option<usize>
    ensures { result ≡ word w.now (drop from s.now) from }
{
    Reader::open(s, from).word(w)
}
