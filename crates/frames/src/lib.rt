// Many sheets in one run: before each sheet a line `sheet LENGTH`, then its bytes; for each sheet a line `answer LENGTH` and the bytes of its answer. This crate reads and writes these frames
// for the programs `settings`, `accounts` and `converts`, from any reader and to any writer, and fills a room from a reader for the programs of one sheet too. It may rely on `text` for the
// line's form. Of a reader or a writer whose bytes are known, the functions say which were read and which were written; of standard input nobody can know them, and there they promise the
// room that was filled, that they end and do nothing undefined. An error is the reader's or the writer's, handed up.
#![tactic(auto)]

ghost use Rattle.std.specs.Prelude.{◌≡◌, ◌-◌, ◌<◌, min, length, take, drop, Some, IfSome, IfOk, OnOk};
ghost use Rattle.std.specs.Io.{ReadsAtMost};
ghost use Rattle.std.specs.Io.KnownBytes.{Appends, Consumes, IsAtEnd};
ghost use Rattle.frames.specs.Frames.{line_in, past_line, announced, frame_in, answer_text};
ghost use Rattle.frames.specs.Answers.{Ran};

use std::io;
use std::io::{Read, Write};

/// Reads until `room` is full or the input ends; how many bytes stand at its front. After an error the room has any bytes. Never put into a program's `main`, whose arrays would then be
/// cleared twice.
#[inline(never)]
#[tactic(auto, using(crate::proofs::Steps::fill_steps))]
pub fn fill<R: Read>(from: &mut R, room: &mut [u8]) -> io::Result<usize>
    ensures count { ReadsAtMost result room.new }
    ensures room { length room.new ≡ length room.old }
    ensures bytes { IfOk result (λ n. Consumes (R.remaining from.old) (R.remaining from.new) (take n room.new)) }
    ensures end { IfOk result (λ n. n < length room.new → IsAtEnd (R.remaining from.new)) }
{
    let mut done = 0;
    // No range: a read gives as many bytes as it likes.
    while done < room.len() {
        let n = from.read(&mut room[done..])?;
        if n == 0 {
            return Ok(done);
        }
        done += n;
    }
    Ok(done)
}

// The byte that ends a line.
const LF: u8 = b'\n';

// The next line's bytes up to LF, at most 32.
fn read_line<R: Read>(from: &mut R) -> io::Result<[u8; 32]>
    ensures long { IfOk result (λ line. 32 ≡ length line) }
    ensures bytes { IfOk result (λ line. IfSome (R.remaining from.old) (λ xs. (line ≡ line_in 32 xs) × (R.remaining from.new ≡ Some (past_line 32 xs)))) }
{
    let mut line = [0u8; 32];
    let mut one = [0u8; 1];
    for i in 0..32 {
        if fill(from, &mut one)? == 0 {
            return Ok(line);
        }
        line[i] = one[0];
        if one[0] == LF {
            return Ok(line);
        }
    }
    Ok(line)
}

// The length of a sheet, where a line announces it.
fn announced(line: &[u8]) -> Option<u32>
    ensures { result ≡ announced line.now }
{
    let at = text::read_word(line, 0, b"sheet ")?;
    let (n, _) = text::read_number(line, at, LF)?;
    Some(n)
}

/// The length that the next line announces; none where no such line follows.
pub fn next_frame<R: Read>(from: &mut R) -> io::Result<Option<u32>>
    ensures { IfOk result (λ frame. IfSome (R.remaining from.old) (λ xs. (frame ≡ frame_in xs) × (R.remaining from.new ≡ Some (past_line 32 xs)))) }
{
    Ok(announced(&read_line(from)?))
}

// What is left of a sheet that is longer than the room for it.
fn skip<R: Read>(from: &mut R, n: u32) -> io::Result<()>
    ensures { OnOk result (IfSome (R.remaining from.old) (λ xs. R.remaining from.new ≡ Some (drop (n - 65536) xs))) }
{
    let mut one = [0u8; 1];
    for _at in 65536..n {
        fill(from, &mut one)?;
    }
    Ok(())
}

/// A sheet of n bytes into the room lent, 65,536 bytes: all of it, or enough to tell that it is too long; the number of its bytes there.
pub fn read_sheet<R: Read>(from: &mut R, n: u32, room: &mut [u8; 65536]) -> io::Result<usize>
    ensures count { ReadsAtMost result room.new }
    ensures bytes { IfOk result (λ k. IfSome (R.remaining from.old) (λ xs. (take k room.new ≡ take (min n 65536) xs) × (R.remaining from.new ≡ Some (drop n xs)))) }
{
    let m = n.min(65536) as usize;
    let got = fill(from, &mut room[..m])?;
    skip(from, n)?;
    Ok(got)
}

/// The first k bytes of `out`, as an answer: no more than it has.
pub fn write_answer<W: Write>(to: &mut W, k: usize, out: &[u8]) -> io::Result<()>
    ensures { OnOk result (Appends (W.contents to.old) (W.contents to.new) (answer_text k out.now)) }
{
    let m = k.min(out.len());
    writeln!(to, "answer {m}")?;
    to.write_all(&out[..m])
}

/// The most sheets of one run, since every program ends.
pub const MOST: u32 = 1_000_000;

/// Answers one sheet after the other, until no frame follows or `MOST` sheets are answered. `room` is for a sheet; `answer` gets each, and writes what it has to say of it.
pub fn answer_all<R: Read, W: Write, F: FnMut(&[u8], &mut W) -> io::Result<()>>(
    from: &mut R,
    to: &mut W,
    room: &mut [u8; 65536],
    mut answer: F,
) -> io::Result<()>
    requires { F.IsAlwaysCallable answer }
    ensures { OnOk result (IfSome (R.remaining from.old) (λ xs. Ran F.FnMut 1000000 answer xs (R.remaining from.new) to.old to.new)) }
{
    for _turn in 0..MOST {
        let Some(n) = next_frame(from)? else {
            return Ok(());
        };
        let got = read_sheet(from, n, room)?;
        answer(&room[..got], to)?;
    }
    Ok(())
}
