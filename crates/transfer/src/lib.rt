// Reads and writes, made again where a signal interrupted them or where they would block; and a file read as a whole.
#![tactic(auto)]

pub mod file;
pub mod outcome;
mod pause;
#[cfg(test)]
mod tests;
pub mod why;

ghost use Rattle.std.specs.Prelude.{◌≡◌, ◌<◌, length, take, IfOk, IfErr, MatchResult};
ghost use Rattle.std.specs.Io.{ReadsAtMost, WritesAtMost};
ghost use Rattle.std.specs.Io.KnownBytes.{Appends, Consumes, IsAtEnd, ReadConsumes, WriteAppends};

use outcome::{or_would_block, settled};
use std::io;
use std::io::{Read, Write};
use std::rt::Clock;

// How many bytes a program's buffer has: more than any library, image, board or line.
pub const BUFFER: usize = 65536;

// A proved loop has to end, so each has a number of tries that no run uses up. A read, a write and a sync have a loop each: of what a
// closure borrows a proof knows nothing after its call (tried, docs/DECISIONS.md).

// ---- Reads

// One read of whatever is there: 0 bytes are the input's end.
pub fn read_some<C: Clock, R: Read>(clock: &C, reader: &mut R, buf: &mut [u8]) -> io::Result<usize>
    ensures count { ReadsAtMost result buf.new }
    ensures bytes { ReadConsumes (R.remaining reader.old) (R.remaining reader.new) result buf.new }
{
    for _ in 0..u64::MAX {
        match reader.read(buf) {
            Ok(n) => return Ok(n),
            Err(error) => settled(clock, error)?,
        }
    }
    reader.read(buf)
}

// Reads until the buffer is full or the input ends.
#[tactic(auto, using(crate::proofs::PartLaws::consumes_next))]
pub fn read_full<C: Clock, R: Read>(clock: &C, reader: &mut R, buf: &mut [u8]) -> io::Result<usize>
    ensures count { ReadsAtMost result buf.new }
    ensures bytes { IfOk result (λ n. Consumes (R.remaining reader.old) (R.remaining reader.new) (take n buf.new)) }
    ensures end { IfOk result (λ n. n < length buf.new → IsAtEnd (R.remaining reader.new)) }
{
    let mut done: usize = 0;
    // Each turn goes on by as many bytes as a read gave, which no range or iterator does.
    while done < buf.len() {
        match read_some(clock, reader, &mut buf[done..])? {
            0 => return Ok(done),
            n => done += n,
        }
    }
    Ok(done)
}

// ---- Writes

// Each takes a writer and the bytes, as std's own `write` and `write_all` do: a struct of both would be made anew for each call.

// A write that failed for good: how many bytes were written before it, and why it failed.
#[derive(Clone, Copy, Debug)]
pub struct Stopped {
    pub written: usize,
    pub error: io::Error,
}

impl From<Stopped> for io::Error {
    ghost from_gives = { λ stopped error. error ≡ stopped.error };

    fn from(stopped: Stopped) -> io::Error {
        stopped.error
    }
}

// One write of a byte at least. One that takes nothing counts as one that would block.
#[tactic(auto, using(crate::proofs::PartLaws::write_counts))]
fn write_some<C: Clock, W: Write>(clock: &C, writer: &mut W, bytes: &[u8]) -> io::Result<usize>
    ensures count { WritesAtMost result bytes.now }
    ensures bytes { WriteAppends (W.contents writer.old) (W.contents writer.new) result bytes.now }
    ensures moved { IfOk result (λ n. 0 < n) }
{
    for _ in 0..u64::MAX {
        match or_would_block(writer.write(bytes)) {
            Ok(n) => return Ok(n),
            Err(error) => settled(clock, error)?,
        }
    }
    or_would_block(writer.write(bytes))
}

// Writes all of the bytes, unless a write fails for good.
#[tactic(auto, using(crate::proofs::PartLaws::appends_next))]
pub fn write_all<C: Clock, W: Write>(clock: &C, writer: &mut W, bytes: &[u8]) -> Result<(), Stopped>
    ensures count { IfErr result (λ stopped. stopped.written < length bytes.now) }
    ensures bytes { MatchResult result
        (λ _. Appends (W.contents writer.old) (W.contents writer.new) bytes.now)
        (λ stopped. Appends (W.contents writer.old) (W.contents writer.new) (take stopped.written bytes.now)) }
{
    let mut written: usize = 0;
    // As in `read_full`.
    while written < bytes.len() {
        match write_some(clock, writer, &bytes[written..]) {
            Ok(n) => written += n,
            Err(error) => return Err(Stopped { written, error }),
        }
    }
    Ok(())
}
