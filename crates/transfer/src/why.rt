// Why a call failed, on standard error.
ghost use Rattle.std.specs.Prelude.{◌≤◌, length, take};
ghost use Rattle.std.specs.Io.KnownBytes.{Appends};
ghost use Rattle.transfer.specs.Why.{SaysWhy};

use std::fmt::InlineText;
use std::io;
use std::io::Write;

// What the library puts behind the system's text of an error.
const NUMBER: &str = " (os error ";

// How many bytes of an error's text are written, at most.
const MOST_TEXT: usize = 256;

// Writes the bytes up to the first call that fails or takes nothing, and tells how many it wrote: nothing waits.
#[tactic(auto, using(crate::proofs::PartLaws::appends_next))]
fn write_at_once<W: Write>(writer: &mut W, bytes: &[u8]) -> usize
    ensures count { result ≤ length bytes.now }
    ensures bytes { Appends (W.contents writer.old) (W.contents writer.new) (take result bytes.now) }
{
    let mut done: usize = 0;
    // Each turn goes on by as many bytes as a write took, which no range or iterator does.
    while done < bytes.len() {
        match writer.write(&bytes[done..]) {
            Ok(0) | Err(_) => return done,
            Ok(n) => done += n,
        }
    }
    done
}

// A line: what failed, in the caller's words, a colon and the error's text. A part of it that cannot be written at once is lost.
pub fn say_why<E: Write>(err: &mut E, words: &[u8], error: io::Error)
    ensures { SaysWhy (E.contents err.old) (E.contents err.new) words.now }
{
    let text = InlineText::<MOST_TEXT>::of(error);
    let text = text.as_str();
    let why = text.split_once(NUMBER).map_or(text, |(why, _)| why);
    write_at_once(err, words);
    write_at_once(err, b": ");
    write_at_once(err, why.as_bytes());
    write_at_once(err, b"\n");
}
