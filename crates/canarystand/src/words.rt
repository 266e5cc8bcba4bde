// The words behind the program's name.
ghost use Rattle.std.specs.Prelude.{◌≤◌, length};

use command::Mode;
use std::env::FillError;
use std::rt::Env;

// How many bytes the longest word of a mode has, and more: a longer one is read as empty, which no mode takes.
const MOST_WORD: usize = 16;

// How many words there are, the program's own name among them.
fn word_count<R: Env>(rt: &R) -> usize {
    (0..usize::MAX)
        .find(|i| matches!(rt.arg(*i, &mut []), Err(FillError::NotPresent)))
        .unwrap_or(usize::MAX)
}

// The word's bytes are the first so many; one that is missing or too long is empty.
fn word<R: Env>(rt: &R, i: usize, buf: &mut [u8]) -> usize
    ensures { result ≤ length buf.new }
{
    rt.arg(i, buf).unwrap_or(0)
}

pub(crate) fn asked_mode<R: Env>(rt: &R) -> Option<Mode> {
    let count = word_count(rt);
    let mut name = [0u8; MOST_WORD];
    let mut first = [0u8; MOST_WORD];
    let mut second = [0u8; MOST_WORD];
    let a = word(rt, 1, &mut name);
    let b = word(rt, 2, &mut first);
    let c = word(rt, 3, &mut second);
    command::mode_of(count, &name[..a], &first[..b], &second[..c])
}
