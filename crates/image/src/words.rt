// Numbers into a lent buffer, the low byte first. Writers take the buffer and the place (writing/src/lib.rt says why).
ghost use Rattle.std.specs.Prelude.{◌+◌, ◌≤◌, length};
ghost use Rattle.writing.specs.Writing.{Wrote};
ghost use Rattle.image.specs.Form.{newest, number_size};
ghost use Rattle.image.specs.Words.{word_size, word_bytes, words_bytes, words_size, long_words, number_bytes};

use crate::bytes::put_bytes;
use crate::form::Form;
use model::Number;

// How many bytes a number of 16 bits has.
pub(crate) const WORD_BYTES: usize = 2;
// And one of 32 bits.
pub(crate) const LONG_BYTES: usize = WORD_BYTES + WORD_BYTES;
// What a number of 32 bits has above its low 16 bits counts so much.
pub(crate) const HIGH: u32 = 65536;

pub(crate) fn put_word(out: &mut [u8], at: usize, n: u16) -> usize
    requires { at + word_size ≤ length out.old }
    ensures { Wrote word_size out.old out.new at result (word_bytes n) }
{
    put_bytes(out, at, &n.to_le_bytes())
}

// The numbers, one after the other. A loop of its own: one for all lists would take each item's writer with what it writes.
#[tactic(auto, using(crate::proofs::WordLaws::all_parts))]
pub(crate) fn put_words(out: &mut [u8], at: usize, words: &[u16]) -> usize
    requires { at + words_size words.now ≤ length out.old }
    ensures { Wrote (words_size words.now) out.old out.new at result (words_bytes words.now) }
{
    let mut o = at;
    for word in words {
        o = put_word(out, o, *word);
    }
    o
}

// A number of 32 bits.
pub(crate) fn put_long(out: &mut [u8], at: usize, n: u32) -> usize
    requires { at + (word_size + word_size) ≤ length out.old }
    ensures { Wrote (word_size + word_size) out.old out.new at result (words_bytes (long_words n)) }
{
    put_bytes(out, at, &n.to_le_bytes())
}

impl Form {
    // The number of an external event or of an instance: at most as many bytes as in the newest form.
    #[tactic(auto, using(writing::proofs::WritingLaws::widen), unfolding(crate::specs::Words::number_bytes))]
    pub(crate) fn put_number(self, out: &mut [u8], at: usize, n: Number) -> usize
        requires { at + number_size newest ≤ length out.old }
        ensures { Wrote (number_size newest) out.old out.new at result (number_bytes self n) }
    {
        match self {
            Form::Narrow => put_word(out, at, (n % HIGH) as u16),
            Form::Wide => put_long(out, at, n),
        }
    }
}
