// Lines out of a stream that comes in chunks: the call of each line, and the line so far between chunks.
#![tactic(auto)]

ghost use Rattle.std.specs.Prelude.{◌≡◌, [], drop, Some};
ghost use Rattle.reading.specs.Spoken.{meaning};
ghost use Rattle.stream.specs.Carried.{begun, more, said};
ghost use Rattle.stream.specs.Calls.{at_end, next_line, shown, shown_last};

use reading::{MOST_LINE, Spoken};

// The line so far is the first `count` bytes; a count over 32 says that it is too long to be read. No Option of a count: the fields are
// public, so a count over 32 can be handed in either way, and needs a meaning. An array, since memory is fixed.
#[derive(Clone, Copy)]
pub struct Carry {
    pub bytes: [u8; MOST_LINE],
    pub count: usize,
}

// A line that ended: what it says, and where the next one begins.
#[derive(Clone, Copy)]
pub struct Line {
    pub call: Option<Spoken>,
    pub at: usize,
}

// No line has begun.
#[tactic(auto, using(crate::proofs::CarryLaws::begun_short))]
pub fn no_line() -> Carry
    ensures { begun result ≡ Some [] }
{
    Carry {
        bytes: [0; MOST_LINE],
        count: 0,
    }
}

// The line so far with further bytes, of which a line that gets too long keeps none.
#[tactic(auto, using(crate::proofs::CarryLaws::extending))]
fn extended(mut carry: Carry, bytes: &[u8]) -> Carry
    ensures { begun result ≡ more (begun carry) bytes.now }
{
    let count = carry.count;
    if MOST_LINE < count {
        return carry;
    }
    if MOST_LINE - count < bytes.len() {
        return Carry {
            count: MOST_LINE + 1,
            ..carry
        };
    }
    let end = count + bytes.len();
    carry.bytes[count..end].copy_from_slice(bytes);
    carry.count = end;
    carry
}

// What the line so far says.
#[tactic(auto, using(crate::proofs::CarryLaws::beginnings, std::proofs::lemmas::Slice::between_from_start))]
fn call_of(carry: Carry) -> Option<Spoken>
    ensures { meaning result ≡ said (begun carry) }
{
    reading::read_call(carry.bytes.get(..carry.count)?)
}

// The line that ends next in the chunk, from a place on; one that began there is read in place.
// The place is given beside the chunk, and told: the agent counts for its caller how much of the chunk it read.
pub fn next_line(chunk: &[u8], at: usize, carry: Carry) -> Option<Line>
    ensures { shown result ≡ next_line chunk.now at (begun carry) }
{
    let rest = chunk.get(at..)?;
    let size = rest.iter().position(|b| *b == b'\n')?;
    let line = &rest[..size];
    let call = if carry.count == 0 {
        reading::read_call(line)
    } else {
        call_of(extended(carry, line))
    };
    Some(Line {
        call,
        at: at + size + 1,
    })
}

// The line so far where the chunk is used up, from a place on.
#[tactic(auto, using(crate::proofs::CarryLaws::nothing_further))]
pub fn carried(chunk: &[u8], at: usize, carry: Carry) -> Carry
    ensures { begun result ≡ more (begun carry) (drop at chunk.now) }
{
    let Some(rest) = chunk.get(at..) else {
        return carry;
    };
    extended(carry, rest)
}

// What the line says that the input's end ends; none where no line has begun.
#[tactic(auto, using(crate::proofs::CarryLaws::end_nothing, crate::proofs::CarryLaws::end_line))]
pub fn last_line(carry: Carry) -> Option<Option<Spoken>>
    ensures { shown_last result ≡ at_end (begun carry) }
{
    if carry.count < 1 {
        return None;
    }
    Some(call_of(carry))
}
