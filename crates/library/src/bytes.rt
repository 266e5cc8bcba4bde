// Numbers, literals, actions and branches at an offset of some bytes. Past the end every byte is 0.
// Each takes the bytes and an offset: a struct of the two would be made for one call, and be no plainer.
ghost use Rattle.std.specs.Prelude.{◌≡◌, get_or};
ghost use Rattle.library.specs.Plan.{no_literal, no_action, no_branch};
ghost use Rattle.library.specs.Bytes.{u16_at, literal_at, action_at, branch_at};

use super::{Action, Branch};
use literal::Literal;

// How many bytes a literal, an action and a branch have.
pub const LITERAL_BYTES: usize = 8;

pub const ACTION_BYTES: usize = 10;

pub const BRANCH_BYTES: usize = 12;

// Where a branch's next state stands in it.
pub const NEXT_STATE: usize = 10;

// ---- What stands where nothing is

pub fn no_literal() -> Literal
    ensures { result ≡ no_literal }
{
    Literal {
        head: 0,
        first: 0,
        second: 0,
        third: 0,
    }
}

pub(crate) fn no_action() -> Action
    ensures { result ≡ no_action }
{
    Action {
        kind: 0,
        literal: no_literal(),
    }
}

pub fn no_branch() -> Branch
    ensures { result ≡ no_branch }
{
    Branch {
        kind: 0,
        literal: no_literal(),
        next: 0,
    }
}

// ---- Reading

pub fn byte_at(bytes: &[u8], at: usize) -> u8
    ensures { result ≡ get_or bytes.now at 0 }
{
    bytes.get(at).copied().unwrap_or(0)
}

// A number of 16 bits, low byte first. By indices: by patterns of `bytes.get(at..)` a plan's reads take 1.3 times as long.
#[tactic(auto, using(crate::proofs::PastEnd::byte_past), unfolding(crate::specs::Bytes::u16_at))]
pub fn u16_at(bytes: &[u8], at: usize) -> u16
    ensures { result ≡ u16_at bytes.now at }
{
    if bytes.len() <= at {
        return 0;
    }
    if bytes.len() - at < 2 {
        return u16::from(bytes[at]);
    }
    u16::from_le_bytes([bytes[at], bytes[at + 1]])
}

// A literal that is there whole is read at once; by a pattern of `bytes.get(at..)` the test of a library takes 1.3 times as long.
pub fn literal_at(bytes: &[u8], at: usize) -> Literal
    ensures { result ≡ literal_at bytes.now at }
{
    if bytes.len() <= at {
        return no_literal();
    }
    if bytes.len() - at < LITERAL_BYTES {
        return Literal {
            head: u16_at(bytes, at),
            first: u16_at(bytes, at + 2),
            second: u16_at(bytes, at + 4),
            third: u16_at(bytes, at + 6),
        };
    }
    Literal {
        head: u16::from_le_bytes([bytes[at], bytes[at + 1]]),
        first: u16::from_le_bytes([bytes[at + 2], bytes[at + 3]]),
        second: u16::from_le_bytes([bytes[at + 4], bytes[at + 5]]),
        third: u16::from_le_bytes([bytes[at + 6], bytes[at + 7]]),
    }
}

#[tactic(auto, using(crate::proofs::PastEnd::action_past))]
pub fn action_at(bytes: &[u8], at: usize) -> Action
    ensures { result ≡ action_at bytes.now at }
{
    if bytes.len() <= at {
        return no_action();
    }
    Action {
        kind: u16_at(bytes, at),
        literal: literal_at(bytes, at + 2),
    }
}

#[tactic(auto, using(crate::proofs::PastEnd::branch_past))]
pub fn branch_at(bytes: &[u8], at: usize) -> Branch
    ensures { result ≡ branch_at bytes.now at }
{
    if bytes.len() <= at {
        return no_branch();
    }
    Branch {
        kind: u16_at(bytes, at),
        literal: literal_at(bytes, at + 2),
        next: u16_at(bytes, at + NEXT_STATE),
    }
}
