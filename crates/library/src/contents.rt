// What stands before the plans: their number, the number of beliefs, the beliefs. The entries are read by `plan::PlanRef`.
ghost use Rattle.std.specs.Prelude.{◌≡◌, get_or};
ghost use Rattle.library.specs.Plan.{no_literal};
ghost use Rattle.library.specs.Layout.{plan_count, belief_count, beliefs_of};

use super::bytes::{LITERAL_BYTES, literal_at, no_literal, u16_at};
use literal::Literal;

// How many bytes the two numbers have, and an entry.
pub const HEADER_BYTES: usize = 4;

pub const ENTRY_BYTES: usize = 4;

#[tactic(auto, unfolding(crate::specs::Layout::plan_count))]
pub fn plan_count(library: &[u8]) -> u16
    ensures { result ≡ plan_count library.now }
{
    u16_at(library, 0)
}

#[tactic(auto, unfolding(crate::specs::Layout::belief_count))]
pub fn belief_count(library: &[u8]) -> u16
    ensures { result ≡ belief_count library.now }
{
    u16_at(library, 2)
}

// An initial belief, by its place.
pub fn belief(library: &[u8], place: usize) -> Literal
    ensures { result ≡ get_or (beliefs_of library.now) place no_literal }
{
    let count = belief_count(library) as usize;
    if count <= place {
        return no_literal();
    }
    let plans = plan_count(library) as usize;
    literal_at(
        library,
        HEADER_BYTES + ENTRY_BYTES * plans + LITERAL_BYTES * place,
    )
}
