// The change call: the belief table after a lent list of changes.
#![tactic(auto)]

ghost use Rattle.std.specs.Prelude.{◌≡◌, true, false};
ghost use Rattle.literal.specs.Literal.{is_ground};
ghost use Rattle.change.specs.Changes.{step_by, changed};

use belief::{Beliefs, Change};
use literal::Literal;
use refusals::Refusal;

// Two functions of one shape, since the change call is to call a covered add or a covered removal by value (docs/DECISIONS.md, form 9).

// The table with the literal; one that is not ground, is held already or finds 64 beliefs is passed over.
fn with_added(table: Beliefs, new: Literal) -> Beliefs
    ensures { result ≡ step_by (is_ground new) false table new }
{
    if !new.is_ground() {
        return table;
    }
    table.added(new).table
}

// The table without the literal; one that is not ground or is absent is passed over.
fn with_removed(table: Beliefs, old: Literal) -> Beliefs
    ensures { result ≡ step_by (is_ground old) true table old }
{
    if !old.is_ground() {
        return table;
    }
    table.removed(old).table
}

// The table after the changes, in order; one that breaks the rules for beliefs is refused.
#[tactic(auto, using(crate::proofs::StepLaws::steps_next, crate::proofs::StepLaws::steps_done), unfolding(crate::specs::Changes::changed))]
pub fn change(table: Beliefs, changes: &[Change]) -> Result<Beliefs, Refusal>
    ensures { result ≡ changed table changes.now }
{
    if !table.is_table() {
        return Err(Refusal::NotFormed);
    }
    let mut t = table;
    for c in changes {
        if c.removes {
            t = with_removed(t, c.literal);
        } else {
            t = with_added(t, c.literal);
        }
    }
    Ok(t)
}
