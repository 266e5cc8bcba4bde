// A ledger's own copy of the belief table, kept beside an agent: after each call, the change call on the changes of its result.
#![tactic(auto)]

ghost use Rattle.std.specs.Prelude.{◌≡◌};
ghost use Rattle.model.specs.State.{view_result};
ghost use Rattle.change.specs.Changes.{changed};

use belief::Beliefs;
use model::{Answered, MOST_CHANGES};
use refusals::Refusal;

// The copy after a result: its changes, which are lent to the change call, are applied in order. A copy that breaks the rules is refused.
pub fn copy_after(table: Beliefs, res: Answered) -> Result<Beliefs, Refusal>
    ensures { result ≡ changed table (view_result res).changes }
{
    let changes = res.changes;
    let n = res.count.min(MOST_CHANGES);
    change::change(table, &changes[..n])
}
