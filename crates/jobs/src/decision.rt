// What an instance does at its turn.
ghost use Rattle.std.specs.Prelude.{◌≡◌};
ghost use Rattle.belief.specs.Beliefs.{view};
ghost use Rattle.library.specs.Layout.{library_of};
ghost use Rattle.model.specs.Turn.{next_move};
ghost use Rattle.jobs.specs.Decision.{view_decision};

use crate::place;
use belief::Beliefs;
use library::Branch;
use model::Instance;

#[derive(Clone, Copy)]
pub enum Decision {
    Fail,
    Succeed,
    Attempt(Branch),
}

// Maintenance does not hold: fail; an end state: succeed; no untried branch: fail; otherwise the next branch.
pub fn next_move(library: &[u8], b: Beliefs, x: Instance) -> Decision
    ensures { view_decision result ≡ next_move (library_of library.now) (view b) x }
{
    let Some(plan) = place::plan_of(library, x) else {
        return Decision::Fail;
    };
    if !situation::holds(plan.library, plan.maintenance_offset(), b, x.env) {
        return Decision::Fail; // in an end state too
    }
    let count = plan.branch_count(x.state as usize);
    if count == 0 {
        return Decision::Succeed;
    }
    if count <= x.tried {
        return Decision::Fail;
    }
    let branch = plan.branch(x.state as usize, x.tried as usize);
    Decision::Attempt(branch)
}
