// An instance moves on: active again, in another state, or past the branch that it tried.
ghost use Rattle.std.specs.Prelude.{◌≡◌};
ghost use Rattle.library.specs.Layout.{library_of};
ghost use Rattle.model.specs.Instance.{awake, step_to, past_branch};

use crate::place;
use literal::Env;
use model::{Instance, Status};

// The instance active again, where it was.
pub fn awoken(x: Instance) -> Instance
    ensures { result ≡ awake x }
{
    Instance {
        tried: x.tried, // it goes on with the next branch
        status: Status::Active,
        ..x
    }
}

// The instance in another state, active, with no branch tried there.
pub fn stepped_to(x: Instance, next: u16, env: Env) -> Instance
    ensures { result ≡ step_to next env x }
{
    Instance {
        env,
        state: next,
        tried: 0,
        status: Status::Active,
        ..x
    }
}

// The instance past the branch that it tried last: a poster past its goal, a waiting one past its action.
// By library and instance, as in place.rt.
pub fn past_branch(library: &[u8], x: Instance) -> Instance
    ensures { result ≡ past_branch (library_of library.now) x }
{
    let branch = place::branch(library, x);
    stepped_to(x, branch.next, x.env)
}
