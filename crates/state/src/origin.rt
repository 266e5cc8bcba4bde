// Origins: a goal's or an external event's, and the goal of an instance.
// The types are crate model's, so these are functions: a trait of one impl would be no plainer.
ghost use Rattle.std.specs.Prelude.{◌≡◌};
ghost use Rattle.model.specs.Instance.{last_tried};
ghost use Rattle.model.specs.Live.{is_goal, goal_of};

use model::{Instance, Origin};

// Whether it is a goal's, not an external event's.
pub fn is_goal(origin: Origin) -> bool
    ensures { result ≡ is_goal origin }
{
    matches!(origin, Origin::Goal { .. })
}

// The branch that an instance tried last.
pub fn last_tried(x: Instance) -> u16
    ensures { result ≡ last_tried x }
{
    x.tried.saturating_sub(1)
}

// The goal of a suspended instance.
pub fn goal_of(x: Instance) -> Origin
    ensures { result ≡ goal_of x }
{
    Origin::Goal {
        instance: x.id,
        state: x.state,
        branch: last_tried(x),
    }
}
