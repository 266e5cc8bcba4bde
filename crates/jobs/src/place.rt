// What an instance's plan says at the instance's place in it. Of a plan that does not exist there is nothing.
// Each function takes a library and an instance: a struct of the two would be made for one call, and be no plainer.
ghost use Rattle.std.specs.Prelude.{◌≡◌, length};
ghost use Rattle.std.specs.Option.{option_map_or};
ghost use Rattle.library.specs.Plan.{no_plan};
ghost use Rattle.library.specs.Layout.{described, library_of};
ghost use Rattle.model.specs.Instance.{plan_of, branches_of, branch_of};

use library::Branch;
use library::bytes::no_branch;
use library::contents::plan_count;
use library::plan::PlanRef;
use model::Instance;
use state::origin::last_tried;

// The instance's plan, where the library has it.
pub(crate) fn plan_of(library: &[u8], x: Instance) -> Option<PlanRef<'_>>
    ensures { plan_of (library_of library.now) x ≡ option_map_or described result no_plan }
{
    let plan = PlanRef {
        library,
        number: x.plan as usize,
    };
    (x.plan < plan_count(library)).then_some(plan)
}

// A number, as the library has it.
pub fn trigger_kind(library: &[u8], x: Instance) -> u16
    ensures { result ≡ (plan_of (library_of library.now) x).kind }
{
    plan_of(library, x).map_or(0, |plan| plan.trigger_kind())
}

pub fn state_count(library: &[u8], x: Instance) -> u16
    ensures { result ≡ length (plan_of (library_of library.now) x).states }
{
    plan_of(library, x).map_or(0, |plan| plan.state_count())
}

// How many branches the present state has.
#[tactic(auto, unfolding(model::specs::Instance::branches_of))]
pub fn branch_count(library: &[u8], x: Instance) -> u16
    ensures { result ≡ length (branches_of (library_of library.now) x) }
{
    plan_of(library, x).map_or(0, |plan| plan.branch_count(x.state as usize))
}

// The branch that was tried last: while an instance waits or is suspended, its branch.
#[tactic(auto, unfolding(model::specs::Instance::branches_of, model::specs::Instance::branch_of))]
pub fn branch(library: &[u8], x: Instance) -> Branch
    ensures { result ≡ branch_of (library_of library.now) x }
{
    let place = last_tried(x) as usize;
    plan_of(library, x).map_or(no_branch(), |plan| plan.branch(x.state as usize, place))
}
