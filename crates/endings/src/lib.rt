// How many lists of answers end the body of a plan (document 02, request 10).
#![tactic(auto)]

ghost use Rattle.std.specs.Prelude.{◌≡◌, ◌≤◌, ◌<◌, [], length, get_or};
ghost use Rattle.refusals.specs.Numbers.{numbered};
ghost use Rattle.library.specs.Layout.{plan_count, described};
ghost use Rattle.accepted.specs.Refusal.{refusal_of};
ghost use Rattle.endings.specs.Answers.{both_of, endings};
ghost use Rattle.endings.specs.Endings.{endings_of};

use library::plan::PlanRef;
use refusals::Refusal;

// How many lists of answers there are after which the body has just succeeded, and just failed.
#[derive(Clone, Copy)]
pub struct Counts {
    pub succeeded: u32,
    pub failed: u32,
}

fn both(succeeded: u32, failed: u32) -> Counts
    ensures { result ≡ both_of succeeded failed }
{
    Counts { succeeded, failed }
}

// A plan of an accepted library.
#[derive(Clone, Copy)]
struct Body<'a> {
    plan: PlanRef<'a>,
    ghost accepted: { (refusal_of plan.library.now ≡ 0) × (plan.number < plan_count plan.library.now) },
}

impl Body<'_> {
    // From a state, none of its branches tried.
    #[cycle(from_branch_from_state)]
    fn from_state(&self, state: usize, n: usize) -> Counts
        requires state_in_bounds { (state < length (described self.now.plan).states) × (n ≤ 15) }
        ensures { result ≡ endings (described self.now.plan).states state 0 n }
    {
        if self.plan.branch_count(state) == 0 {
            if n == 0 {
                return both(1, 0);
            }
            return both(0, 0);
        }
        self.from_branch(state, 0, n)
    }

    // From a state that is no end, the branches before `at` tried.
    #[cycle(from_branch_from_state)]
    fn from_branch(&self, state: usize, at: usize, n: usize) -> Counts
        requires state_in_bounds { (state < length (described self.now.plan).states) × (n ≤ 15) }
        requires at_in_bounds { at ≤ length (get_or (described self.now.plan).states state []) }
        requires nonzero { 0 < length (get_or (described self.now.plan).states state []) }
        ensures { result ≡ endings (described self.now.plan).states state at n }
    {
        if self.plan.branch_count(state) as usize <= at {
            if n == 0 {
                return both(0, 1);
            }
            return both(0, 0);
        }
        if n == 0 {
            return both(0, 0);
        }
        let taken = self.plan.branch(state, at);
        let worked = self.from_state(taken.next as usize, n - 1);
        let missed = self.from_branch(state, at + 1, n - 1);
        both(
            worked.succeeded + missed.succeeded,
            worked.failed + missed.failed,
        )
    }
}

// Lists are of at most this many answers.
const MOST_ANSWERS: usize = 15;

// How many lists of n answers there are after which the plan's body has just succeeded, and just failed.
// The plan by library and number, as in the other calls on a library that may be refused.
#[tactic(auto, unfolding(crate::specs::Endings::endings_of, crate::specs::Endings::endings_refusal))]
pub fn endings_of(library: &[u8], plan: usize, n: usize) -> Result<Counts, Refusal>
    ensures { numbered result ≡ endings_of library.now plan n }
{
    accepted::plan_refusal(library, plan)?;
    if MOST_ANSWERS < n {
        return Err(Refusal::LongLists);
    }
    let plan = PlanRef {
        library,
        number: plan,
    };
    let body = Body { plan };
    Ok(body.from_state(0, n))
}
