// The set of an event's failed plans: a bit for each plan number below 32.
ghost use Rattle.std.specs.Prelude.{◌≡◌};
ghost use Rattle.situation.specs.FailedSet.{has, most_plans, with_plan, size_of, count_below};

use library::MOST_PLANS;

// Whether the plan is in the set.
#[tactic(auto, unfolding(crate::specs::FailedSet::has))]
pub fn has(set: u32, plan: u16) -> bool
    ensures { result ≡ has set plan }
{
    plan < MOST_PLANS && (set >> plan) % 2 == 1
}

// The set with one plan more; the set itself where it has the plan, or can have none of its number.
pub fn with(set: u32, plan: u16) -> u32
    ensures { result ≡ with_plan set plan }
{
    if MOST_PLANS <= plan {
        return set;
    }
    set | (1 << plan)
}

// How many plans are in the set: its ones, which are the plans in it counted one by one.
pub fn size(set: u32) -> u32
    ensures ones { result ≡ size_of set }
    ensures counted { result ≡ count_below set most_plans }
{
    set.count_ones()
}
