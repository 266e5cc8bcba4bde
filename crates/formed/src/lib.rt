// The test for well-formed states, rule by rule.
#![tactic(auto)]

ghost use Rattle.std.specs.Prelude.{◌≡◌};
ghost use Rattle.library.specs.Layout.{library_of};
ghost use Rattle.formed.specs.Stored.{keeps_rules};
ghost use Rattle.formed.specs.Formed.{is_state_formed, is_formed, is_well_formed_with};

use self::stacks::are_stacks;
use jobs::{Job, live_jobs};
use model::{Event, Number};
use state::{MOST_QUEUED, MOST_STACKS, State};

mod events; // events.rt: the rules for the queue
mod instances; // instances.rt: the rules for each instance, and that no two are alike
mod served; // served.rt: who serves what, and which goal is whose
mod stacks; // stacks.rt: the rules for each stack

// What the rules are tested on: the library, and of the state its numbers, its queue and its live instances.
#[derive(Clone, Copy)]
struct Tested<'a> {
    library: &'a [u8],
    taken: Number,
    made: Number,
    queue: &'a [Event],
    jobs: &'a [Job],
}

// Whether the state keeps every rule; `jobs` are its live instances.
#[tactic(auto, unfolding(crate::specs::Stored::keeps_rules))]
fn keeps_rules(library: &[u8], s: &State, jobs: &[Job]) -> bool
    ensures { result ≡ keeps_rules (library_of library.now) s.now jobs.now }
{
    let tested = Tested {
        library,
        taken: s.taken,
        made: s.made,
        queue: s.events(),
        jobs,
    };
    s.beliefs.is_table()
        && are_stacks(s.standing())
        && tested.are_events()
        && tested.are_jobs()
        && tested.all_served()
        && tested.have_goals()
        && tested.have_posters()
}

// Whether every count is within its array, and the state that the arrays mean keeps every rule.
pub fn is_state_formed(library: &[u8], s: State) -> bool
    ensures { result ≡ is_state_formed library.now s }
{
    if MOST_QUEUED < s.queued || MOST_STACKS < s.stacked {
        return false;
    }
    let live = live_jobs(s.standing());
    keeps_rules(library, &s, live.as_slice())
}

// Whether the library is accepted and the state formed.
#[tactic(auto, unfolding(crate::specs::Formed::is_formed))]
pub fn is_formed(library: &[u8], s: State) -> bool
    ensures { result ≡ is_formed library.now s }
{
    accepted::refusal(library).is_ok() && is_state_formed(library, s)
}

// Whether the library in the first `length` bytes is accepted and the state well formed.
#[tactic(auto, unfolding(crate::specs::Formed::is_well_formed_with))]
pub fn is_well_formed(library: &[u8], length: usize, s: State) -> bool
    ensures { result ≡ is_well_formed_with library.now length s }
{
    length <= library.len() && is_formed(&library[..length], s)
}
