// Belief changes: one change, and the actions of a plan's success or failure list.
ghost use Rattle.std.specs.Prelude.{◌≡◌, ◌+◌, ◌<◌, ◌≤◌, length, take, get_or};
ghost use Rattle.belief.specs.Beliefs.{view};
ghost use Rattle.library.specs.Layout.{described};
ghost use Rattle.library.specs.Plan.{no_action};
ghost use Rattle.model.specs.State.{most_actions, most_changes};
ghost use Rattle.model.specs.Changes.{change_of, effective, effects};
ghost use Rattle.model.specs.Try.{is_possible};
ghost use Rattle.trials.specs.Altered.{no_change, untouched, noted_one, Alters, Extends, Changed, list_of};

use belief::{Applied, Beliefs, Change, Effect};
use library::Action;
use library::kinds::Deed;
use library::plan::PlanRef;
use literal::{Env, Literal};
use model::{MOST_ACTIONS, MOST_CHANGES};

// A belief table after some changes, and those that took effect, the first `count` of the array: memory is fixed,
// and a result holds the same array.
#[derive(Clone, Copy)]
pub struct Altered {
    pub table: Beliefs,
    pub changes: [Change; MOST_CHANGES],
    pub count: usize,
}

// How a plan ended: its success or its failure list runs.
#[derive(Clone, Copy, PartialEq, Eq)]
pub enum Ending {
    Success,
    Failure,
}

impl Ending {
    fn count(self, plan: &PlanRef) -> u16
        ensures { result ≡ length (list_of self (described plan.now)) }
    {
        match self {
            Ending::Success => plan.success_count(),
            Ending::Failure => plan.failure_count(),
        }
    }

    fn action(self, plan: &PlanRef, place: usize) -> Action
        ensures { result ≡ get_or (list_of self (described plan.now)) place no_action }
    {
        match self {
            Ending::Success => plan.success_action(place),
            Ending::Failure => plan.failure_action(place),
        }
    }
}

// A change by its kind: a number, since an enum would ask callers for a kind that a library's bytes may not have.
pub fn change_of(kind: u16, l: Literal) -> Change
    ensures { result ≡ change_of kind l }
{
    Change {
        removes: matches!(Deed::try_from(kind), Ok(Deed::Remove)),
        literal: l,
    }
}

// What stands where no change is.
pub fn no_change() -> Change
    ensures { result ≡ no_change }
{
    Change {
        removes: false,
        literal: library::bytes::no_literal(),
    }
}

// The table after a change, and what that did: nothing is possible with a literal that is not ground.
fn with_change(b: Beliefs, c: Change) -> Applied
    ensures { Changed b c result }
{
    let l = c.literal;
    if !l.is_ground() {
        return Applied {
            table: b,
            effect: Effect::Impossible,
        };
    }
    if c.removes {
        return b.removed(l);
    }
    b.added(l)
}

impl Altered {
    // No change yet.
    pub fn untouched(b: Beliefs) -> Altered
        ensures { result ≡ untouched b }
    {
        Altered {
            table: b,
            changes: [no_change(); MOST_CHANGES],
            count: 0,
        }
    }

    // One change more is noted.
    fn note(&mut self, c: Change)
        requires { self.old.count < most_changes }
        ensures { self.new ≡ noted_one self.old c }
    {
        self.changes[self.count] = c;
        self.count += 1;
    }

    // The table is that after the change, which is noted if it took effect, behind the removal of an add's opposite.
    #[tactic(auto, using(crate::proofs::AlteredLaws::noting))]
    fn take(&mut self, c: Change, applied: Applied)
        requires { (self.old.count + 2 ≤ most_changes) × Changed self.old.table c applied }
        ensures { Extends self.old (effective (view self.old.table) c) self.new }
    {
        self.table = applied.table;
        match applied.effect {
            Effect::Nothing | Effect::Impossible => {}
            Effect::Changed => self.note(c),
            Effect::Replaced => {
                let gone = Change {
                    removes: true,
                    literal: c.literal.opposite(),
                };
                self.note(gone);
                self.note(c);
            }
        }
    }

    // One change is made. Whether it is possible.
    pub(crate) fn make(&mut self, c: Change) -> bool
        requires { self.old.count + 2 ≤ most_changes }
        ensures made { Extends self.old (effective (view self.old.table) c) self.new }
        ensures possible { result ≡ is_possible (view self.old.table) c }
    {
        let applied = with_change(self.table, c);
        self.take(c, applied);
        !matches!(applied.effect, Effect::Impossible)
    }
}

// One change.
pub fn one_change(b: Beliefs, c: Change) -> Altered
    ensures { Alters b (effective (view b) c) result }
{
    let mut altered = Altered::untouched(b);
    altered.make(c);
    altered
}

// A plan's success or failure list runs, under an environment: all actions that there is room for.
pub fn list_run(plan: &PlanRef, ending: Ending, env: Env, b: Beliefs) -> Altered
    ensures { Alters b (effects (view b) env (take most_actions (list_of ending (described plan.now)))) result }
{
    let n = (ending.count(plan) as usize).min(MOST_ACTIONS);
    let mut altered = Altered::untouched(b);
    for i in 0..n {
        let action = ending.action(plan, i);
        let ground = env.instantiated(action.literal);
        altered.make(change_of(action.kind, ground));
    }
    altered
}
