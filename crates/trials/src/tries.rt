// Trying a branch: what comes of it, before the state changes.
ghost use Rattle.std.specs.Prelude.{◌≡◌, ◌||◌, not, leb, [], None};
ghost use Rattle.literal.specs.Literal.{is_ground};
ghost use Rattle.literal.specs.Divide.{divide};
ghost use Rattle.belief.specs.Beliefs.{view};
ghost use Rattle.library.specs.Kinds.{deed_number};
ghost use Rattle.library.specs.declared.kinds.Deed.TheVariants.{Achieve, Query};
ghost use Rattle.model.specs.State.{most_height};
ghost use Rattle.model.specs.Try.{try_change, try_action, try_divide, pursue, attempt};
ghost use Rattle.trials.specs.Trial.{view_outcome, asked, Tries};

use crate::changes;
use crate::changes::Altered;
use belief::{Beliefs, Change};
use library::Branch;
use library::kinds::Deed;
use literal::{Env, Literal};

// A stack has at most this many instances.
const MOST_HEIGHT: usize = 8;

// What came of a branch: nothing, a step, an action for the driver, a goal to post. A value that the specifications speak of
// (`view_outcome`), and not a closure to run: it is known before the state changes, and a closure that is handed out is refused.
#[derive(Clone, Copy)]
pub enum Outcome {
    Missed,
    Stepped,
    Done(Literal),
    Posted(Literal),
}

// What came of it, with the environment after a step, and the table.
#[derive(Clone, Copy)]
pub struct Trial {
    pub outcome: Outcome,
    pub env: Env,
    pub altered: Altered,
}

// What a branch is tried on: the beliefs, the height of the stack that its instance tops, and the environment.
#[derive(Clone, Copy)]
pub struct Start<'a> {
    pub beliefs: &'a Beliefs,
    pub height: usize,
    pub env: Env,
}

impl Start<'_> {
    // A trial that changes no belief.
    fn plain(&self, env: Env, outcome: Outcome) -> Trial
        ensures { Tries self.now.beliefs.now (view_outcome outcome env []) result }
    {
        Trial {
            outcome,
            env,
            altered: Altered::untouched(*self.beliefs),
        }
    }

    // An add or a removal: a step, if it is possible.
    fn change(&self, c: Change) -> Trial
        ensures { Tries self.now.beliefs.now (try_change (view self.now.beliefs.now) self.now.env c) result }
    {
        let mut altered = Altered::untouched(*self.beliefs);
        let outcome = if altered.make(c) {
            Outcome::Stepped
        } else {
            Outcome::Missed
        };
        Trial {
            outcome,
            env: self.env,
            altered,
        }
    }

    // An external action, if it is ground.
    #[tactic(auto, unfolding(model::specs::Try::try_action))]
    fn action(&self, l: Literal) -> Trial
        ensures { Tries self.now.beliefs.now (try_action l) result }
    {
        let outcome = if l.is_ground() {
            Outcome::Done(l)
        } else {
            Outcome::Missed
        };
        self.plain(self.env, outcome)
    }

    // A goal that the beliefs do not answer: posted, unless it is barred.
    #[tactic(auto, unfolding(model::specs::Try::pursue))]
    fn post(&self, goal: Literal, barred: bool) -> Trial
        ensures { Tries self.now.beliefs.now (pursue None barred goal) result }
    {
        let outcome = if barred {
            Outcome::Missed
        } else {
            Outcome::Posted(goal)
        };
        self.plain(self.env, outcome)
    }

    // Whether no goal of any kind is posted: it is not ground, or the stack has 8 instances.
    fn is_unfit(&self, goal: Literal) -> bool
        ensures { result ≡ (not (is_ground goal) || leb most_height self.now.height) }
    {
        !goal.is_ground() || MOST_HEIGHT <= self.height
    }

    // An achieve: stepped where it is held, else posted.
    #[tactic(auto, unfolding(model::specs::Try::pursue, model::specs::Try::answer_to, model::specs::Try::is_barred))]
    fn achieve(&self, l: Literal) -> Trial
        ensures { Tries self.now.beliefs.now
            (asked (deed_number Achieve) (view self.now.beliefs.now) self.now.height self.now.env l) result }
    {
        let goal = self.env.instantiated(l);
        if goal.is_ground() && self.beliefs.holds(goal) {
            return self.plain(self.env, Outcome::Stepped);
        }
        self.post(goal, self.is_unfit(goal))
    }

    // A query: stepped where a first belief matches it, else posted, unless its opposite is held.
    #[tactic(auto, unfolding(model::specs::Try::pursue, model::specs::Try::answer_to, model::specs::Try::is_barred))]
    fn query(&self, l: Literal) -> Trial
        ensures { Tries self.now.beliefs.now
            (asked (deed_number Query) (view self.now.beliefs.now) self.now.height self.now.env l) result }
    {
        if let Some(extended) = situation::ask(*self.beliefs, l, self.env) {
            return self.plain(extended, Outcome::Stepped);
        }
        let goal = self.env.instantiated(l);
        let opposite = goal.opposite();
        let barred = self.is_unfit(goal) || self.beliefs.holds(opposite);
        self.post(goal, barred)
    }

    // A divide: stepped where it can be done, else missed; no belief changes.
    #[tactic(auto, unfolding(model::specs::Try::try_divide))]
    fn divide(&self, l: Literal) -> Trial
        ensures { Tries self.now.beliefs.now (try_divide (divide l self.now.env)) result }
    {
        match self.env.divide(l) {
            Some(extended) => self.plain(extended, Outcome::Stepped),
            None => self.plain(self.env, Outcome::Missed),
        }
    }

    // A branch by its kind.
    #[tactic(auto, unfolding(model::specs::Try::attempt))]
    pub fn attempt(&self, branch: Branch) -> Trial
        ensures { Tries self.now.beliefs.now (attempt (view self.now.beliefs.now) self.now.height self.now.env branch) result }
    {
        let l = branch.literal;
        // What names no kind is tried as a query.
        let Ok(deed) = Deed::try_from(branch.kind) else {
            return self.query(l);
        };
        let ground = self.env.instantiated(l);
        match deed {
            Deed::Add | Deed::Remove => self.change(changes::change_of(branch.kind, ground)),
            Deed::Act => self.action(ground),
            Deed::Achieve => self.achieve(l),
            Deed::Query => self.query(l),
            Deed::Divide => self.divide(l),
        }
    }
}
