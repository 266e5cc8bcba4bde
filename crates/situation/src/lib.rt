// Situations: the search for a solution, what a literal asks of the beliefs, and the choice of a plan for an event.
#![tactic(auto)]

ghost use Rattle.std.specs.Prelude.{◌≡◌, ◌+◌, ◌*◌, ◌<◌, ◌^◌};
ghost use mathlib.Core.List.{foldl};
ghost use Rattle.belief.specs.Beliefs.{view};
ghost use Rattle.library.specs.Bytes.{literal_at, items};
ghost use Rattle.library.specs.Layout.{situation_at, plan_of, library_of};
ghost use Rattle.situation.specs.Solutions.{solve, solutions, first_of, holds_from, ask};
ghost use Rattle.situation.specs.Search.{rank_of, is_before, consider, is_settled, best_of};
ghost use Rattle.situation.specs.Applicable.{triggered, plan_start, choose};
ghost use Rattle.situation.specs.Selected.{selected};

use belief::Beliefs;
use library::bytes::{LITERAL_BYTES, literal_at, u16_at};
use library::contents::plan_count;
use library::plan::PlanRef;
use literal::{Env, FIRST_VARIABLE, Literal};

pub mod failed; // the set of an event's failed plans

// The plan that was chosen by its number, and the environment that its instance starts with: the empty one where there is none.
#[derive(Clone, Copy)]
pub struct Selected {
    pub choice: Option<u16>,
    pub env: Env,
}

// What a search keeps, a number as a trigger in the library has it: by 0 the first solution, by v + 1 the first with the least Vv.
// No enum: it would be made of that number for each search, and tested by the same two cases.
#[derive(Clone, Copy)]
pub struct Rule {
    pub least: u16,
}

impl Rule {
    // The value by which solutions are compared; unbound counts above all constants.
    #[tactic(auto, unfolding(crate::specs::Search::rank_of))]
    fn rank_of(self, env: Env) -> u16
        ensures { result ≡ rank_of self.least env }
    {
        if self.least == 0 {
            return 0;
        }
        match env.terms.get(self.least as usize - 1) {
            Some(term) => (*term).min(FIRST_VARIABLE),
            None => 0,
        }
    }

    // Whether a solution has a lesser value than the best so far.
    #[tactic(auto, unfolding(crate::specs::Search::is_before))]
    fn is_before(self, env: Env, best: Env) -> bool
        ensures { result ≡ is_before self env best }
    {
        self.rank_of(env) < self.rank_of(best)
    }

    // What the search keeps after one more solution: of equal ones the earlier.
    #[tactic(auto, unfolding(crate::specs::Search::consider))]
    fn considered(self, best: Option<Env>, env: Env) -> Option<Env>
        ensures { result ≡ consider self best env }
    {
        match best {
            Some(kept) if !self.is_before(env, kept) => best,
            _ => Some(env),
        }
    }

    // Whether no later solution changes what is kept.
    #[tactic(auto, unfolding(crate::specs::Search::is_settled))]
    fn is_settled(self, best: Option<Env>) -> bool
        ensures { result ≡ is_settled self best }
    {
        best.is_some() && self.least == 0
    }
}

// What a search reads, and what it keeps.
#[derive(Clone, Copy)]
struct Search<'a> {
    bytes: &'a [u8],
    beliefs: &'a [Literal],
    rule: Rule,
}

impl Search<'_> {
    // Over an alternative, its `remaining` literals at `at`: for each belief that the first one matches, over those after it.
    fn solved(&self, at: usize, remaining: usize, env: Env, best: Option<Env>) -> Option<Env>
        requires { at + 8 * remaining < 2 ^ 64 }
        ensures { result ≡ foldl (consider self.now.rule) best
            (solve self.now.beliefs.now (items (literal_at self.now.bytes.now) 8 remaining at) env) }
    {
        if remaining == 0 {
            return self.rule.considered(best, env);
        }
        let l = literal_at(self.bytes, at);
        let mut next = best;
        for belief in self.beliefs {
            if self.rule.is_settled(next) {
                return next;
            }
            if let Some(extended) = env.match_literal(l, *belief) {
                next = self.solved(at + LITERAL_BYTES, remaining - 1, extended, next);
            }
        }
        next
    }

    // Over the situation at `at`, its alternatives in order.
    fn searched(&self, at: usize, env: Env) -> Option<Env>
        ensures { result ≡ best_of self.now.rule (solutions self.now.beliefs.now (situation_at self.now.bytes.now at) env) }
    {
        if self.bytes.len() <= at {
            return None;
        }
        let mut best = None;
        let mut p = at + 2;
        for _i in 0..u16_at(self.bytes, at) {
            if self.rule.is_settled(best) {
                return best;
            }
            let n = u16_at(self.bytes, p) as usize;
            best = self.solved(p + 2, n, env, best);
            p = p + 2 + LITERAL_BYTES * n;
        }
        best
    }
}

// The first solution of the situation at `at`; bytes and offset as in library::bytes.
#[tactic(auto, using(crate::proofs::KeepLaws::keeps_first))]
pub fn first_solution(bytes: &[u8], at: usize, beliefs: Beliefs, env: Env) -> Option<Env>
    ensures { result ≡ first_of (solutions (view beliefs) (situation_at bytes.now at) env) }
{
    let search = Search {
        bytes,
        beliefs: beliefs.as_slice(),
        rule: Rule { least: 0 },
    };
    search.searched(at, env)
}

// Whether the situation at `at` holds; nothing is bound.
pub fn holds(bytes: &[u8], at: usize, beliefs: Beliefs, env: Env) -> bool
    ensures { result ≡ holds_from (view beliefs) (situation_at bytes.now at) env }
{
    first_solution(bytes, at, beliefs, env).is_some()
}

// The first belief that the literal matches binds.
pub fn ask(beliefs: Beliefs, l: Literal, env: Env) -> Option<Env>
    ensures { result ≡ ask (view beliefs) l env }
{
    for belief in beliefs.as_slice() {
        if let Some(next) = env.match_literal(l, *belief) {
            return Some(next);
        }
    }
    None
}

// Matching a trigger against an event's literal, from the empty environment.
#[tactic(auto, unfolding(crate::specs::Applicable::triggered))]
fn triggered_by(trigger: Literal, l: Literal) -> Option<Env>
    ensures { result ≡ triggered trigger l }
{
    Env::empty().match_literal(trigger, l)
}

// An event is given by its kind, literal and failed set: the struct Event is the model's, which stands above this crate.

// The solution of a plan's context with which its instance would start; none where it has failed, is of another kind or is not triggered.
#[tactic(auto, unfolding(crate::specs::Applicable::plan_start, crate::specs::Applicable::plan_solutions))]
fn plan_solution(
    bytes: &[u8],
    number: u16,
    beliefs: &[Literal],
    kind: u16,
    l: Literal,
    failed: u32,
) -> Option<Env>
    ensures { result ≡
        plan_start beliefs.now kind l failed number (plan_of bytes.now number) }
{
    if failed::has(failed, number) {
        return None;
    }
    let plan = PlanRef {
        library: bytes,
        number: number as usize,
    };
    if plan.trigger_kind() != kind {
        return None;
    }
    let env = triggered_by(plan.trigger(), l)?;
    let search = Search {
        bytes,
        beliefs,
        rule: Rule {
            least: plan.trigger_least(),
        },
    };
    search.searched(plan.context_offset(), env)
}

// The first applicable plan in library order, with the solution that its rule keeps.
pub fn choose_plan(bytes: &[u8], beliefs: Beliefs, kind: u16, l: Literal, failed: u32) -> Selected
    ensures { result ≡ selected (choose (view beliefs) kind l failed (library_of bytes.now).plans) }
{
    let held = beliefs.as_slice();
    for number in 0..plan_count(bytes) {
        if let Some(env) = plan_solution(bytes, number, held, kind, l, failed) {
            return Selected {
                choice: Some(number),
                env,
            };
        }
    }
    Selected {
        choice: None,
        env: Env::empty(),
    }
}
