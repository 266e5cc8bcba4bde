// The rules for a plan, tested on its bytes. Every part begins at an offset of its own, so a struct of the bytes and an offset would be
// made anew for each of the three parts, and be no plainer than the two.
ghost use Rattle.std.specs.Prelude.{◌≡◌, ◌+◌, ◌*◌, ◌-◌, ◌<◌, ◌≤◌, ◌^◌, leb, length, IfSome};
ghost use Rattle.std.specs.Bool.{then_some};
ghost use Rattle.std.specs.List.{list_all};
ghost use Rattle.library.specs.Kinds.{deed_number};
ghost use Rattle.library.specs.Bytes.{literal_at, action_at, branch_at, items, rows, rows_end};
ghost use Rattle.library.specs.Layout.{situation_at, situation_end, actions_at, actions_end, states_at, states_end};
ghost use Rattle.library.specs.Layout.{described, plan_end, entry_off};
ghost use Rattle.accepted.specs.Rules.{at_most, situation_ok, action_ok, actions_ok, division_ok, literal_ok, branch_ok, state_ok};
ghost use Rattle.accepted.specs.Rules.{states_from, is_tree, states_ok, trigger_ok, parts_ok};
ghost use Rattle.accepted.specs.Counts.{entered, counted_in, counted};
ghost use Rattle.accepted.specs.Refusal.{plan_fits};

use library::Branch;
use library::bytes::{ACTION_BYTES, BRANCH_BYTES, LITERAL_BYTES, NEXT_STATE, branch_at, u16_at};
use library::kinds::{Deed, Trigger};
use library::plan::PlanRef;
use literal::{Literal, NEGATIVE, REMAINDER_FACTOR, VARIABLE_PAIRS, VARIABLES};

// The most alternatives of a situation, literals of an alternative, actions of a list, branches of a state.
const MOST_ITEMS: usize = 4;

const MOST_STATES: usize = 16;

// ---- Actions and branches, one by one

// Whether a number is the kind of an action: it adds or removes.
fn action_ok(kind: u16) -> bool
    ensures { result ≡ leb kind 1 }
{
    matches!(Deed::try_from(kind), Ok(Deed::Add | Deed::Remove))
}

// Whether a divide's literal names two different variables, and its third term is 0.
fn division_ok(l: Literal) -> bool
    ensures { result ≡ division_ok l }
{
    l.head < VARIABLE_PAIRS
        && l.head % REMAINDER_FACTOR != l.head / REMAINDER_FACTOR
        && l.third == 0
}

// Whether the literal is one for a branch that does this.
fn literal_ok(deed: Deed, l: Literal) -> bool
    ensures { result ≡ literal_ok (deed_number deed) l }
{
    match deed {
        Deed::Act => l.head < NEGATIVE,
        Deed::Divide => division_ok(l),
        Deed::Add | Deed::Remove | Deed::Achieve | Deed::Query => true,
    }
}

#[tactic(auto, unfolding(crate::specs::Rules::branch_ok))]
fn branch_ok(branch: Branch, count: usize, state: usize) -> bool
    ensures { result ≡ branch_ok count state branch }
{
    let Ok(deed) = Deed::try_from(branch.kind) else {
        return false;
    };
    let next = branch.next as usize;
    literal_ok(deed, branch.literal) && state < next && next < count
}

// One more branch leads to a state: two stand for all above one, and a state that has no place is passed over.
// By its index: of what is written through `get_mut` std's contract says nothing.
fn enter(counts: &mut [u8], state: usize)
    ensures { counts.new ≡ entered counts.old state }
{
    if state < counts.len() && counts[state] < 2 {
        counts[state] += 1;
    }
}

// ---- Items in a row

// So many items, or rows of them, from an offset on.
#[derive(Clone, Copy)]
struct Items<'a> {
    bytes: &'a [u8],
    from: usize,
    count: usize,
    ghost bounded: { (from < 2 ^ 60) × (count < 2 ^ 16) },
}

impl Items<'_> {
    // Past them, alternatives of at most four literals each.
    fn past_alternatives(&self) -> Option<usize>
        ensures value { let s = self.now in result ≡ then_some
            (list_all (at_most 4) (rows (literal_at s.bytes.now) s.bytes.now 8 s.count s.from))
            (rows_end s.bytes.now 8 s.count s.from) }
        ensures small { let s = self.now in IfSome result (λ end. end ≤ s.from + 34 * s.count) }
    {
        let mut at = self.from;
        for _ in 0..self.count {
            let count = u16_at(self.bytes, at) as usize;
            if MOST_ITEMS < count {
                return None;
            }
            at += 2 + LITERAL_BYTES * count;
        }
        Some(at)
    }

    // Whether they, as actions, add or remove.
    fn are_actions(&self) -> bool
        ensures { let s = self.now in result ≡ list_all action_ok (items (action_at s.bytes.now) 10 s.count s.from) }
    {
        (0..self.count).all(|i| action_ok(u16_at(self.bytes, self.from + ACTION_BYTES * i)))
    }

    // Whether they are the branches of a state, of so many states.
    fn are_branches(&self, states: usize, state: usize) -> bool
        ensures { let s = self.now in result ≡ state_ok states state (items (branch_at s.bytes.now) 12 s.count s.from) }
    {
        if MOST_ITEMS < self.count {
            return false;
        }
        (0..self.count).all(|i| branch_ok(
            branch_at(self.bytes, self.from + BRANCH_BYTES * i),
            states,
            state,
        ))
    }

    // How often they, as branches, lead to each state.
    fn enter(&self, counts: &mut [u8])
        ensures { let s = self.now in counts.new ≡ counted_in counts.old (items (branch_at s.bytes.now) 12 s.count s.from) }
    {
        for i in 0..self.count {
            let next = u16_at(self.bytes, self.from + BRANCH_BYTES * i + NEXT_STATE);
            enter(counts, next as usize);
        }
    }
}

// ---- Situations and actions

// Past a situation that keeps the rules.
fn past_situation(bytes: &[u8], at: usize) -> Option<usize>
    requires { at < 2 ^ 50 }
    ensures value { result ≡ then_some (situation_ok (situation_at bytes.now at)) (situation_end bytes.now at) }
    ensures small { IfSome result (λ end. end < at + 2 ^ 10) }
{
    let count = u16_at(bytes, at) as usize;
    if MOST_ITEMS < count {
        return None;
    }
    let alternatives = Items {
        bytes,
        from: at + 2,
        count,
    };
    alternatives.past_alternatives()
}

// Past a list of actions that keeps the rules.
fn past_actions(bytes: &[u8], at: usize) -> Option<usize>
    requires { at < 2 ^ 50 }
    ensures value { result ≡ then_some (actions_ok (actions_at bytes.now at)) (actions_end bytes.now at) }
    ensures small { IfSome result (λ end. end < at + 2 ^ 10) }
{
    let count = u16_at(bytes, at) as usize;
    let actions = Items {
        bytes,
        from: at + 2,
        count,
    };
    if MOST_ITEMS < count || !actions.are_actions() {
        return None;
    }
    Some(at + 2 + ACTION_BYTES * count)
}

// ---- States

// The states of a body: so many rows from an offset on.
#[derive(Clone, Copy)]
struct States<'a> {
    bytes: &'a [u8],
    from: usize,
    count: usize,
    ghost bounded: { (from < 2 ^ 50) × ((1 ≤ count) × (count ≤ 16)) },
}

impl States<'_> {
    // Past them, where each of them is such.
    fn past(&self) -> Option<usize>
        ensures { let s = self.now in result ≡ then_some
            (states_from s.count 0 (rows (branch_at s.bytes.now) s.bytes.now 12 s.count s.from))
            (rows_end s.bytes.now 12 s.count s.from) }
    {
        let mut at = self.from;
        for state in 0..self.count {
            let branches = Items {
                bytes: self.bytes,
                from: at + 2,
                count: u16_at(self.bytes, at) as usize,
            };
            if !branches.are_branches(self.count, state) {
                return None;
            }
            at += 2 + BRANCH_BYTES * branches.count;
        }
        Some(at)
    }

    // How often their branches lead to each state.
    fn enter(&self, counts: &mut [u8])
        ensures { let s = self.now in counts.new ≡ counted counts.old
            (rows (branch_at s.bytes.now) s.bytes.now 12 s.count s.from) }
    {
        let mut at = self.from;
        for _ in 0..self.count {
            let branches = Items {
                bytes: self.bytes,
                from: at + 2,
                count: u16_at(self.bytes, at) as usize,
            };
            branches.enter(counts);
            at += 2 + BRANCH_BYTES * branches.count;
        }
    }

    // Whether each but 0 is entered by one branch.
    fn is_tree(&self) -> bool
        ensures { let s = self.now in result ≡ is_tree (rows (branch_at s.bytes.now) s.bytes.now 12 s.count s.from) }
    {
        let mut counts = [0u8; MOST_STATES];
        self.enter(&mut counts);
        counts[1..self.count].iter().all(|found| *found == 1)
    }
}

// Past a body that keeps the rules.
fn past_states(bytes: &[u8], at: usize) -> Option<usize>
    requires { at < 2 ^ 49 }
    ensures { result ≡ then_some (states_ok (states_at bytes.now at)) (states_end bytes.now at) }
{
    let count = u16_at(bytes, at) as usize;
    if count < 1 || MOST_STATES < count {
        return None;
    }
    let states = States {
        bytes,
        from: at + 2,
        count,
    };
    let end = states.past()?;
    states.is_tree().then_some(end)
}

// ---- Plans

// Whether a plan's trigger has a kind, and a variable to choose by or none.
fn trigger_ok(plan: &PlanRef) -> bool
    ensures { result ≡ trigger_ok (described plan.now).kind (described plan.now).least }
{
    let least = plan.trigger_least() as usize;
    Trigger::try_from(plan.trigger_kind()).is_ok() && least <= VARIABLES
}

// Past the parts behind a plan's trigger, where they keep the rules.
fn past_parts(plan: &PlanRef) -> Option<usize>
    ensures { result ≡ then_some (parts_ok (described plan.now))
        (plan_end plan.now.library.now (entry_off plan.now.library.now plan.now.number)) }
{
    let maintenance = past_situation(plan.library, plan.context_offset())?;
    let success = past_situation(plan.library, maintenance)?;
    let failure = past_actions(plan.library, success)?;
    let states = past_actions(plan.library, failure)?;
    past_states(plan.library, states)
}

// Whether a plan keeps the rules and has as many bytes as its entry says.
pub(crate) fn plan_fits(plan: &PlanRef) -> bool
    ensures { result ≡ plan_fits plan.now.library.now plan.now.number }
{
    let end = plan.offset() + plan.length();
    trigger_ok(plan) && past_parts(plan) == Some(end)
}
