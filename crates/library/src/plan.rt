// A plan of a library and its parts. Each reader is total: on bytes off the layout it reads what stands where the part would.
ghost use Rattle.std.specs.Prelude.{◌≡◌, [], ◌+◌, ◌*◌, ◌<◌, ◌≤◌, ◌^◌, length, get_or};
ghost use Rattle.library.specs.Plan.{no_action, no_branch};
ghost use Rattle.library.specs.Bytes.{u16_at, rows_end};
ghost use Rattle.library.specs.Layout.{situation_end, actions_at, actions_end, states_at, described, entry_off, entry_length};
ghost use Rattle.library.specs.Layout.{context_off, maintenance_off, success_off, failure_off, states_off};

use super::bytes::{
    ACTION_BYTES, BRANCH_BYTES, LITERAL_BYTES, action_at, branch_at, literal_at, no_action,
    no_branch, u16_at,
};
use super::contents::{ENTRY_BYTES, HEADER_BYTES};
use super::{Action, Branch};
use literal::Literal;

// How many bytes a plan's trigger has: its kind and its literal.
const TRIGGER_BYTES: usize = 10;

// A trigger's kind field is its kind, with this many times v + 1 added where the least value of Vv chooses.
const LEAST_FACTOR: u16 = 16;

// ---- Parts

// The offset past n rows of items of `width` bytes.
fn rows_end(bytes: &[u8], from: usize, n: usize, width: usize) -> usize
    requires { (from < 2 ^ 60) × ((n < 2 ^ 16) × (width ≤ 12)) }
    ensures value { result ≡ rows_end bytes.now width n from }
    ensures small { result ≤ from + 786422 * n }
{
    let mut at = from;
    for _ in 0..n {
        at += 2 + width * u16_at(bytes, at) as usize;
    }
    at
}

// A part of a plan, where it begins: its number of items or rows, then they. The parts of every plan begin below 2 ^ 40.
#[derive(Clone, Copy)]
struct Part<'a> {
    bytes: &'a [u8],
    at: usize,
    ghost bounded: { at < 2 ^ 40 },
}

impl Part<'_> {
    // How many items or rows it has.
    fn count(&self) -> u16
        ensures { result ≡ u16_at self.now.bytes.now self.now.at }
    {
        u16_at(self.bytes, self.at)
    }

    // Past it where it is a situation.
    #[tactic(auto, unfolding(crate::specs::Layout::situation_end))]
    fn situation_end(&self) -> usize
        ensures value { result ≡ situation_end self.now.bytes.now self.now.at }
        ensures small { result < self.now.at + 2 ^ 36 }
    {
        rows_end(
            self.bytes,
            self.at + 2,
            self.count() as usize,
            LITERAL_BYTES,
        )
    }

    // Past it where it is a list of actions.
    #[tactic(auto, unfolding(crate::specs::Layout::actions_end))]
    fn actions_end(&self) -> usize
        ensures value { result ≡ actions_end self.now.bytes.now self.now.at }
        ensures small { result < self.now.at + 2 ^ 36 }
    {
        self.at + 2 + ACTION_BYTES * self.count() as usize
    }

    // An action of the list.
    fn action(&self, place: usize) -> Action
        ensures { result ≡ get_or (actions_at self.now.bytes.now self.now.at) place no_action }
    {
        if self.count() as usize <= place {
            return no_action();
        }
        action_at(self.bytes, self.at + 2 + ACTION_BYTES * place)
    }

    // The number of branches of a state of the body.
    fn branch_count(&self, state: usize) -> u16
        ensures { result ≡ length (get_or (states_at self.now.bytes.now self.now.at) state []) }
    {
        if self.count() as usize <= state {
            return 0;
        }
        let row = rows_end(self.bytes, self.at + 2, state, BRANCH_BYTES);
        u16_at(self.bytes, row)
    }

    // A branch of a state of the body.
    fn branch(&self, state: usize, place: usize) -> Branch
        ensures { result ≡ get_or (get_or (states_at self.now.bytes.now self.now.at) state []) place no_branch }
    {
        if self.count() as usize <= state {
            return no_branch();
        }
        let row = rows_end(self.bytes, self.at + 2, state, BRANCH_BYTES);
        let count = u16_at(self.bytes, row) as usize;
        if count <= place {
            return no_branch();
        }
        branch_at(self.bytes, row + 2 + BRANCH_BYTES * place)
    }
}

// ---- A plan

// A plan of a library, by its number; where the library has none of that number, what its entry would name.
#[derive(Clone, Copy)]
pub struct PlanRef<'a> {
    pub library: &'a [u8],
    pub number: usize,
}

impl PlanRef<'_> {
    // ---- Entry

    // A number of the plan's entry, `place` bytes behind its beginning.
    fn entry_number(&self, place: usize) -> u16
        requires { place < 4 }
        ensures { result ≡ u16_at self.now.library.now (4 + 4 * self.now.number + place) }
    {
        if self.library.len() / ENTRY_BYTES <= self.number {
            return 0;
        }
        u16_at(
            self.library,
            HEADER_BYTES + ENTRY_BYTES * self.number + place,
        )
    }

    // Where the plan stands, by its entry.
    pub fn offset(&self) -> usize
        ensures value { result ≡ entry_off self.now.library.now self.now.number }
        ensures small { result < 2 ^ 16 }
    {
        self.entry_number(0) as usize
    }

    // How many bytes the plan has, by its entry.
    pub fn length(&self) -> usize
        ensures value { result ≡ entry_length self.now.library.now self.now.number }
        ensures small { result < 2 ^ 16 }
    {
        self.entry_number(2) as usize
    }

    // Its part at an offset.
    fn part(&self, at: usize) -> Part<'_>
        requires { at < 2 ^ 40 }
        ensures { (result.bytes.now ≡ self.now.library.now) × (result.at ≡ at) }
    {
        Part {
            bytes: self.library,
            at,
        }
    }

    // ---- Trigger, context and maintenance

    // The trigger's kind with its mark.
    fn trigger_field(&self) -> u16
        ensures { result ≡ u16_at self.now.library.now (entry_off self.now.library.now self.now.number) }
    {
        u16_at(self.library, self.offset())
    }

    // A number, since any can stand there: where code decides by it, `Trigger::try_from` names it.
    #[tactic(auto, unfolding(crate::specs::Layout::plan_at))]
    pub fn trigger_kind(&self) -> u16
        ensures { result ≡ (described self.now).kind }
    {
        self.trigger_field() % LEAST_FACTOR
    }

    // Which variable's least value chooses a solution: v + 1 for Vv; 0 where the first is used. A number, as the library has it.
    #[tactic(auto, unfolding(crate::specs::Layout::plan_at))]
    pub fn trigger_least(&self) -> u16
        ensures { result ≡ (described self.now).least }
    {
        self.trigger_field() / LEAST_FACTOR
    }

    #[tactic(auto, unfolding(crate::specs::Layout::plan_at))]
    pub fn trigger(&self) -> Literal
        ensures { result ≡ (described self.now).trigger }
    {
        literal_at(self.library, self.offset() + 2)
    }

    // Where the context stands, a situation.
    pub fn context_offset(&self) -> usize
        ensures value { result ≡ context_off (entry_off self.now.library.now self.now.number) }
        ensures small { result < 2 ^ 17 }
    {
        self.offset() + TRIGGER_BYTES
    }

    // Where the maintenance stands, a situation.
    #[tactic(auto, unfolding(crate::specs::Layout::maintenance_off))]
    pub fn maintenance_offset(&self) -> usize
        ensures value { result ≡ maintenance_off self.now.library.now (entry_off self.now.library.now self.now.number) }
        ensures small { result < 2 ^ 37 }
    {
        self.part(self.context_offset()).situation_end()
    }

    // ---- Success and failure lists: each method one line, so that a parameter for the list would be no plainer

    // Where the success list stands.
    #[tactic(auto, unfolding(crate::specs::Layout::success_off))]
    pub fn success_offset(&self) -> usize
        ensures value { result ≡ success_off self.now.library.now (entry_off self.now.library.now self.now.number) }
        ensures small { result < 2 ^ 38 }
    {
        self.part(self.maintenance_offset()).situation_end()
    }

    // Where the failure list stands.
    #[tactic(auto, unfolding(crate::specs::Layout::failure_off))]
    pub fn failure_offset(&self) -> usize
        ensures value { result ≡ failure_off self.now.library.now (entry_off self.now.library.now self.now.number) }
        ensures small { result < 2 ^ 39 }
    {
        self.part(self.success_offset()).actions_end()
    }

    pub fn success_count(&self) -> u16
        ensures { result ≡ length (described self.now).success }
    {
        u16_at(self.library, self.success_offset())
    }

    #[tactic(auto, unfolding(crate::specs::Layout::plan_at))]
    pub fn success_action(&self, place: usize) -> Action
        ensures { result ≡ get_or (described self.now).success place no_action }
    {
        self.part(self.success_offset()).action(place)
    }

    pub fn failure_count(&self) -> u16
        ensures { result ≡ length (described self.now).failure }
    {
        u16_at(self.library, self.failure_offset())
    }

    #[tactic(auto, unfolding(crate::specs::Layout::plan_at))]
    pub fn failure_action(&self, place: usize) -> Action
        ensures { result ≡ get_or (described self.now).failure place no_action }
    {
        self.part(self.failure_offset()).action(place)
    }

    // ---- States and branches

    // Where the states stand.
    #[tactic(auto, unfolding(crate::specs::Layout::states_off))]
    pub fn states_offset(&self) -> usize
        ensures value { result ≡ states_off self.now.library.now (entry_off self.now.library.now self.now.number) }
        ensures small { result < 2 ^ 40 }
    {
        self.part(self.failure_offset()).actions_end()
    }

    pub fn state_count(&self) -> u16
        ensures { result ≡ length (described self.now).states }
    {
        u16_at(self.library, self.states_offset())
    }

    #[tactic(auto, unfolding(crate::specs::Layout::plan_at))]
    pub fn branch_count(&self, state: usize) -> u16
        ensures { result ≡ length (get_or (described self.now).states state []) }
    {
        self.part(self.states_offset()).branch_count(state)
    }

    #[tactic(auto, unfolding(crate::specs::Layout::plan_at))]
    pub fn branch(&self, state: usize, place: usize) -> Branch
        ensures { result ≡ get_or (get_or (described self.now).states state []) place no_branch }
    {
        self.part(self.states_offset()).branch(state, place)
    }
}
