// Load: the agent's own copy of the library, and its first state.
#![tactic(auto)]

ghost use Rattle.std.specs.Prelude.{◌≡◌, ◌≤◌, length, take};
ghost use Rattle.belief.specs.Beliefs.{most_beliefs};
ghost use Rattle.library.specs.Layout.{beliefs_of};
ghost use Rattle.accepted.specs.Refusal.{most_bytes};
ghost use Rattle.load.specs.Load.{bytes_of, Holds, starts_with, Loads};

use belief::{Beliefs, MOST_BELIEFS};
use model::{Event, Instance, Origin, Status};
use refusals::Refusal;
use state::{MOST_BELOW, MOST_QUEUED, MOST_STACKS, Stack, State};
use std::array;

// The largest library.
pub const MOST_BYTES: usize = 19332;

// The agent: its own copy of the library in the first `length` bytes, and its state. An array and its length: fixed memory, a named form.
#[derive(Clone, Copy)]
pub struct Agent {
    pub library: [u8; MOST_BYTES],
    pub length: usize,
    pub state: State,
}

impl Agent {
    // The library: the bytes of its array that are in use.
    pub fn bytes(&self) -> &[u8]
        ensures { result.now ≡ bytes_of self.now }
    {
        &self.library[..self.length.min(self.library.len())]
    }
}

// The bytes at the beginning of an array, zeros after them.
fn copied(library: &[u8]) -> [u8; MOST_BYTES]
    requires { length library.now ≤ most_bytes }
    ensures { (length result ≡ most_bytes) × (take (length library.now) result ≡ library.now) }
{
    let mut copy = [0u8; MOST_BYTES];
    copy[..library.len()].copy_from_slice(library);
    copy
}

// The initial beliefs of a library.
fn initial_beliefs(library: &[u8]) -> Beliefs
    requires { length (beliefs_of library.now) ≤ most_beliefs }
    ensures { Holds (beliefs_of library.now) result }
{
    Beliefs {
        items: array::from_fn(|place| library::contents::belief(library, place)),
        count: library::contents::belief_count(library) as usize,
    }
}

// A state with beliefs alone.
fn first_state(beliefs: Beliefs) -> State
    ensures { result ≡ starts_with beliefs }
{
    let nothing = library::bytes::no_literal();
    let event = Event {
        origin: Origin::External(0),
        kind: 0,
        literal: nothing,
        failed: 0,
    };
    let env = literal::Env::empty();
    let nobody = Instance {
        id: 0,
        plan: 0,
        env,
        state: 0,
        tried: 0,
        status: Status::Active,
    };
    let stack = Stack {
        top: nobody,
        below: [nobody; MOST_BELOW],
        depth: 0,
        external: 0,
    };
    State {
        beliefs,
        queue: [event; MOST_QUEUED],
        queued: 0,
        stacks: [stack; MOST_STACKS],
        stacked: 0,
        taken: 0,
        made: 0,
    }
}

// The agent of an accepted library.
pub fn load(library: &[u8]) -> Result<Agent, Refusal>
    ensures { Loads library.now result }
{
    accepted::refusal(library)?;
    let copy = copied(library);
    let beliefs = initial_beliefs(library);
    let state = first_state(beliefs);
    Ok(Agent {
        library: copy,
        length: library.len(),
        state,
    })
}
