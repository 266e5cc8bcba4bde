// Live instances: their place in the plan, and all of them as one flat array.
#![tactic(auto)]

ghost use Rattle.std.specs.Prelude.{◌≡◌, map, take};
ghost use Rattle.model.specs.Live.{live};
ghost use Rattle.model.specs.State.{most_stacks};
ghost use Rattle.state.specs.View.{view_stack};
ghost use Rattle.jobs.specs.Jobs.{job_of, no_job, flat, view_jobs};

use model::{Instance, Origin, Status};
use state::origin::goal_of;
use state::{MOST_STACKS, Stack};

pub mod decision; // what an instance does at its turn
pub mod instance; // an instance moves on
pub mod place; // what an instance's plan says at its place

// An instance and what tells the event that it serves.
#[derive(Clone, Copy)]
pub struct Job {
    pub instance: Instance,
    pub origin: Origin,
}

// At most this many instances are live: eight stacks of eight.
pub const MOST_JOBS: usize = 64;

// The first `count` items are the live instances. An array with a count, since memory is fixed.
#[derive(Clone, Copy)]
pub struct Jobs {
    pub items: [Job; MOST_JOBS],
    pub count: usize,
}

impl Jobs {
    // The live instances.
    pub fn as_slice(&self) -> &[Job]
        ensures { map job_of result.now ≡ view_jobs self.now }
    {
        &self.items[..self.count.min(MOST_JOBS)]
    }
}

// ---- All live instances

fn no_job() -> Job
    ensures { result ≡ no_job }
{
    Job {
        instance: Instance {
            id: 0,
            plan: 0,
            env: literal::Env::empty(),
            state: 0,
            tried: 0,
            status: Status::Active,
        },
        origin: Origin::External(0),
    }
}

// The live instances of the first stacks, each stack from the top down, and the event that each serves:
// the goal of the one below, or the stack's external event.
pub fn live_jobs(stacks: &[Stack]) -> Jobs
    ensures { result ≡ flat (live (map view_stack (take most_stacks stacks.now))) }
{
    let mut items = [no_job(); MOST_JOBS];
    let mut count: usize = 0;
    for stack in &stacks[..stacks.len().min(MOST_STACKS)] {
        let mut x = stack.top;
        for poster in stack.beneath().iter().rev() {
            let origin = goal_of(*poster);
            let job = Job {
                instance: x,
                origin,
            };
            count = lists::append(&mut items, count, job);
            x = *poster;
        }
        let origin = Origin::External(stack.external);
        let job = Job {
            instance: x,
            origin,
        };
        count = lists::append(&mut items, count, job);
    }
    Jobs { items, count }
}
