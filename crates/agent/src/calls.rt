// The calls on an agent: a state that is not well formed is refused first.
ghost use Rattle.std.specs.Prelude.{◌≡◌};
ghost use Rattle.model.specs.State.{report, cycle, outcome};
ghost use Rattle.steps.specs.View.{Sized};
ghost use Rattle.agent.specs.Feed.{in_state};
ghost use Rattle.agent.specs.Calls.{call_of, Calls};

use crate::{Replied, respond};
use literal::Literal;
use load::Agent;
use model::{Answered, Number};
use reading::Spoken;
use state::State;

// What is told, on the agent's state, which the call then gives with the rest of the agent: so the library is copied once.
fn told(a: &Agent, s: &mut State, spoken: Spoken) -> Answered
    requires { (s.old ≡ a.now.state) × Sized a.now.state }
    ensures { Calls a.now (call_of spoken) (record { agent = in_state a.now s.new; result = result }) }
{
    let formed = formed::is_well_formed(&a.library, a.length, a.state);
    respond::run(a.bytes(), formed, s, Some(spoken))
}

// A device reports: kind 0 a belief to add, 1 to remove, 2 an event that it tells.
// The kind is a number, since a narrower type would ask more of callers: any other is refused. Kind and literal apart: the call's form.
pub fn report(a: Agent, kind: u16, l: Literal) -> Replied
    ensures { Calls a (report kind l) result }
{
    let mut state = a.state;
    let result = told(&a, &mut state, Spoken::Report { kind, literal: l });
    Replied {
        agent: Agent { state, ..a },
        result,
    }
}

// One step of the agent.
pub fn cycle(a: Agent) -> Replied
    ensures { Calls a cycle result }
{
    let mut state = a.state;
    let result = told(&a, &mut state, Spoken::Cycle);
    Replied {
        agent: Agent { state, ..a },
        result,
    }
}

// A device answers: the external action of the instance worked, or not.
pub fn outcome(a: Agent, id: Number, worked: bool) -> Replied
    ensures { Calls a (outcome id worked) result }
{
    let mut state = a.state;
    let result = told(&a, &mut state, Spoken::Outcome { id, worked });
    Replied {
        agent: Agent { state, ..a },
        result,
    }
}
