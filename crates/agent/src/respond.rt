// What a line or a call gives: a look first, then what moves the state.
ghost use Rattle.std.specs.Prelude.{◌≡◌};
ghost use Rattle.reading.specs.Spoken.{meaning};
ghost use Rattle.steps.specs.View.{Sized};
ghost use Rattle.steps.specs.Step.{applied};
ghost use Rattle.agent.specs.Feed.{Trusted, Responds};
ghost use Rattle.agent.specs.Look.{Looks};

use crate::look::Look;
use crate::turn::Turn;
use crate::{cycle, look};
use model::Answered;
use reading::Spoken;
use state::State;
use steps::report::{Listener, Report};
use steps::step::Step;
use steps::{answer, outcome};

// Library, state and what is told are parameters: a step changes the state alone, and a struct of them would be made anew for each line.

// What the look at a line told is done.
fn act(library: &[u8], formed: bool, s: &State, spoken: Option<Spoken>, look: Look) -> Step
    requires { Trusted formed library.now s.now × (Looks formed s.now (meaning spoken) look × Sized s.now) }
    ensures { Responds library.now formed s.now (meaning spoken) (applied s.now result) }
{
    // A `match`: in the place of a look, which is a value (Looks), a step to run would be a function pointer or a boxed closure.
    match look {
        Look::Answered(answer) => Step::unchanged(s.beliefs, answer),
        Look::Reports { kind, literal } => {
            let listener = Listener {
                beliefs: &s.beliefs,
                events: s.events(),
                taken: s.taken,
            };
            listener.hear(Report { kind, literal })
        }
        Look::Searches => cycle::cycle_on(library, s),
        Look::Turns(place) => {
            let turn = Turn {
                library,
                beliefs: s.beliefs,
                place,
                stack: s.stacks[place],
            };
            turn.step()
        }
        Look::Tells { place, worked } => {
            outcome::tell_at(library, s.beliefs, place, s.stacks[place], worked)
        }
    }
}

// The step that a look told, made on the state. By itself and not inlined: a line that the look answers need not set up a step's 928 bytes.
#[inline(never)]
pub(crate) fn moved(
    library: &[u8],
    formed: bool,
    s: &mut State,
    spoken: Option<Spoken>,
    look: Look,
) -> Answered
    requires { Trusted formed library.now s.old × (Looks formed s.old (meaning spoken) look × Sized s.old) }
    ensures responds { Responds library.now formed s.old (meaning spoken) (record { state = s.new; result = result }) }
    ensures sized { Sized s.new }
{
    let step = act(library, formed, s, spoken, look);
    step.apply(s);
    step.result()
}

// A line on a state, by whether the state is well formed: the result, and the state after it.
pub(crate) fn run(library: &[u8], formed: bool, s: &mut State, spoken: Option<Spoken>) -> Answered
    requires { Trusted formed library.now s.old × Sized s.old }
    ensures responds { Responds library.now formed s.old (meaning spoken) (record { state = s.new; result = result }) }
    ensures sized { Sized s.new }
{
    let look = look::look_at(formed, s, spoken);
    if let Look::Answered(answer) = look {
        return answer::plain_result(answer);
    }
    moved(library, formed, s, spoken, look)
}
