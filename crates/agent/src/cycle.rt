// Cycle: a pending event is taken up, else a stack has its turn, else the agent is idle.
ghost use Rattle.library.specs.Layout.{library_of};
ghost use Rattle.model.specs.Cycle.{cycled};
ghost use Rattle.state.specs.View.{view_state};
ghost use Rattle.steps.specs.View.{Sized};
ghost use Rattle.steps.specs.Gives.{Gives};
ghost use Rattle.steps.specs.Step.{applied};
ghost use Rattle.formed.specs.Formed.{WellFormedState};

use crate::event::TakeUp;
use crate::turn::Turn;
use model::Answer;
use state::{State, search};
use steps::step::Step;

// One cycle, on a well-formed state of an accepted library; the two are lent apart, as the agent that holds them is lent in parts.
pub(crate) fn cycle_on(library: &[u8], s: &State) -> Step
    requires { WellFormedState library.now s.now × Sized s.now }
    ensures { Gives s.now (cycled (library_of library.now) (view_state s.now)) (applied s.now result) }
{
    if let Some(place) = search::next_event(s.events(), s.standing()) {
        let taken = TakeUp {
            library,
            beliefs: s.beliefs,
            made: s.made,
            stacks: s.standing(),
            place,
            event: s.queue[place],
        };
        return taken.step();
    }
    if let Some(place) = search::next_stack(s.standing()) {
        let turn = Turn {
            library,
            beliefs: s.beliefs,
            place,
            stack: s.stacks[place],
        };
        return turn.step();
    }
    Step::unchanged(s.beliefs, Answer::Idle)
}
