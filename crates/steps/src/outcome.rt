// Outcome: the waiting instance steps past its action, or is missed; turn order stays.
ghost use Rattle.std.specs.Prelude.{◌≡◌};
ghost use Rattle.library.specs.Layout.{library_of};
ghost use Rattle.steps.specs.Outcome.{told_step};

use crate::step::Step;
use belief::Beliefs;
use jobs::instance;
use model::Answer;
use moves::StackMove;
use state::{Stack, origin};

// An outcome for the top of the stack at a place, which waits for it: the action worked and it steps, or the branch is missed.
pub fn tell_at(library: &[u8], b: Beliefs, place: usize, stack: Stack, worked: bool) -> Step
    ensures { result ≡ told_step (library_of library.now) b place stack worked }
{
    let x = stack.top;
    let branch = origin::last_tried(x);
    let (top, answer) = if worked {
        let top = instance::past_branch(library, x);
        let answer = Answer::Stepped {
            instance: x.id,
            state: x.state,
            branch,
            next: top.state,
        };
        (top, answer)
    } else {
        let answer = Answer::Missed {
            instance: x.id,
            state: x.state,
            branch,
        };
        (instance::awoken(x), answer)
    };
    Step {
        stacks: StackMove::Replace(place),
        stack: Stack { top, ..stack },
        ..Step::unchanged(b, answer)
    }
}
