// Results without changes.
ghost use Rattle.std.specs.Prelude.{◌≡◌};
ghost use Rattle.steps.specs.View.{plain};

use model::{Answer, Answered, MOST_CHANGES};
use trials::changes;

// An answer with no changes.
pub fn plain_result(answer: Answer) -> Answered
    ensures { result ≡ plain answer }
{
    Answered {
        answer,
        changes: [changes::no_change(); MOST_CHANGES],
        count: 0,
    }
}
