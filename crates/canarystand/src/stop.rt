// What ends a mode before its work is done.
use refusals::Refusal;
use std::io;

// What failed, in the program's words, and why.
#[derive(Clone, Copy)]
pub(crate) struct Failed {
    pub what: &'static str,
    pub error: io::Error,
}

// A refusal, which is printed; or something that failed, which is said on standard error.
#[derive(Clone, Copy)]
pub(crate) enum Stop {
    Refused(Refusal),
    Failed(Failed),
}

impl From<Failed> for Stop {
    fn from(failed: Failed) -> Stop {
        Stop::Failed(failed)
    }
}

impl From<Refusal> for Stop {
    fn from(refusal: Refusal) -> Stop {
        Stop::Refused(refusal)
    }
}
