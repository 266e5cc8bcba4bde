// What comes of a read or a write, by what the system answered.
ghost use Rattle.std.specs.Prelude.{◌≡◌};
ghost use Rattle.transfer.specs.Outcome.{again_after, error_number, settled_by, OrWouldBlock};

use crate::pause;
use std::io;
use std::rt::Clock;

// The numbers that Linux gives POSIX's EINTR and EAGAIN.
const INTERRUPTED: i32 = 4;

const WOULD_BLOCK: i32 = 11;

// The system's number of an error, or 0 where the library made the error itself.
pub fn error_number(error: io::Error) -> i32
    ensures { result ≡ error_number error }
{
    error.raw_os_error().unwrap_or(0)
}

// When the call is made again.
#[derive(Clone, Copy, Debug, PartialEq, Eq)]
pub enum Retry {
    AtOnce,
    AfterPause,
}

impl Retry {
    // A call that was interrupted is made again, and so is one that would block; no other is, nor one whose error has no number.
    #[tactic(auto, unfolding(crate::specs::Outcome::again_after))]
    pub fn after(error: io::Error) -> Option<Retry>
        ensures { result ≡ again_after (error_number error) }
    {
        match error_number(error) {
            INTERRUPTED => Some(Retry::AtOnce),
            WOULD_BLOCK => Some(Retry::AfterPause),
            _ => None,
        }
    }
}

// The error of a call that is not made again; waits where it would have blocked.
pub fn settled<C: Clock>(clock: &C, error: io::Error) -> io::Result<()>
    ensures { result ≡ settled_by (again_after (error_number error)) error }
{
    match Retry::after(error) {
        Some(Retry::AtOnce) => Ok(()),
        Some(Retry::AfterPause) => {
            pause::wait(clock);
            Ok(())
        }
        None => Err(error),
    }
}

// A write that takes nothing counts as one that would block.
pub(crate) fn or_would_block(put: io::Result<usize>) -> io::Result<usize>
    ensures { OrWouldBlock put result }
{
    match put {
        Ok(0) => Err(io::Error::from_raw_os_error(WOULD_BLOCK)),
        Ok(n) => Ok(n),
        Err(error) => Err(error),
    }
}
