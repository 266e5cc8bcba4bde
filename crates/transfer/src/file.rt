// A file as a whole, read into a buffer.
ghost use Rattle.std.specs.Prelude.{◌≡◌};
ghost use Rattle.transfer.specs.Content.{Holds, HoldsAll};
ghost use Rattle.transfer.specs.Opened.{opened_by};

use crate::outcome::error_number;
use std::io::Read;
use std::rt::{Clock, Files};
use std::{fs, io, str};

// The number that Linux gives POSIX's EINVAL.
const INVALID: i32 = 22;

// The number that Linux gives POSIX's ENOENT.
const NO_SUCH_FILE: i32 = 2;

// The file, or `None` where there is none, by what the system answered.
#[tactic(auto, unfolding(crate::specs::Opened::not_opened))]
fn opened_by<F: Drop>(answer: io::Result<F>) -> io::Result<Option<F>>
    ensures { result ≡ opened_by answer }
{
    match answer {
        Ok(file) => Ok(Some(file)),
        Err(error) => match error_number(error) {
            NO_SUCH_FILE => Ok(None),
            _ => Err(error),
        },
    }
}

// How many bytes of a file that is open are read: all of them, or as many as the buffer holds.
fn read_open<C: Clock, F: Read>(
    clock: &C,
    file: &mut F,
    buf: &mut [u8],
) -> io::Result<Option<usize>>
    ensures count { Holds result buf.new }
    ensures bytes { HoldsAll result (F.remaining file.old) (F.remaining file.new) buf.new }
{
    let n = crate::read_full(clock, file, buf)?;
    Ok(Some(n))
}

// How many of the file's bytes are read, as many as the buffer holds; or `None` where there is no such file.
// A path that is no UTF-8 text names no file that can be opened.
pub fn read_file<R: Files + Clock>(rt: &R, path: &[u8], buf: &mut [u8]) -> io::Result<Option<usize>>
    ensures { Holds result buf.new }
{
    let Ok(name) = str::from_utf8(path) else {
        return Err(io::Error::from_raw_os_error(INVALID));
    };
    let Some(mut file) = opened_by(fs::open(rt, name))? else {
        return Ok(None);
    };
    read_open(rt, &mut file, buf)
}
