// The agent that a mode starts with.
ghost use Rattle.std.specs.Prelude.{◌≤◌, length, IfOk};

use crate::host::Host;
use crate::stop::{Failed, Stop};
use load::Agent;
use refusals::Refusal;
use std::rt::{Clock, Files};
use transfer::file;

impl<R: Files + Clock> Host<'_, R> {
    // How many bytes of the file are in the buffer; a file that is missing or cannot be read counts as empty.
    // One that fills the buffer is too long for a library, whatever it holds.
    pub(crate) fn read_library(&self, buf: &mut [u8]) -> Result<usize, Stop>
        ensures { IfOk result (λ n. n ≤ length buf.new) }
    {
        match file::read_file(self.rt, b"library", buf) {
            Ok(Some(n)) if n == buf.len() => Err(Stop::Refused(Refusal::Packing)),
            Ok(Some(n)) => Ok(n),
            Ok(None) => Ok(0),
            Err(error) => {
                self.say(Failed {
                    what: "canarystand: library counts as missing",
                    error,
                });
                Ok(0)
            }
        }
    }

    // From the file `library`.
    pub(crate) fn from_library(&self, buf: &mut [u8]) -> Result<Agent, Stop> {
        let n = self.read_library(buf)?;
        Ok(load::load(&buf[..n])?)
    }

    // From the file `image`, or from `library` where there is no image. A file that fills the buffer is longer than any image.
    // One that is there and cannot be read is not taken for missing: the shift's end would overwrite it.
    pub(crate) fn from_image(&self, buf: &mut [u8]) -> Result<Agent, Stop> {
        match file::read_file(self.rt, b"image", buf) {
            Ok(Some(n)) => Ok(image::restore::restore(&buf[..n])?),
            Ok(None) => self.from_library(buf),
            Err(error) => Err(Stop::Failed(Failed {
                what: "canarystand: image cannot be read",
                error,
            })),
        }
    }
}
