// The lines of standard input, each answered.
use crate::host::Host;
use crate::stop::Failed;
use dialogue::{Dialogue, Next};
use load::Agent;
use std::io;
use std::rt::Clock;

// What is said of standard input.
const INPUT: &str = "canarystand: standard input";

impl<R: Clock> Host<'_, R> {
    // Every line, answered before more input is waited for.
    // A proved loop has to end, so its turns have a number that no run uses up.
    pub(crate) fn answer_all(
        &self,
        agent: &mut Agent,
        input: &mut [u8],
        out: &mut [u8],
    ) -> Result<(), Failed> {
        let mut stdin = self.input;
        let mut d = Dialogue::begin(*agent);
        let mut n: usize = 0;
        for _ in 0..u64::MAX {
            match d.next {
                Next::End => {
                    *agent = d.agent;
                    return Ok(());
                }
                Next::Read => {
                    let read = transfer::read_some(self.rt, &mut stdin, input);
                    n = read.map_err(|error| Failed { what: INPUT, error })?;
                    d.at = 0;
                    d.next = Next::Answer;
                }
                Next::Answer => {
                    d.answer(&input[..n], out);
                    self.print(&out[..d.wrote])?;
                }
            }
        }
        Err(Failed {
            what: INPUT,
            error: io::Error::from(io::ErrorKind::TimedOut),
        })
    }
}
