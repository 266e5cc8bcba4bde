// What the program has of its host: the system's calls, and the streams that are open from the start.
use crate::stop::Failed;
use model::Answer;
use refusals::Refusal;
use std::io::{Stderr, Stdin, Stdout};
use std::rt::Clock;
use steps::answer;
use transfer::why::say_why;

// Each stream is a number of the system's, so a copy is the same stream.
#[derive(Drop)]
pub(crate) struct Host<'a, R> {
    pub rt: &'a R,
    pub input: Stdin,
    pub output: Stdout,
    pub errors: Stderr,
}

impl<R: Clock> Host<'_, R> {
    // A line on standard error that says what failed and why.
    pub(crate) fn say(&self, failed: Failed) {
        let mut errors = self.errors;
        say_why(&mut errors, failed.what.as_bytes(), failed.error);
    }

    pub(crate) fn say_usage(&self) {
        let mut errors = self.errors;
        let usage = b"usage: canarystand [shift | board | endings PLAN N]\n";
        let _ = transfer::write_all(self.rt, &mut errors, usage);
    }

    // Writes to standard output.
    pub(crate) fn print(&self, bytes: &[u8]) -> Result<(), Failed> {
        let mut output = self.output;
        let written = transfer::write_all(self.rt, &mut output, bytes);
        written.map_err(|stopped| Failed {
            what: "canarystand: standard output",
            error: stopped.error,
        })
    }

    pub(crate) fn print_refusal(&self, refusal: Refusal, out: &mut [u8]) -> Result<(), Failed> {
        let refused = answer::plain_result(Answer::Refused(u16::from(refusal)));
        let n = printing::print_result(out, 0, refused);
        self.print(&out[..n])
    }
}
