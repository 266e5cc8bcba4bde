// The program: the journal of the file "library" of its folder, or what the words behind its name ask for.
#![tactic(auto)]

mod host; // what the program has of its host
mod keep; // the agent kept for the next shift
mod lines; // the input's lines, answered
mod replace; // a file replaced as a whole
mod start; // the agent that a mode starts with
mod stop; // what ends a mode
mod words; // the words behind the program's name

use command::Mode;
use host::Host;
use std::rt::{Clock, Files};
use stop::{Failed, Stop};
use transfer::BUFFER;

// The program at work: what it has of its host, what is read, and what is written.
#[derive(Drop)]
struct Program<'a, R> {
    host: Host<'a, R>,
    input: [u8; BUFFER],
    out: [u8; BUFFER],
}

impl<R: Files + Clock> Program<'_, R> {
    // ---- The modes

    fn answer_journal(&mut self) -> Result<(), Stop> {
        let mut agent = self.host.from_library(&mut self.input)?;
        self.host
            .answer_all(&mut agent, &mut self.input, &mut self.out)?;
        Ok(())
    }

    // As the journal, from image to image. Where the input was not read to its end, or an answer not written, the old image stands:
    // with the stored input it brings the agent back.
    fn answer_shift(&mut self) -> Result<(), Stop> {
        let mut agent = self.host.from_image(&mut self.input)?;
        self.host
            .answer_all(&mut agent, &mut self.input, &mut self.out)?;
        keep::save_image(self.host.rt, agent, &mut self.out)?;
        Ok(())
    }

    // The board of the agent that a shift would start with.
    fn answer_board(&mut self) -> Result<(), Stop> {
        let agent = self.host.from_image(&mut self.input)?;
        let size = board::board(agent, &mut self.out)?;
        self.host.print(&self.out[..size])?;
        Ok(())
    }

    // After how many lists of answers the plan has just succeeded, and just failed.
    fn answer_endings(&mut self, plan: u16, length: u16) -> Result<(), Stop> {
        let n = self.host.read_library(&mut self.input)?;
        let library = &self.input[..n];
        let counts = endings::endings_of(library, plan as usize, length as usize)?;
        let m = printing::print_pair(&mut self.out, 0, counts.succeeded, counts.failed);
        self.host.print(&self.out[..m])?;
        Ok(())
    }

    fn answer_mode(&mut self, mode: Option<Mode>) -> Result<(), Stop> {
        match mode {
            Some(Mode::Journal) => self.answer_journal(),
            Some(Mode::Shift) => self.answer_shift(),
            Some(Mode::Board) => self.answer_board(),
            Some(Mode::Endings { plan, length }) => self.answer_endings(plan, length),
            None => {
                self.host.say_usage();
                Ok(())
            }
        }
    }

    // A refusal is printed.
    fn answer(&mut self, mode: Option<Mode>) -> Result<(), Failed> {
        match self.answer_mode(mode) {
            Err(Stop::Refused(refusal)) => self.host.print_refusal(refusal, &mut self.out),
            Err(Stop::Failed(failed)) => Err(failed),
            Ok(()) => Ok(()),
        }
    }
}

fn main(rt: HostRuntime) {
    let host = Host {
        rt: &rt,
        input: rt.stdin(),
        output: rt.stdout(),
        errors: rt.stderr(),
    };
    let mut program = Program {
        host,
        input: [0u8; BUFFER],
        out: [0u8; BUFFER],
    };
    let mode = words::asked_mode(&rt);
    if let Err(failed) = program.answer(mode) {
        program.host.say(failed);
    }
}
