// What is said to an agent and what it answers, turn by turn: the program around it reads, writes and calls, and decides nothing.
#![tactic(auto)]

ghost use Rattle.std.specs.Prelude.{true, false, []};
ghost use Rattle.dialogue.specs.Dialogue.{Begins, Turns, TurnsBy};

use agent::feed;
use load::Agent;
use stream::Carry;

// What is next: another piece of input is to be read, what is left of the last one is to be answered, or nothing, since the input's
// end is answered.
#[derive(Clone, Copy, PartialEq, Eq)]
pub enum Next {
    Read,
    Answer,
    End,
}

// The agent, the line so far, how much of the last piece of input is used, how many bytes of the output the last turn wrote,
// and what is next.
#[derive(Clone, Copy)]
pub struct Dialogue {
    pub agent: Agent,
    pub carry: Carry,
    pub at: usize,
    pub wrote: usize,
    pub next: Next,
}

impl Dialogue {
    // Nothing is said yet.
    pub fn begin(agent: Agent) -> Dialogue
        ensures { Begins agent result }
    {
        Dialogue {
            agent,
            carry: stream::no_line(),
            at: 0,
            wrote: 0,
            next: Next::Read,
        }
    }

    // Both buffers are the program's, one lent to be read and one to be written: a struct of the two would be made anew for each turn.

    // What is left of a piece that a read gave.
    #[tactic(auto, using(crate::proofs::TurnLaws::piece_used, crate::proofs::TurnLaws::used_up, crate::proofs::TurnLaws::some_left))]
    fn answer_rest(&mut self, piece: &[u8], out: &mut [u8])
        ensures { TurnsBy false self.old piece.now out.old out.new self.new }
    {
        if piece.len() <= self.at {
            self.wrote = 0;
            self.next = Next::Read;
            return;
        }
        let fed = feed::feed(self.agent, self.carry, &piece[self.at..], out);
        let at = self.at + fed.read;
        *self = Dialogue {
            agent: fed.agent,
            carry: fed.carry,
            at,
            wrote: fed.wrote,
            next: if piece.len() <= at {
                Next::Read
            } else {
                Next::Answer
            },
        };
    }

    // The line that the input's end ends, as if a newline stood there.
    #[tactic(auto, using(crate::proofs::TurnLaws::end_silent, crate::proofs::TurnLaws::end_read, crate::proofs::TurnLaws::end_unread))]
    fn answer_end(&mut self, out: &mut [u8])
        ensures { TurnsBy true self.old [] out.old out.new self.new }
    {
        let Some(_) = stream::last_line(self.carry) else {
            self.wrote = 0;
            self.next = Next::End;
            return;
        };
        let fed = feed::feed(self.agent, self.carry, &[b'\n'], out);
        *self = Dialogue {
            agent: fed.agent,
            carry: fed.carry,
            at: self.at,
            wrote: fed.wrote,
            next: if fed.read == 1 { Next::End } else { Next::Read },
        };
    }

    // A turn: some of what the last read gave is answered; a read of no bytes is the input's end.
    #[tactic(auto, using(crate::proofs::TurnLaws::silent_end))]
    pub fn answer(&mut self, piece: &[u8], out: &mut [u8])
        ensures { Turns self.old piece.now out.old out.new self.new }
    {
        if piece.is_empty() {
            self.answer_end(out);
        } else {
            self.answer_rest(piece, out);
        }
    }
}
