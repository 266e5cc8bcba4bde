// A chunk of the journal: its lines are run one after the other. The well-formed test is made once, and what it shows is kept.
ghost use Rattle.std.specs.Prelude.{◌≡◌};
ghost use Rattle.agent.specs.Feed.{Feeds};

use crate::look::Look;
use crate::{look, respond};
use load::Agent;
use printing::MOST_LINE;
use steps::answer;
use stream::Carry;

// The agent and the line so far after a chunk, how much of the chunk was read and how much of the output written.
#[derive(Clone, Copy)]
pub struct Fed {
    pub agent: Agent,
    pub carry: Carry,
    pub read: usize,
    pub wrote: usize,
}

// A chunk of input: each line that ends in it is run, and its answer written, as long as the output has room for the longest line.
pub fn feed(a: Agent, carry: Carry, chunk: &[u8], out: &mut [u8]) -> Fed
    ensures { Feeds a carry chunk.now out.old out.new result }
{
    let formed = formed::is_well_formed(&a.library, a.length, a.state);
    let library = a.bytes();
    let mut state = a.state;
    let mut held = carry;
    let mut read: usize = 0;
    let mut wrote: usize = 0;
    // No `for`: a turn goes on by as many bytes as the line has.
    while read < chunk.len() && MOST_LINE <= out.len() - wrote {
        let Some(line) = stream::next_line(chunk, read, held) else {
            return Fed {
                agent: Agent { state, ..a },
                carry: stream::carried(chunk, read, held),
                read: chunk.len(),
                wrote,
            };
        };
        held = stream::no_line();
        read = line.at;
        let look = look::look_at(formed, &state, line.call);
        // Printed where it is made: a result that a function hands on is copied twice, and such a line took 1.8 times as long.
        if let Look::Answered(answer) = look {
            wrote = printing::print_result(out, wrote, answer::plain_result(answer));
            continue;
        }
        let result = respond::moved(library, formed, &mut state, line.call, look);
        wrote = printing::print_result(out, wrote, result);
    }
    Fed {
        agent: Agent { state, ..a },
        carry: held,
        read,
        wrote,
    }
}
