// The board by the table: a line of 72 characters for each live instance, into a lent buffer.
#![tactic(auto)]

ghost use Rattle.board.specs.Board.{Boards};

use crate::line::LINE_BYTES;
use crate::page::put_page;
use formed::is_well_formed;
use load::Agent;
use refusals::Refusal;
use state::search::live_count;

mod columns; // a number, right-aligned
mod line; // an instance's line
mod page; // the lines of all stacks

// A line for each live instance, in the first bytes of the buffer, and how many bytes they are; the others keep their values,
// and a refusal writes nothing.
#[tactic(auto, unfolding(crate::specs::Board::board_refusal))]
pub fn board(a: Agent, out: &mut [u8]) -> Result<usize, Refusal>
    ensures { Boards a out.old out.new result }
{
    let s = a.state;
    if !is_well_formed(&a.library, a.length, s) {
        return Err(Refusal::NotFormed);
    }
    let lines = live_count(s.standing());
    if out.len() < LINE_BYTES * lines {
        return Err(Refusal::BoardRoom);
    }
    let size = put_page(out, s);
    Ok(size)
}
