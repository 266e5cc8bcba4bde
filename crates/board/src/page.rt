// The lines of all stacks.
ghost use Rattle.std.specs.Prelude.{◌∷◌, ◌+◌, ◌*◌, ◌≤◌, length};
ghost use Rattle.lists.specs.Counts.{each};
ghost use Rattle.writing.specs.Writing.{Wrote};
ghost use Rattle.state.specs.View.{depth_of, view_stack, view_stacks};
ghost use Rattle.board.specs.Page.{line_text, line_bytes, rows_on, rows_of, page_of};

use crate::line::put_line;
use state::{Stack, State};

// The lines of a stack, its number in turn order given: the bottom first, the height from 1.
fn put_stack(out: &mut [u8], at: usize, number: u32, stack: &Stack) -> usize
    requires { at + line_bytes * (depth_of stack.now + 1) ≤ length out.old }
    ensures { Wrote (line_bytes * (depth_of stack.now + 1)) out.old out.new at result
        (each line_text (rows_on number (stack.now.top ∷ (view_stack stack.now).below))) }
{
    let n = stack.depth();
    let mut o = at;
    for (i, x) in stack.beneath().iter().enumerate() {
        o = put_line(out, o, number, (i + 1) as u32, *x);
    }
    put_line(out, o, number, (n + 1) as u32, stack.top)
}

// The lines of all stacks in turn order, numbered from 1.
pub(crate) fn put_page(out: &mut [u8], s: State) -> usize
    requires { line_bytes * length (rows_of (view_stacks s)) ≤ length out.old }
    ensures { Wrote (length out.old) out.old out.new 0 result (page_of (view_stacks s)) }
{
    let mut o: usize = 0;
    for (i, stack) in s.standing().iter().enumerate() {
        o = put_stack(out, o, (i + 1) as u32, stack);
    }
    o
}
