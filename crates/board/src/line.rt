// The line of an instance.
ghost use Rattle.std.specs.Prelude.{◌≡◌, ◌∷◌, [], ◌++◌, map, ◌+◌, ◌≤◌, length};
ghost use Rattle.lists.specs.Counts.{each};
ghost use Rattle.writing.specs.Writing.{Wrote};
ghost use Rattle.board.specs.Page.{status_letter, number, letter, entry, aligned, after, line_text, line_bytes};

use crate::columns::{put, put_after, put_number};
use literal::{FIRST_VARIABLE, VARIABLES};
use model::{Instance, Status};

// How many columns an id has, a plan or a state, and a variable.
const ID: usize = 10;

const PLAN: usize = 2;

const STATE: usize = 2;

const ENTRY: usize = 5;

// What stands for an entry where nothing is bound, with the space before it.
const UNBOUND: [u8; 6] = *b"     -";

// How many bytes a line has: 72 characters and a newline.
pub(crate) const LINE_BYTES: usize = 73;

// Each part asks for room for its own length: that two or three have the same length is chance, and no one fact of theirs.

// The number of the stack and the height on it.
fn put_place(out: &mut [u8], at: usize, stack: u32, height: u32) -> usize
    requires { at + 3 ≤ length out.old }
    ensures { Wrote 3 out.old out.new at result (aligned (number 1 stack) ++ after (number 1 height)) }
{
    let a = put_number(out, at, 1, stack);
    put_after(out, a, 1, height)
}

fn letter_of(status: Status) -> u8
    ensures { result ≡ status_letter status }
{
    match status {
        Status::Active => b'A',
        Status::Waiting => b'W',
        Status::Suspended => b'S',
    }
}

// A space and the letter of a status.
#[tactic(auto, using(writing::proofs::WritingLaws::then, writing::proofs::WritingLaws::written, crate::proofs::ColumnLaws::status_text))]
fn put_status(out: &mut [u8], at: usize, status: Status) -> usize
    requires { at + 2 ≤ length out.old }
    ensures { Wrote 2 out.old out.new at result (after (letter status)) }
{
    let byte = letter_of(status);
    let a = put(out, at, b' ');
    put(out, a, byte)
}

// How far an instance has come: its id, plan, state, tried branches and status, a space before each.
fn put_progress(out: &mut [u8], at: usize, x: Instance) -> usize
    requires { at + 21 ≤ length out.old }
    ensures { Wrote 21 out.old out.new at result (each after
        (number 10 x.id ∷ number 2 x.plan ∷ number 2 x.state ∷ number 1 x.tried ∷ letter x.status ∷ [])) }
{
    let status = x.status;
    let a = put_after(out, at, ID, x.id);
    let b = put_after(out, a, PLAN, x.plan as u32);
    let c = put_after(out, b, STATE, x.state as u32);
    let d = put_after(out, c, 1, x.tried as u32);
    put_status(out, d, status)
}

// Four spaces and a hyphen, after a space: nothing is bound.
fn put_unbound(out: &mut [u8], at: usize) -> usize
    requires { at + 6 ≤ length out.old }
    ensures { Wrote 6 out.old out.new at result (32 ∷ 32 ∷ 32 ∷ 32 ∷ 32 ∷ 45 ∷ []) }
{
    let next = at + UNBOUND.len();
    out[at..next].copy_from_slice(&UNBOUND);
    next
}

// A space and a variable's entry.
#[tactic(auto, using(crate::proofs::ColumnLaws::entries))]
fn put_entry(out: &mut [u8], at: usize, term: u16) -> usize
    requires { at + 6 ≤ length out.old }
    ensures { Wrote 6 out.old out.new at result (after (entry term)) }
{
    if term < FIRST_VARIABLE {
        return put_after(out, at, ENTRY, term as u32);
    }
    put_unbound(out, at)
}

// The entries of all variables, a space before each.
fn put_entries(out: &mut [u8], at: usize, terms: [u16; VARIABLES]) -> usize
    requires { at + 48 ≤ length out.old }
    ensures { Wrote 48 out.old out.new at result (each after (map entry terms)) }
{
    let mut o = at;
    for term in &terms {
        o = put_entry(out, o, *term);
    }
    o
}

// The line of an instance at a height of a stack.
pub(crate) fn put_line(out: &mut [u8], at: usize, stack: u32, height: u32, x: Instance) -> usize
    requires { at + line_bytes ≤ length out.old }
    ensures { Wrote line_bytes out.old out.new at result
        (line_text (record { stack = stack; height = height; instance = x })) }
{
    let env = x.env;
    let terms = env.terms;
    let a = put_place(out, at, stack, height);
    let b = put_progress(out, a, x);
    let c = put_entries(out, b, terms);
    put(out, c, b'\n')
}
