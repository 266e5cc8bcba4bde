// Instances and stacks in an image.
ghost use Rattle.std.specs.Prelude.{◌≡◌, ◌+◌, ◌*◌, ◌≤◌, map, length, take};
ghost use Rattle.library.specs.Bytes.{u16_at};
ghost use Rattle.writing.specs.Writing.{Wrote};
ghost use Rattle.model.specs.State.{most_stacks};
ghost use Rattle.state.specs.View.{most_below, depth_of, view_stack};
ghost use Rattle.image.specs.Form.{newest};
ghost use Rattle.image.specs.Words.{farthest};
ghost use Rattle.image.specs.StackImage.{status_code, status_of, entry_of, env_at, instance_size, instance_bytes, instance_at};
ghost use Rattle.image.specs.StackImage.{stack_size, most_stacks_size, stack_bytes, depth_at, stacks_bytes};
ghost use Rattle.image.specs.Reads.{ReadsStack, ReadsStacks};

use crate::form::Form;
use crate::reader::Reader;
use crate::words::{WORD_BYTES, put_word, put_words};
use library::bytes::u16_at;
use literal::{Env, FIRST_VARIABLE};
use model::{Instance, Status};
use state::{MOST_BELOW, MOST_STACKS, Stack};
use std::array;

// How many bytes of an instance stand before its id.
const INSTANCE_FIELDS: usize = 24;

// The stacks that were read, the first `count` of the array: memory is fixed, and it is a state's own.
#[derive(Clone, Copy)]
pub(crate) struct StackRow {
    pub items: [Stack; MOST_STACKS],
    pub count: usize,
}

// ---- Codes of a status. Status is a type of model, so a From would stand there and give every crate the numbers of an image.

fn status_code(status: Status) -> u16
    ensures { result ≡ status_code status }
{
    match status {
        Status::Active => 0,
        Status::Waiting => 1,
        Status::Suspended => 2,
    }
}

fn status_of(code: u16) -> Status
    ensures { result ≡ status_of code }
{
    match code {
        1 => Status::Waiting,
        2 => Status::Suspended,
        _ => Status::Active,
    }
}

// ---- Writing

impl Form {
    fn put_instance(self, out: &mut [u8], at: usize, x: &Instance) -> usize
        requires { at + instance_size newest ≤ length out.old }
        ensures { Wrote (instance_size newest) out.old out.new at result (instance_bytes self x.now) }
    {
        let a = put_words(out, at, &[x.plan, x.state, x.tried, status_code(x.status)]);
        let b = put_words(out, a, &x.env.terms);
        self.put_number(out, b, x.id)
    }

    // How many instances, the external event's number, and the instances with the lowest first.
    fn put_stack(self, out: &mut [u8], at: usize, stack: &Stack) -> usize
        requires { at + stack_size newest most_below ≤ length out.old }
        ensures { Wrote (stack_size newest most_below) out.old out.new at result (stack_bytes self (view_stack stack.now)) }
    {
        let below = stack.beneath();
        let head = put_word(out, at, (below.len() + 1) as u16);
        let mut o = self.put_number(out, head, stack.external);
        for x in below {
            o = self.put_instance(out, o, x);
        }
        self.put_instance(out, o, &stack.top)
    }

    // How many stacks, and them. Beside put_events: one function for both would need a clause of what each item's writer writes.
    pub(crate) fn put_stacks(self, out: &mut [u8], at: usize, stacks: &[Stack]) -> usize
        requires { (length stacks.now ≤ most_stacks) × (at + most_stacks_size ≤ length out.old) }
        ensures { Wrote most_stacks_size out.old out.new at result (stacks_bytes self (map view_stack stacks.now)) }
    {
        let mut o = put_word(out, at, stacks.len() as u16);
        for stack in stacks {
            o = self.put_stack(out, o, stack);
        }
        o
    }

    // How many bytes a stack has with so many instances below its top.
    fn stack_size(self, depth: usize) -> usize
        requires { depth ≤ most_below }
        ensures value { result ≡ stack_size self depth }
        ensures small { result ≤ stack_size newest most_below }
    {
        WORD_BYTES + INSTANCE_FIELDS * (depth + 1) + self.numbers_size(depth + 2)
    }
}

// ---- Reading

impl Reader<'_> {
    // A constant, or the variable itself.
    fn entry_at(&self, variable: u16, at: usize) -> u16
        ensures { result ≡ entry_of variable (u16_at self.now.image.now at) }
    {
        let term = u16_at(self.image, at);
        if term < FIRST_VARIABLE {
            term
        } else {
            variable
        }
    }

    fn env_at(&self, at: usize) -> Env
        requires { at + 16 ≤ farthest }
        ensures { result ≡ env_at self.now.image.now at }
    {
        Env {
            terms: array::from_fn(|i| self.entry_at(
                FIRST_VARIABLE + i as u16,
                at + WORD_BYTES * i,
            )),
        }
    }

    #[tactic(auto, unfolding(crate::specs::StackImage::instance_at))]
    fn instance_at(&self, at: usize) -> Instance
        requires { at + instance_size newest ≤ farthest }
        ensures { result ≡ instance_at self.now.form self.now.image.now at }
    {
        Instance {
            id: self.number_at(at + INSTANCE_FIELDS),
            plan: u16_at(self.image, at),
            env: self.env_at(at + 8),
            state: u16_at(self.image, at + 2),
            tried: u16_at(self.image, at + 4),
            status: status_of(u16_at(self.image, at + 6)),
        }
    }

    // The instance at a place of a stack.
    fn nth_instance(&self, first: usize, place: usize) -> Instance
        requires { (place ≤ most_below) × (first + instance_size newest * (most_below + 1) ≤ farthest) }
        ensures { result ≡ instance_at self.now.form self.now.image.now (first + instance_size self.now.form * place) }
    {
        self.instance_at(first + INSTANCE_FIELDS * place + self.form.numbers_size(place))
    }

    // One less than the height, at most MOST_BELOW.
    #[tactic(auto, unfolding(crate::specs::StackImage::depth_at))]
    fn depth_at(&self, at: usize) -> usize
        ensures value { result ≡ depth_at self.now.image.now at }
        ensures small { result ≤ most_below }
    {
        let height = u16_at(self.image, at) as usize;
        height.saturating_sub(1).min(MOST_BELOW)
    }

    // Every place below the top is read; those past the depth are no part of the stack.
    fn stack_at(&self, at: usize) -> Stack
        requires { at + stack_size newest most_below ≤ farthest }
        ensures { ReadsStack self.now.form self.now.image.now at result }
    {
        let depth = self.depth_at(at);
        let first = at + WORD_BYTES + self.form.numbers_size(1);
        Stack {
            top: self.nth_instance(first, depth),
            below: array::from_fn(|place| self.nth_instance(first, place)),
            depth,
            external: self.number_at(at + WORD_BYTES),
        }
    }

    pub(crate) fn stacks_at(&self, at: usize) -> StackRow
        requires { at + most_stacks_size ≤ farthest }
        ensures { ReadsStacks self.now.form self.now.image.now at result }
    {
        let count = (u16_at(self.image, at) as usize).min(MOST_STACKS);
        let mut o = at + WORD_BYTES;
        let mut items = [self.stack_at(o); MOST_STACKS];
        for item in items[..count].iter_mut() {
            *item = self.stack_at(o);
            o += self.form.stack_size(item.depth);
        }
        StackRow { items, count }
    }
}
