// The queue in an image.
ghost use Rattle.std.specs.Prelude.{◌≡◌, ◌+◌, ◌*◌, ◌<◌, ◌≤◌, length};
ghost use Rattle.library.specs.Bytes.{items};
ghost use Rattle.model.specs.State.{most_queued};
ghost use Rattle.writing.specs.Writing.{Wrote};
ghost use Rattle.image.specs.Form.{newest};
ghost use Rattle.image.specs.Words.{word_size, farthest};
ghost use Rattle.image.specs.EventImage.{origin_code, origin_state, origin_branch, origin_number, origin_of, kind_of};
ghost use Rattle.image.specs.EventImage.{event_size, event_bytes, event_at, events_bytes};

use crate::beliefs::put_literal;
use crate::form::Form;
use crate::reader::Reader;
use crate::words::{put_long, put_word, put_words};
use library::bytes::{literal_at, u16_at};
use library::kinds::Trigger;
use model::{Event, Number, Origin};
use state::MOST_QUEUED;
use std::array;

// How many bytes of an event stand before its number.
const EVENT_FIELDS: usize = 20;

// ---- Codes of an origin. Origin is a type of model, so a From would stand there and give every crate the numbers of an image.

// Its code, state, branch and number: an external event has 0 for state and branch.
fn origin_fields(origin: Origin) -> (u16, u16, u16, Number)
    ensures { result ≡ (origin_code origin, origin_state origin, origin_branch origin, origin_number origin) }
{
    match origin {
        Origin::External(number) => (0, 0, 0, number),
        Origin::Goal {
            instance,
            state,
            branch,
        } => (1, state, branch, instance),
    }
}

fn origin_of(code: u16, state: u16, branch: u16, number: Number) -> Origin
    ensures { result ≡ origin_of code state branch number }
{
    match code {
        1 => Origin::Goal {
            instance: number,
            state,
            branch,
        },
        _ => Origin::External(number),
    }
}

// ---- Writing

impl Form {
    fn put_event(self, out: &mut [u8], at: usize, event: &Event) -> usize
        requires { at + event_size newest ≤ length out.old }
        ensures { Wrote (event_size newest) out.old out.new at result (event_bytes self event.now) }
    {
        let (code, state, branch, number) = origin_fields(event.origin);
        let a = put_words(out, at, &[code, state, branch, event.kind]);
        let b = put_literal(out, a, event.literal);
        let c = put_long(out, b, event.failed);
        self.put_number(out, c, number)
    }

    // How many events, and them. Beside put_stacks: one function for both would need a clause of what each item's writer writes.
    #[tactic(auto, using(crate::proofs::WordLaws::list_parts), unfolding(crate::specs::EventImage::events_bytes))]
    pub(crate) fn put_events(self, out: &mut [u8], at: usize, queue: &[Event]) -> usize
        requires { (length queue.now ≤ most_queued) × (at + (word_size + event_size newest * length queue.now) ≤ length out.old) }
        ensures { Wrote (word_size + event_size newest * length queue.now) out.old out.new at result (events_bytes self queue.now) }
    {
        let mut o = put_word(out, at, queue.len() as u16);
        for event in queue {
            o = self.put_event(out, o, event);
        }
        o
    }
}

// ---- Reading

// What names no kind of event is read as 0. The code and not the Trigger, since an event's kind is a number: it can be any that was told.
fn kind_of(code: u16) -> u16
    ensures { result ≡ kind_of code }
{
    match Trigger::try_from(code) {
        Ok(_) => code,
        Err(_) => 0,
    }
}

impl Reader<'_> {
    #[tactic(auto, unfolding(crate::specs::EventImage::event_at))]
    fn event_at(&self, at: usize) -> Event
        requires { at + event_size newest ≤ farthest }
        ensures { result ≡ event_at self.now.form self.now.image.now at }
    {
        let code = u16_at(self.image, at);
        let state = u16_at(self.image, at + 2);
        let branch = u16_at(self.image, at + 4);
        let number = self.number_at(at + EVENT_FIELDS);
        Event {
            origin: origin_of(code, state, branch, number),
            kind: kind_of(u16_at(self.image, at + 6)),
            literal: literal_at(self.image, at + 8),
            failed: self.long_at(at + 16),
        }
    }

    // The event at a place of the queue.
    fn nth_event(&self, first: usize, place: usize) -> Event
        requires { (place < most_queued) × (first + event_size newest * most_queued ≤ farthest) }
        ensures { result ≡ event_at self.now.form self.now.image.now (first + event_size self.now.form * place) }
    {
        self.event_at(first + EVENT_FIELDS * place + self.form.numbers_size(place))
    }

    // Every place of the queue is read; those past the count are no part of it.
    pub(crate) fn events_at(&self, at: usize) -> [Event; MOST_QUEUED]
        requires { at + event_size newest * most_queued ≤ farthest }
        ensures { result ≡ items (event_at self.now.form self.now.image.now) (event_size self.now.form) most_queued at }
    {
        array::from_fn(|place| self.nth_event(at, place))
    }
}
