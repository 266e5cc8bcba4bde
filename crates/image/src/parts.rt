// The parts of an image: its library, and its state, read where the contents say.
ghost use Rattle.std.specs.Prelude.{◌≡◌, ◌≤◌, length};
ghost use Rattle.accepted.specs.Refusal.{most_bytes};
ghost use Rattle.image.specs.Image.{library_as};
ghost use Rattle.image.specs.Reads.{ReadsState};

use crate::form::ENTRY_BYTES;
use crate::reader::Reader;
use crate::words::WORD_BYTES;
use library::bytes::u16_at;
use load::MOST_BYTES;
use state::{MOST_QUEUED, State};

impl Reader<'_> {
    // The library, as far as it is there.
    pub(crate) fn library(&self) -> &[u8]
        ensures value { result.now ≡ library_as self.now.form self.now.image.now }
        ensures few { length result.now ≤ most_bytes }
    {
        let size = (u16_at(self.image, WORD_BYTES) as usize).min(MOST_BYTES);
        let Some(rest) = self.image.get(self.form.contents_size()..) else {
            return &[];
        };
        &rest[..size.min(rest.len())]
    }

    pub(crate) fn state(&self) -> State
        ensures { ReadsState self.now.form self.now.image.now result }
    {
        let b = u16_at(self.image, ENTRY_BYTES) as usize;
        let e = u16_at(self.image, ENTRY_BYTES * 2) as usize;
        let k = u16_at(self.image, ENTRY_BYTES * 3) as usize;
        let c = u16_at(self.image, ENTRY_BYTES * 4) as usize;
        let queue = self.events_at(e + WORD_BYTES);
        let row = self.stacks_at(k);
        let stacks = row.items;
        State {
            beliefs: self.beliefs_at(b),
            queue,
            queued: (u16_at(self.image, e) as usize).min(MOST_QUEUED),
            stacks,
            stacked: row.count,
            taken: self.number_at(c),
            made: self.number_at(c + self.form.numbers_size(1)),
        }
    }
}
