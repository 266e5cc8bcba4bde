// The whole image.
ghost use Rattle.std.specs.Prelude.{◌+◌, ◌≤◌, ◌≡◌, length};
ghost use Rattle.std.specs.Str.{bytes_eq};
ghost use Rattle.state.specs.View.{view_state};
ghost use Rattle.accepted.specs.Refusal.{most_bytes};
ghost use Rattle.lists.specs.Counts.{each};
ghost use Rattle.writing.specs.Writing.{Wrote};
ghost use Rattle.image.specs.Words.{word_size};
ghost use Rattle.image.specs.Image.{width_bodies, image_as, library_as, most_image};
ghost use Rattle.image.specs.Writes.{WritesImage};

use crate::beliefs::put_beliefs;
use crate::bytes::put_bytes;
use crate::form::Form;
use crate::reader::Reader;
use crate::words::{WORD_BYTES, put_word, put_words};
use state::State;

// The largest image.
pub(crate) const MOST_IMAGE: usize = 23836;
// The number width, in bits.
const NUMBER_WIDTH: u16 = 32;

impl Form {
    // The body that the newest form has more.
    fn put_width(self, out: &mut [u8], at: usize) -> usize
        requires { at + word_size ≤ length out.old }
        ensures { Wrote word_size out.old out.new at result (each (λ body. body) (width_bodies self)) }
    {
        match self {
            Form::Narrow => at,
            Form::Wide => put_word(out, at, NUMBER_WIDTH),
        }
    }

    // The bodies, and then the contents before them.
    pub(crate) fn write_image(self, out: &mut [u8], library: &[u8], s: &State) -> usize
        requires { (most_image ≤ length out.old) × (length library.now ≤ most_bytes) }
        ensures { WritesImage self library.now s.now out.new result }
    {
        let start = self.contents_size();
        let a = put_bytes(out, start, library);
        let b = put_beliefs(out, a, &s.beliefs);
        let c = self.put_events(out, b, s.events());
        let d = self.put_stacks(out, c, s.standing());
        let taken = self.put_number(out, d, s.taken);
        let e = self.put_number(out, taken, s.made);
        let f = self.put_width(out, e);
        let table = [
            start as u16,
            (a - start) as u16,
            a as u16,
            (b - a) as u16,
            b as u16,
            (c - b) as u16,
            c as u16,
            (d - c) as u16,
            d as u16,
            (e - d) as u16,
            e as u16,
            (f - e) as u16,
        ];
        put_words(out, 0, &table[..start / WORD_BYTES]);
        f
    }
}

impl Reader<'_> {
    // Whether the bytes are the image of their library and this state.
    pub(crate) fn is_image_of(&self, s: &State) -> bool
        ensures { result ≡ bytes_eq self.now.image.now
            (image_as self.now.form (library_as self.now.form self.now.image.now) (view_state s.now)) }
    {
        let mut scratch = [0u8; MOST_IMAGE];
        let n = self.form.write_image(&mut scratch, self.library(), s);
        self.image == &scratch[..n]
    }
}
