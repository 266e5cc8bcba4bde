// The forms of an image.
ghost use Rattle.std.specs.Prelude.{◌≡◌, ◌*◌, ◌≤◌};
ghost use Rattle.image.specs.Form.{newest, number_size};
ghost use Rattle.image.specs.Words.{farthest};
ghost use Rattle.image.specs.Image.{contents_size, form_in};

use crate::words::{LONG_BYTES, WORD_BYTES};
use library::bytes::u16_at;

// How wide the number of an external event or of an instance is: 16 bits in the older form, 32 in the newest, which has one body more.
// A method that differs by the form has a `match` of one line each: a trait with a type for each form would make every method generic.
#[derive(Clone, Copy)]
pub(crate) enum Form {
    Narrow,
    Wide,
}

// How many bytes an entry of the contents has: offset and length.
pub(crate) const ENTRY_BYTES: usize = WORD_BYTES + WORD_BYTES;
// How many bytes the contents have in the older form: five entries.
const NARROW_CONTENTS: usize = ENTRY_BYTES * 5;
// And in the newest: six.
const WIDE_CONTENTS: usize = ENTRY_BYTES * 6;

impl Form {
    // How many bytes so many numbers have.
    pub(crate) fn numbers_size(self, n: usize) -> usize
        requires { n ≤ farthest }
        ensures value { result ≡ number_size self * n }
        ensures small { result ≤ number_size newest * n }
    {
        match self {
            Form::Narrow => WORD_BYTES * n,
            Form::Wide => LONG_BYTES * n,
        }
    }

    // How many bytes the contents have: the library begins behind them.
    pub(crate) fn contents_size(self) -> usize
        ensures value { result ≡ contents_size self }
        ensures small { result ≤ contents_size newest }
    {
        match self {
            Form::Narrow => NARROW_CONTENTS,
            Form::Wide => WIDE_CONTENTS,
        }
    }
}

// The form of an image, by its first number.
#[tactic(auto, unfolding(crate::specs::Image::form_in))]
pub(crate) fn form_in(image: &[u8]) -> Form
    ensures { result ≡ form_in image.now }
{
    if u16_at(image, 0) as usize == NARROW_CONTENTS {
        return Form::Narrow;
    }
    Form::Wide
}
