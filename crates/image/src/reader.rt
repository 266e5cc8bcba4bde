// An image that is read.
ghost use Rattle.std.specs.Prelude.{◌≡◌, ◌≤◌};
ghost use Rattle.image.specs.Words.{long_at, farthest, number_at};

use crate::form::Form;
use crate::words::{HIGH, WORD_BYTES};
use library::bytes::u16_at;
use model::Number;

// The bytes, and the form that they are read in. Past the end every byte is 0.
// A method asks that all it reads stands before `farthest`, so that no offset wraps: a ghost field would be proved anew for each offset.
#[derive(Clone, Copy)]
pub(crate) struct Reader<'a> {
    pub(crate) image: &'a [u8],
    pub(crate) form: Form,
}

impl Reader<'_> {
    // A number of 32 bits.
    pub(crate) fn long_at(&self, at: usize) -> u32
        requires { at ≤ farthest }
        ensures { result ≡ long_at self.now.image.now at }
    {
        let low = u16_at(self.image, at) as u32;
        let high = u16_at(self.image, at + WORD_BYTES) as u32;
        low + HIGH * high
    }

    // The number of an external event or of an instance.
    #[tactic(auto, unfolding(crate::specs::Words::number_at))]
    pub(crate) fn number_at(&self, at: usize) -> Number
        requires { at ≤ farthest }
        ensures { result ≡ number_at self.now.form self.now.image.now at }
    {
        match self.form {
            Form::Narrow => u16_at(self.image, at) as u32,
            Form::Wide => self.long_at(at),
        }
    }
}
