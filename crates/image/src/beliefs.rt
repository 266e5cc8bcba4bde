// The belief table in an image.
ghost use Rattle.std.specs.Prelude.{◌+◌, ◌≤◌, length};
ghost use Rattle.belief.specs.Beliefs.{view};
ghost use Rattle.writing.specs.Writing.{Wrote};
ghost use Rattle.load.specs.Load.{Holds};
ghost use Rattle.image.specs.Words.{farthest};
ghost use Rattle.image.specs.BeliefImage.{literal_size, most_beliefs_size, literal_bytes, beliefs_bytes, beliefs_at};

use crate::reader::Reader;
use crate::words::{WORD_BYTES, put_word, put_words};
use belief::{Beliefs, MOST_BELIEFS};
use library::bytes::{LITERAL_BYTES, literal_at, u16_at};
use literal::Literal;
use std::array;

pub(crate) fn put_literal(out: &mut [u8], at: usize, l: Literal) -> usize
    requires { at + literal_size ≤ length out.old }
    ensures { Wrote literal_size out.old out.new at result (literal_bytes l) }
{
    put_words(out, at, &[l.head, l.first, l.second, l.third])
}

// How many beliefs, and them.
#[tactic(auto, using(crate::proofs::WordLaws::list_parts), unfolding(crate::specs::BeliefImage::beliefs_bytes))]
pub(crate) fn put_beliefs(out: &mut [u8], at: usize, table: &Beliefs) -> usize
    requires { at + most_beliefs_size ≤ length out.old }
    ensures { Wrote most_beliefs_size out.old out.new at result (beliefs_bytes (view table.now)) }
{
    let beliefs = table.as_slice();
    let mut o = put_word(out, at, beliefs.len() as u16);
    for l in beliefs {
        o = put_literal(out, o, *l);
    }
    o
}

impl Reader<'_> {
    // Every place of the table is read; those past the count are no part of it.
    pub(crate) fn beliefs_at(&self, at: usize) -> Beliefs
        requires { at + most_beliefs_size ≤ farthest }
        ensures { Holds (beliefs_at self.now.image.now at) result }
    {
        let first = at + WORD_BYTES;
        Beliefs {
            items: array::from_fn(|place| literal_at(self.image, first + LITERAL_BYTES * place)),
            count: (u16_at(self.image, at) as usize).min(MOST_BELIEFS),
        }
    }
}
