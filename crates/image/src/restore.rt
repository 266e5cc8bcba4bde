// Restore: the agent that an image holds.
ghost use Rattle.image.specs.Restores.{Restores};

use crate::form::form_in;
use crate::reader::Reader;
use formed::is_formed;
use load::{Agent, MOST_BYTES};
use refusals::Refusal;

// The agent that the image holds, or why there is none.
pub fn restore(image: &[u8]) -> Result<Agent, Refusal>
    ensures { Restores image.now result }
{
    let form = form_in(image);
    let reader = Reader { image, form };
    let state = reader.state();
    if !reader.is_image_of(&state) {
        return Err(Refusal::NoImage);
    }
    let own = reader.library();
    if !is_formed(own, state) {
        return Err(Refusal::NotFormed);
    }
    let mut library = [0u8; MOST_BYTES];
    library[..own.len()].copy_from_slice(own);
    Ok(Agent {
        library,
        length: own.len(),
        state,
    })
}
