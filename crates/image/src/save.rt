// Save: the image of an agent, in a lent buffer.
ghost use Rattle.image.specs.Saves.{Saves};

use crate::bytes::put_bytes;
use crate::form::Form;
use crate::whole::MOST_IMAGE;
use formed::is_well_formed;
use load::Agent;
use refusals::Refusal;

// The image in the first bytes of the buffer, the others as they were, and how many bytes it has.
// A refusal leaves the whole buffer as it was.
pub fn save(a: &Agent, out: &mut [u8]) -> Result<usize, Refusal>
    ensures { Saves a.now out.old out.new result }
{
    let library: &[u8] = &a.library;
    if !is_well_formed(library, a.length, a.state) {
        return Err(Refusal::NotFormed);
    }
    let mut scratch = [0u8; MOST_IMAGE];
    let own = &library[..a.length];
    let n = Form::Wide.write_image(&mut scratch, own, &a.state);
    if out.len() < n {
        return Err(Refusal::ImageRoom);
    }
    put_bytes(out, 0, &scratch[..n]);
    Ok(n)
}
