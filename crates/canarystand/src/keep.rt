// The agent kept in the file `image` for the next shift.
use crate::replace::{replace_file, sync_folder};
use crate::stop::Failed;
use load::Agent;
use std::io;
use std::rt::{Clock, Files};

// What is said where the old image stands.
const NOT_SAVED: &str = "canarystand: image is not saved";

// No agent that was loaded or restored is refused, so nobody should see this line.
fn not_formed() -> Failed {
    Failed {
        what: NOT_SAVED,
        error: io::Error::other("the agent is not well formed"),
    }
}

// These bytes in place of the image that is there.
fn replace_image<R: Files + Clock>(rt: &R, image: &[u8]) -> Result<(), Failed> {
    replace_file(rt, "image", "image.new", image).map_err(|error| Failed {
        what: NOT_SAVED,
        error,
    })?;
    sync_folder(rt).map_err(|error| Failed {
        what: "canarystand: image is saved, and its folder is not synced",
        error,
    })
}

// Saves the agent, by way of a buffer.
pub(crate) fn save_image<R: Files + Clock>(
    rt: &R,
    agent: Agent,
    out: &mut [u8],
) -> Result<(), Failed> {
    let size = image::save::save(&agent, out).map_err(|_| not_formed())?;
    let image = out.get(..size).ok_or(not_formed())?;
    replace_image(rt, image)
}
