// A file replaced by new bytes as a whole.
use std::fs::{OpenFile, OpenOptions};
use std::io::Write;
use std::rt::{Clock, Files};
use std::{fs, io};
use transfer::outcome::settled;

// Waits until what was written is on the device.
fn sync<C: Clock, F: OpenFile>(clock: &C, file: &F) -> io::Result<()> {
    for _ in 0..u64::MAX {
        match file.sync_all() {
            Ok(()) => return Ok(()),
            Err(error) => settled(clock, error)?,
        }
    }
    file.sync_all()
}

// A new file with these bytes, synced; one that has the name already loses it, and a name that is taken again is refused.
// It is opened for writing alone.
fn write_new<R: Files + Clock>(rt: &R, path: &str, bytes: &[u8]) -> io::Result<()> {
    let _ = fs::remove_file(rt, path);
    let mut file = OpenOptions::new()
        .write(true)
        .create_new(true)
        .open(rt, path)?;
    transfer::write_all(rt, &mut file, bytes)?;
    sync(rt, &file)
}

// The bytes in place of a file: in a new file beside it, which then takes its name. Whatever fails, the old file stands as it was.
pub(crate) fn replace_file<R: Files + Clock>(
    rt: &R,
    path: &str,
    beside: &str,
    bytes: &[u8],
) -> io::Result<()> {
    write_new(rt, beside, bytes)?;
    fs::rename(rt, beside, path)
}

// Waits until the names in the program's folder are on the device.
pub(crate) fn sync_folder<R: Files + Clock>(rt: &R) -> io::Result<()> {
    let folder = fs::open(rt, ".")?;
    sync(rt, &folder)
}
