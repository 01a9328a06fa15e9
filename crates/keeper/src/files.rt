// Files by their paths: read whole, written and synced, and what is said where that fails.
ghost use Rattle.std.specs.Io.{ReadsAtMost};
ghost use Rattle.io.specs.Counts.{IsPrefixLen};
ghost use Rattle.streams.specs.Reads.{FailsWithin};

use commands::status;
use std::env::Env;
use std::fs::{Files, OpenFile};
use std::io::{Error, Write};
use streams::complaints::Complain;
use streams::failing::Failed;
use streams::loading;
use streams::loading::Unfilled;
use streams::words::PathText;

// One byte more than a store has: it tells that a byte follows it.
pub(crate) const STORE_READ: usize = 65_537;

// What is said of a file begins with this.
pub(crate) const NAME: &[u8] = b"olivastrum: ";

// Names the path, and what the system says of it; the status is that of a failure.
pub(crate) fn fail(rt: &impl Complain, path: &str, error: Error) -> u8 {
    loading::fail(rt, NAME, path.as_bytes(), error)
}

// The path of a store, which is the word at this place; where it is none, that is said.
pub(crate) fn path(rt: &(impl Env + Complain), word: usize) -> Result<PathText, Failed> {
    loading::path(rt, NAME, b"the path of the store", word)
}

// Fills the buffer from the file of this path.
pub(crate) fn load(
    rt: &(impl Files + Complain),
    path: &str,
    buffer: &mut [u8],
) -> Result<usize, Unfilled>
    ensures came { ReadsAtMost result buffer.new }
    ensures failed { FailsWithin result buffer.new }
{
    loading::load_path(rt, NAME, path, buffer)
}

// A path with a sentence behind it.
pub(crate) fn fail_saying(rt: &impl Complain, path: &str, sentence: &[u8]) -> u8 {
    rt.complain(NAME);
    rt.complain(path.as_bytes());
    rt.complain(sentence);
    status::FAILED
}

// A path that leaves no room for what stands behind it.
pub(crate) fn fail_long(rt: &impl Complain) -> u8 {
    rt.complain(b"olivastrum: the path of the store is too long\n");
    status::FAILED
}

// Writes the bytes, and waits until they have reached the device.
pub(crate) fn write_through(file: &mut (impl Write + OpenFile), bytes: &[u8]) -> Result<(), Error> {
    file.write_all(bytes)?;
    file.sync_all()
}

// How many bytes of a path name its folder, with the last slash; 0 where the path has none.
fn folder_length(path: &[u8]) -> usize
    ensures { IsPrefixLen result path.now }
{
    path.iter()
        .rposition(|byte| *byte == b'/')
        .map_or(0, |slash| slash + 1)
}

// The folder of this path; where it names none, the one that the program runs in.
pub(crate) fn folder_of(path: &str) -> &str {
    let length = folder_length(path.as_bytes());
    if length == 0 {
        return ".";
    }
    path.get(..length).unwrap_or(".")
}
