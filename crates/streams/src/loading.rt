// A file whose path is a word. Where it cannot be opened or read, the command and the path are named.
ghost use Rattle.std.specs.Prelude.{IfSome, ◌≡◌, int_le, pos};
ghost use Rattle.std.specs.Io.{ReadsAtMost};
ghost use Rattle.streams.specs.Ends.{failed};
ghost use Rattle.streams.specs.Reads.{FailsWithin};

use crate::complaints::Complain;
use crate::failing::Failed;
use crate::words::PathText;
use crate::{ending, reading, reasons, words};
use commands::status;
use std::env::Env;
use std::fs;
use std::fs::Files;
use std::io::{Error, Read};
use std::os::fd::AsRawFd;

// The number of standard error, the highest of the three.
const STDERR_FILENO: i32 = 2;

// Names the command and the path, and what the system says of it.
pub fn name(rt: &impl Complain, command: &[u8], path: &[u8], error: Error) {
    rt.complain(command);
    reasons::say(rt, path, error);
}

// The same, and fails.
pub fn fail(rt: &impl Complain, command: &[u8], path: &[u8], error: Error) -> u8
    ensures { result ≡ failed }
{
    name(rt, command, path, error);
    status::FAILED
}

// A file that has the number of standard input, output or error: what is read there would be read from it, and what is said there written into it. The line that says so has two parts, each a write; an empty one is none.
pub fn fail_closed(rt: &impl Complain, line: [&[u8]; 2]) -> u8
    ensures { result ≡ failed }
{
    let [command, what] = line;
    rt.complain(command);
    ending::complain(rt, what)
}

// Whether an open file has one of these numbers.
pub fn is_standard<F: AsRawFd>(file: &F) -> bool
    ensures { IfSome (F.raw_fd file.now) (λ fd. result ≡ int_le fd (pos 2)) }
{
    file.as_raw_fd() <= STDERR_FILENO
}

// How many bytes had come when a file could not be had or read, and why; it was named.
#[derive(Clone, Copy)]
pub struct Unfilled {
    pub length: usize,
    pub error: Error,
}

// A file that cannot be opened: it is named, and no byte came.
fn unopened(rt: &impl Complain, command: &[u8], path: &[u8], error: Error) -> Unfilled
    ensures { result.length ≡ 0 }
{
    name(rt, command, path, error);
    Unfilled { length: 0, error }
}

// Fills the buffer from an open file; one that cannot be read is named.
pub fn fill(
    rt: &impl Complain,
    command: &[u8],
    file: &mut impl Read,
    path: &[u8],
    buffer: &mut [u8],
) -> Result<usize, Unfilled>
    ensures came { ReadsAtMost result buffer.new }
    ensures failed { FailsWithin result buffer.new }
{
    let filled = reading::fill(file, buffer);
    if let Some(error) = filled.failed {
        name(rt, command, path, error);
        return Err(Unfilled {
            length: filled.length,
            error,
        });
    }
    Ok(filled.length)
}

// Fills the buffer from the file of this path.
pub fn load_path(
    rt: &(impl Files + Complain),
    command: &[u8],
    path: &str,
    buffer: &mut [u8],
) -> Result<usize, Unfilled>
    ensures came { ReadsAtMost result buffer.new }
    ensures failed { FailsWithin result buffer.new }
{
    match fs::open(rt, path) {
        Ok(mut file) => fill(rt, command, &mut file, path.as_bytes(), buffer),
        Err(error) => Err(unopened(rt, command, path.as_bytes(), error)),
    }
}

// The word at this place as a path; one that is none is called this.
pub fn path(
    rt: &(impl Env + Complain),
    command: &[u8],
    called: &[u8],
    word: usize,
) -> Result<PathText, Failed> {
    match words::path(rt, word) {
        Ok(path) => Ok(path),
        Err(error) => {
            name(rt, command, called, error);
            Err(Failed)
        }
    }
}

// Fills the buffer from the file whose path is the word at this place.
pub fn load(
    rt: &(impl Env + Files + Complain),
    command: &[u8],
    word: usize,
    sheet: &mut [u8],
) -> Result<usize, Unfilled>
    ensures came { ReadsAtMost result sheet.new }
    ensures failed { FailsWithin result sheet.new }
{
    let path = match words::path(rt, word) {
        Ok(path) => path,
        Err(error) => return Err(unopened(rt, command, b"the path of a file", error)),
    };
    load_path(rt, command, path.as_str(), sheet)
}

// An open file and its path.
#[derive(Drop)]
pub struct Opened<F> {
    pub path: PathText,
    pub file: F,
}

// Opens the file whose path is the word at this place, beside the three that are open already; else the line for one of those is said.
pub fn open<R: Env + Files + Complain>(
    rt: &R,
    command: &[u8],
    called: &[u8],
    closed: [&[u8]; 2],
    word: usize,
) -> Result<Opened<R::File>, Failed>
where
    R::File: AsRawFd,
{
    let path = path(rt, command, called, word)?;
    let file = match fs::open(rt, path.as_str()) {
        Ok(file) => file,
        Err(error) => {
            name(rt, command, path.as_str().as_bytes(), error);
            return Err(Failed);
        }
    };
    if is_standard(&file) {
        fail_closed(rt, closed);
        return Err(Failed);
    }
    Ok(Opened { path, file })
}
