// The words that the program was called with.
ghost use Rattle.std.specs.Io.{ReadsAtMost};
ghost use Rattle.io.specs.Counts.{IsPrefixLen};

use crate::complaints::Complain;
use crate::usage;
use arrayvec::ArrayString;
use commands::{Asked, Command, words};
use std::env::{Env, FillError};
use std::io::Error;
use std::str;

// The most bytes of a word that is looked at.
pub const WORD_SIZE: usize = 4_096;

// A path, as text.
pub type PathText = ArrayString<WORD_SIZE>;

// The system's numbers for a word that is not there, for one that is too long, and for one that is no text.
const MISSING: i32 = 22;

const TOO_LONG: i32 = 36;

const NO_TEXT: i32 = 84;

// The word at this place, whole; or why it cannot be had.
pub fn whole_word(rt: &impl Env, place: usize, buffer: &mut [u8]) -> Result<usize, Error>
    ensures { ReadsAtMost result buffer.new }
{
    match rt.arg(place, buffer) {
        Ok(length) => Ok(length),
        Err(FillError::TooLong) => Err(Error::from_raw_os_error(TOO_LONG)),
        Err(FillError::NotPresent) => Err(Error::from_raw_os_error(MISSING)),
    }
}

// The word at this place as a path; or why it is none.
pub fn path(rt: &impl Env, place: usize) -> Result<PathText, Error> {
    let mut buffer = [0u8; WORD_SIZE];
    let length = whole_word(rt, place, &mut buffer)?;
    let Ok(text) = str::from_utf8(&buffer[..length]) else {
        return Err(Error::from_raw_os_error(NO_TEXT));
    };
    PathText::from(text).map_err(|_| Error::from_raw_os_error(TOO_LONG))
}

// The word at this place; of one that is too long, as much as the buffer holds.
fn word_at(rt: &impl Env, place: usize, buffer: &mut [u8]) -> usize
    ensures { IsPrefixLen result buffer.new }
{
    match rt.arg(place, buffer) {
        Ok(length) => length,
        Err(FillError::TooLong) => buffer.len(),
        Err(FillError::NotPresent) => 0,
    }
}

// Whether the first word asks for the status.
pub fn status_asked(rt: &impl Env) -> bool {
    let mut buffer = [0u8; WORD_SIZE];
    let length = word_at(rt, 1, &mut buffer);
    words::asks_for_status(&buffer[..length])
}

// Whether there is a word at this place.
pub fn is_given(rt: &impl Env, place: usize) -> bool {
    let mut byte = [0u8; 1];
    !matches!(rt.arg(place, &mut byte), Err(FillError::NotPresent))
}

// How many words there are from this one on.
fn given_from(rt: &impl Env, first: usize) -> usize {
    for place in first..usize::MAX {
        if !is_given(rt, place) {
            return place - first;
        }
    }
    0
}

// The command that the words from this one on ask for. Where they ask for none, it is said why.
pub fn command(rt: &(impl Env + Complain), first: usize) -> Option<Command> {
    let given = given_from(rt, first);
    let mut buffer = [0u8; WORD_SIZE];
    let length = word_at(rt, first, &mut buffer);
    match commands::asked_for(&buffer[..length], given) {
        Some(Asked::Do(asked)) => Some(asked),
        Some(Asked::Miscounted(asked)) => {
            usage::miscounted(rt, asked);
            None
        }
        None => {
            usage::no_command(rt, &buffer[..length]);
            None
        }
    }
}
