// A stream taken piece by piece, each by what was made of those before it, until the stream ends. A proved loop has to end, and nothing says that a stream does: so the pieces are counted, up to a number that no stream uses up.
ghost use Rattle.std.specs.Io.{ReadsAtMost};

use crate::complaints::Complain;
use crate::failing::{Failed, unread};
use crate::reading;
use std::io::{Error, Input, Read};
use std::ops::ControlFlow;

// What is made of a stream that is taken piece by piece.
pub trait Take<R, E>: Copy {
    // What is made of it and the piece behind it.
    fn take(self, rt: &R, piece: &[u8]) -> Result<Self, E>;
}

// Why a stream was not taken to its end: a piece could not be taken, reading failed, or the pieces do not end.
#[derive(Clone, Copy)]
pub enum Cut<E> {
    Taking(E),
    Reading(Error),
    Endless,
}

// All of a stream, each piece as soon as it comes, of as many bytes as the buffer holds at most.
pub fn take_all<R, E, T: Take<R, E>>(
    rt: &R,
    from: &mut impl Read,
    buffer: &mut [u8],
    begun: T,
) -> Result<T, Cut<E>> {
    let mut taken = begun;
    for _ in 0..u64::MAX {
        match from.read(buffer) {
            Ok(0) => return Ok(taken),
            Ok(length) => match taken.take(rt, &buffer[..length]) {
                Ok(more) => taken = more,
                Err(failed) => return Err(Cut::Taking(failed)),
            },
            Err(error) => return Err(Cut::Reading(error)),
        }
    }
    Err(Cut::Endless)
}

// All lines of standard input, of which the last may lack its newline.
pub fn hear_lines<R: Input + Complain, T: Take<R, Failed>>(
    rt: &R,
    buffer: &mut [u8],
    begun: T,
) -> Result<T, Failed> {
    let heard = take_all(rt, &mut rt.reader(), buffer, begun);
    match heard {
        Ok(lines) => lines.take(rt, b"\n"),
        Err(Cut::Taking(failed)) => Err(failed),
        Err(Cut::Reading(error)) => Err(unread(rt, error)),
        Err(Cut::Endless) => Err(Failed),
    }
}

// Fills the buffer from standard input, as far as that goes.
pub fn fill(rt: &impl Complain, from: &mut impl Read, buffer: &mut [u8]) -> Result<usize, Failed>
    ensures { ReadsAtMost result buffer.new }
{
    let filled = reading::fill(from, buffer);
    match filled.failed {
        Some(error) => Err(unread(rt, error)),
        None => Ok(filled.length),
    }
}

// What is made of a stream up to the piece at which that is enough.
pub trait Look<R>: Copy {
    // What is made of it and the piece behind it, and whether that is enough.
    fn look(self, rt: &R, piece: &[u8]) -> Result<ControlFlow<Self, Self>, Failed>;
}

// The rest of standard input in pieces that fill the buffer, but for the last; or up to the piece at which that is enough.
pub fn fill_all<R: Complain, T: Look<R>>(
    rt: &R,
    from: &mut impl Read,
    buffer: &mut [u8],
    begun: T,
) -> Result<T, Failed> {
    let mut taken = begun;
    for _ in 0..u64::MAX {
        let length = fill(rt, from, buffer)?;
        match taken.look(rt, &buffer[..length])? {
            ControlFlow::Continue(more) => taken = more,
            ControlFlow::Break(enough) => return Ok(enough),
        }
        if length < buffer.len() {
            return Ok(taken);
        }
    }
    Err(Failed)
}
