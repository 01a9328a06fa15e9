// Reading until a buffer is full.
ghost use Rattle.std.specs.Prelude.{◌+◌, min, ◌≡◌};
ghost use Rattle.io.specs.Counts.{IsPrefixLen};

use std::io::{Error, Read};

// How many bytes came, and why a read failed, if one did.
#[derive(Clone, Copy)]
pub struct Filled {
    pub length: usize,
    pub failed: Option<Error>,
}

// Reads until the buffer is full, the input ends or a read fails.
pub fn fill(from: &mut impl Read, buffer: &mut [u8]) -> Filled
    ensures { IsPrefixLen result.length buffer.new }
{
    let mut length: usize = 0;
    while length < buffer.len() {
        match from.read(&mut buffer[length..]) {
            Ok(0) => break,
            Ok(came) => length += came,
            Err(error) => {
                return Filled {
                    length,
                    failed: Some(error),
                };
            }
        }
    }
    Filled {
        length,
        failed: None,
    }
}

// The place so many bytes further on, or the end.
pub fn further(at: usize, by: usize, end: usize) -> usize
    ensures { result ≡ min (at + by) end }
{
    at.saturating_add(by).min(end)
}
