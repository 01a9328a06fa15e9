// What fails ends a command with one status, once standard error says why.
use crate::complaints::Complain;
use crate::ending;
use std::io::{Error, Print};

// Reading or writing failed, and standard error says why.
#[derive(Clone, Copy)]
pub struct Failed;

// Standard input could not be read: says why.
pub fn unread(rt: &impl Complain, error: Error) -> Failed {
    ending::unread_input(rt, error);
    Failed
}

// Writes on standard output.
pub fn say(rt: &(impl Print + Complain), text: &[u8]) -> Result<(), Failed> {
    if ending::say(rt, text) {
        Ok(())
    } else {
        Err(Failed)
    }
}
