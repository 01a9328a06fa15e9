// Standard error: what is said there is bytes, which need not be text, and it may be a terminal.
use std::io::{IsTerminal, Print};

// What a program complains to.
pub trait Complain {
    // Writes on standard error, and answers whether all could be written.
    fn complain(&self, text: &[u8]) -> bool;

    // Whether standard error is a terminal.
    fn is_watched(&self) -> bool;
}

impl Complain for HostRuntime {
    fn complain(&self, text: &[u8]) -> bool {
        self.stderr().write_all(text).is_ok()
    }

    fn is_watched(&self) -> bool {
        self.stderr().is_terminal()
    }
}
