// Why something failed, in the system's words.
use crate::complaints::Complain;
use arrayvec::ArrayString;
use std::fmt::Write;
use std::io::Error;

// The most bytes of a reason: the system's words have 256 at most, and a number behind them.
const REASON_SIZE: usize = 320;

// The system's words alone: std puts its number behind them.
fn words_of(reason: &str) -> &str {
    reason
        .split_once(" (os error ")
        .map_or(reason, |(words, _)| words)
}

// Names what failed on standard error, and says what the system says of it.
pub fn say(rt: &impl Complain, what: &[u8], error: Error) {
    let mut reason = ArrayString::<REASON_SIZE>::new();
    let _ = write!(reason, "{error}");
    rt.complain(what);
    rt.complain(b": ");
    rt.complain(words_of(reason.as_str()).as_bytes());
    rt.complain(b"\n");
}
