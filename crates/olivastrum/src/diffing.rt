// `diff OLD NEW`: the plan sheets in two files are read, and then what differs is printed.
use commands::status;
use std::env::Env;
use std::fs::Files;
use std::io::Print;
use streams::complaints::Complain;
use streams::{ending, loading};

// Prints what differs; the status is 0 exactly where that is `same`.
fn compare(rt: &(impl Print + Complain), old: &[u8], new: &[u8]) -> u8 {
    let mut page = io::large_buffer();
    let diffed = command_diff::diff_text(old, new, &mut page);
    let length = diffed.length;
    if diffed.same {
        return ending::answer(rt, &page[..length], status::DONE);
    }
    ending::answer(rt, &page[..length], status::REFUSED)
}

// Of each file one byte more than the longest plan is read: it tells that a byte follows it. Both are closed before anything is printed.
pub(crate) fn diff(rt: &(impl Env + Files + Print + Complain), first: usize, second: usize) -> u8 {
    let mut old: [u8; sheets::PLAN_READ] = [0; sheets::PLAN_READ];
    let Ok(before) = loading::load(rt, b"diff: ", first, &mut old) else {
        return status::FAILED;
    };
    let mut new: [u8; sheets::PLAN_READ] = [0; sheets::PLAN_READ];
    let Ok(after) = loading::load(rt, b"diff: ", second, &mut new) else {
        return status::FAILED;
    };
    compare(rt, &old[..before], &new[..after])
}
