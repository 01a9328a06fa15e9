// `inspect`: whether a run could have given the records of the log on standard input, or its first fault; `inspect PLAN`: whether its plan is the one in PLAN, too.
use commands::status;
use inspection_stream::Inspecting;
use std::env::Env;
use std::fs::Files;
use std::io::{Input, Print, Read};
use std::ops::ControlFlow;
use streams::complaints::Complain;
use streams::failing::Failed;
use streams::hearing::Look;
use streams::{ending, hearing, loading, words};

// What was found.
#[derive(Clone, Copy)]
struct Looked {
    inspecting: Inspecting,
}

impl<R> Look<R> for Looked {
    // Goes on. Behind a fault of the log nothing is read: no byte there changes the answer.
    fn look(self, _: &R, bytes: &[u8]) -> Result<ControlFlow<Looked, Looked>, Failed> {
        let inspecting = inspection_stream::inspect_on(self.inspecting, bytes);
        if inspecting.gathered.number == 0 {
            return Ok(ControlFlow::Continue(Looked { inspecting }));
        }
        Ok(ControlFlow::Break(Looked { inspecting }))
    }
}

// The whole log. The first 3,400 bytes are enough for every plan: what they say of it is what the whole log says.
fn look(rt: &impl Complain, from: &mut impl Read) -> Result<Inspecting, Failed> {
    let mut head: [u8; log_stream::FIRST_SIZE] = [0; log_stream::FIRST_SIZE];
    let read = hearing::fill(rt, from, &mut head)?;
    let inspecting = inspection_stream::inspect_start(&head[..read]);
    if read < log_stream::FIRST_SIZE {
        return Ok(inspecting);
    }
    let mut bytes: [u8; 4_096] = [0; 4_096];
    let looked = hearing::fill_all(rt, from, &mut bytes, Looked { inspecting })?;
    Ok(looked.inspecting)
}

// Says what is on the page; the status is 0 exactly where the log is accepted.
fn say(rt: &(impl Print + Complain), page: &[u8], accepted: bool) -> u8 {
    if accepted {
        return ending::answer(rt, page, status::DONE);
    }
    ending::answer(rt, page, status::REFUSED)
}

// Says what was found.
fn finish(rt: &(impl Print + Complain), inspecting: Inspecting) -> u8 {
    let mut page = io::large_buffer();
    let found = command_inspect::put_finding(inspecting, &mut page);
    let length = found.length;
    say(rt, &page[..length], found.accepted)
}

// Says what the log is against the plan sheet in a file.
fn finish_against(rt: &(impl Print + Complain), plan: &[u8], inspecting: Inspecting) -> u8 {
    let mut page = io::large_buffer();
    let found = command_inspect_plan::inspect_text(plan, inspecting, &mut page);
    let length = found.length;
    say(rt, &page[..length], found.accepted)
}

// The plan sheet is read first: of its file one byte more than the longest plan, which tells that a byte follows it.
fn inspect_against(rt: &(impl Env + Files + Input + Print + Complain), word: usize) -> u8 {
    let mut sheet: [u8; sheets::PLAN_READ] = [0; sheets::PLAN_READ];
    let Ok(length) = loading::load(rt, b"inspect: ", word, &mut sheet) else {
        return status::FAILED;
    };
    let Ok(inspecting) = look(rt, &mut rt.reader()) else {
        return status::FAILED;
    };
    finish_against(rt, &sheet[..length], inspecting)
}

// With a path at this place the log is held to the plan there, else to its own.
pub(crate) fn inspect(rt: &(impl Env + Files + Input + Print + Complain), word: usize) -> u8 {
    if words::is_given(rt, word) {
        return inspect_against(rt, word);
    }
    let Ok(inspecting) = look(rt, &mut rt.reader()) else {
        return status::FAILED;
    };
    finish(rt, inspecting)
}
