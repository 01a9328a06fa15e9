// `run PLAN` and `log PLAN`: the plan sheet in the file PLAN is read, and the calls go to the ring that it opens.
use crate::{logging, running};
use commands::status;
use std::env::Env;
use std::fs::Files;
use std::io::{Input, Print};
use std::os::fd::AsRawFd;
use streams::complaints::Complain;
use streams::loading;
use streams::loading::Opened;

// The two commands with a plan.
#[derive(Clone, Copy)]
pub(crate) enum Planned {
    Run,
    Log,
}

// How a command is named on standard error.
fn name_of(planned: Planned) -> &'static [u8] {
    match planned {
        Planned::Run => b"run: ",
        Planned::Log => b"log: ",
    }
}

// Starts with a plan sheet.
fn start(rt: &(impl Input + Print + Complain), planned: Planned, sheet: &[u8]) -> u8 {
    match planned {
        Planned::Run => running::start(rt, sheet),
        Planned::Log => logging::start(rt, sheet),
    }
}

// Reads the plan sheet in the file whose path is the word at this place, and starts with it: the longest, of 128 stations with a mode, F and g, has 3,356 bytes; one more tells that a byte follows it. A plan that is opened as one of the three would be read as the calls, or written over.
// Its frame is its own, so that the commands without a plan need none of it.
#[inline(never)]
pub(crate) fn obey<R: Env + Files + Input + Print + Complain>(
    rt: &R,
    planned: Planned,
    word: usize,
) -> u8
where
    R::File: AsRawFd,
{
    let command = name_of(planned);
    let closed: [&[u8]; 2] = [command, b"standard input, output or error is closed\n"];
    let Ok(Opened { path, mut file }) = loading::open(
        rt,
        command,
        b"the path of the plan",
        closed,
        word,
    ) else {
        return status::FAILED;
    };
    let mut sheet: [u8; sheets::PLAN_READ] = [0; sheets::PLAN_READ];
    let path = path.as_str().as_bytes();
    match loading::fill(rt, command, &mut file, path, &mut sheet) {
        Ok(length) => start(rt, planned, &sheet[..length]),
        Err(_) => status::FAILED,
    }
}
