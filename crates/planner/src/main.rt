// The program of the planning commands: it reads, hands the bytes to the crates below, writes what comes back, and says how it ended.
#![tactic(auto)]

use commands::{Command, status};
use std::io::{Input, Print};
use streams::complaints::Complain;
use streams::program::{Obey, Words};
use streams::{ending, hearing, program, usage, version};
use text::Page;

// `plan`: the plan of the request sheet on standard input, or the refusal. The longest, of 128 stations with a mode, F and g, has 2,460 bytes; one more tells that a byte follows it.
fn plan(rt: &(impl Input + Print + Complain)) -> u8 {
    let mut sheet: [u8; sheets::REQUEST_READ] = [0; sheets::REQUEST_READ];
    let Ok(length) = hearing::fill(rt, &mut rt.reader(), &mut sheet) else {
        return status::FAILED;
    };
    let mut page = io::large_buffer();
    let said = command_plan::plan_text(&sheet[..length], &mut page);
    ending::answer(rt, &page[..said.length], status::status_of(said.number))
}

// `plan-sheet`: the plan sheet of the request sheet on standard input; refused, no byte is written.
fn plan_sheet(rt: &(impl Input + Print + Complain)) -> u8 {
    let mut sheet: [u8; sheets::REQUEST_READ] = [0; sheets::REQUEST_READ];
    let Ok(length) = hearing::fill(rt, &mut rt.reader(), &mut sheet) else {
        return status::FAILED;
    };
    let mut out = io::large_buffer();
    let written = command_plan::plan_sheet(&sheet[..length], &mut out);
    if written.number != 0 {
        return ending::refuse_sheet(rt, written.number);
    }
    ending::answer(rt, &out[..written.length], status::DONE)
}

// `version`: a line.
fn version(rt: &(impl Print + Complain)) -> u8 {
    let mut buffer = io::buffer();
    let mut page = Page::new(&mut buffer);
    version::put(&mut page);
    page.put_end();
    let put = page.length();
    if !ending::say_put(rt, &buffer, put) {
        return status::FAILED;
    }
    status::DONE
}

// What this program does.
struct Planner;

impl<R: Input + Print + Complain> Obey<R> for Planner {
    // No command here has a word behind it.
    fn obey(&self, rt: &R, command: Command, _: Words) -> u8 {
        match command {
            Command::Plan => plan(rt),
            Command::PlanSheet => plan_sheet(rt),
            Command::Version => version(rt),
            _ => usage::elsewhere(rt),
        }
    }
}

fn main(rt: HostRuntime) {
    program::run(&rt, &Planner);
}
