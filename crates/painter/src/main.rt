// The program of `page`: it reads a log twice, says what was found in the words of the page, draws the records that are drawn as they come, and says how it ended.
#![tactic(auto)]

mod drawing;
mod forms;
mod reading;
mod saying;
mod shapes;
mod texts;

use commands::{Command, status};
use std::env::Env;
use std::fs::Files;
use std::io::Print;
use streams::complaints::Complain;
use streams::program::{Obey, Words};
use streams::{loading, program, usage, words};

// `page LOG PLAN`: the plan sheet is read first, of its file one byte more than the longest plan, which tells that a byte follows it.
fn page_against(rt: &(impl Env + Files + Print + Complain), log: usize, word: usize) -> u8 {
    let mut sheet: [u8; sheets::PLAN_READ] = [0; sheets::PLAN_READ];
    match loading::load(rt, b"page: ", word, &mut sheet) {
        Ok(length) => saying::say(rt, log, Some(&sheet[..length])),
        Err(_) => status::FAILED,
    }
}

// `page LOG`: with a path at the second place the log is held to the plan there, else to its own.
fn page(rt: &(impl Env + Files + Print + Complain), log: usize, word: usize) -> u8 {
    if words::is_given(rt, word) {
        return page_against(rt, log, word);
    }
    saying::say(rt, log, None)
}

// What this program does.
struct Painter;

impl<R: Env + Files + Print + Complain> Obey<R> for Painter {
    fn obey(&self, rt: &R, command: Command, words: Words) -> u8 {
        match command {
            Command::Page => page(rt, words.second, words.third),
            _ => usage::elsewhere(rt),
        }
    }
}

fn main(rt: HostRuntime) {
    program::run(&rt, &Painter);
}
