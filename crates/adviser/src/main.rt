// The program of `explain` and `tune`: it reads a sheet, asks for the phrases or lines one after another, writes each in its words, and says how it ended.
#![tactic(auto)]

mod forms;
mod lines;
mod trying;

use commands::{Command, status};
use std::env::Env;
use std::io::{Input, Print};
use std::time::Clock;
use streams::complaints::Complain;
use streams::program::{Obey, Words};
use streams::{ending, hearing, program, usage};

// `explain`: why the sheet on standard input is accepted or refused. Of its bytes one more is read than the longest plan has: it tells that a byte follows.
fn explain(rt: &(impl Input + Print + Complain)) -> u8 {
    let mut sheet: [u8; sheets::PLAN_READ] = [0; sheets::PLAN_READ];
    let Ok(length) = hearing::fill(rt, &mut rt.reader(), &mut sheet) else {
        return status::FAILED;
    };
    let e = command_explain::explain(&sheet[..length]);
    let said = (0..command_explain::phrase_count(e))
        .filter_map(|k| command_explain::phrase_at(e, k))
        .all(|phrase| ending::say_filled(rt, forms::words(phrase.form), phrase.numbers));
    if !said {
        return status::FAILED;
    }
    status::status_of(e.number)
}

// What this program does.
struct Adviser;

impl<R: Env + Clock + Input + Print + Complain> Obey<R> for Adviser {
    fn obey(&self, rt: &R, command: Command, words: Words) -> u8 {
        match command {
            Command::Explain => explain(rt),
            Command::Tune => trying::tune(rt, words.second, words.third),
            _ => usage::elsewhere(rt),
        }
    }
}

fn main(rt: HostRuntime) {
    program::run(&rt, &Adviser);
}
