// The program of the commands on texts, rings and logs: it reads, hands the bytes to the crates below, writes what comes back, and says how it ended.
#![tactic(auto)]

mod complaining;
mod composing;
mod diffing;
mod inspecting;
mod logging;
mod planned;
mod running;
mod showing;

use commands::Command;
use planned::Planned;
use std::env::Env;
use std::fs::Files;
use std::io::{Input, Print};
use std::os::fd::AsRawFd;
use streams::complaints::Complain;
use streams::program::{Obey, Words};
use streams::{program, usage};

// What this program does.
struct Olivastrum;

impl<R: Env + Files + Input + Print + Complain> Obey<R> for Olivastrum
where
    R::File: AsRawFd,
{
    fn obey(&self, rt: &R, command: Command, words: Words) -> u8 {
        match command {
            Command::Compose => composing::compose(rt),
            Command::Show => showing::show(rt),
            Command::Run => planned::obey(rt, Planned::Run, words.second),
            Command::Log => planned::obey(rt, Planned::Log, words.second),
            Command::Inspect => inspecting::inspect(rt, words.second),
            Command::Diff => diffing::diff(rt, words.second, words.third),
            Command::Help => command_help::print(rt),
            _ => usage::elsewhere(rt),
        }
    }
}

fn main(rt: HostRuntime) {
    program::run(&rt, &Olivastrum);
}
