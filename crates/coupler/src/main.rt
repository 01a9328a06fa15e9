// The program of the commands on a hopper train: it reads wagons and changes, hands the bytes to the crates below, writes what comes back, and says how it ended.
#![tactic(auto)]

mod listing;
mod planning;
mod refitting;

use commands::Command;
use std::env::Env;
use std::fs::Files;
use std::io::{Input, Print};
use std::os::fd::AsRawFd;
use streams::complaints::Complain;
use streams::program::{Obey, Words};
use streams::{program, usage};

// What this program does.
struct Coupler;

impl<R: Env + Files + Input + Print + Complain> Obey<R> for Coupler
where
    R::File: AsRawFd,
{
    fn obey(&self, rt: &R, command: Command, words: Words) -> u8 {
        match command {
            Command::Hopper => planning::hopper(rt),
            Command::HopperSheet => planning::hopper_sheet(rt),
            Command::Refit => refitting::refit(rt, words.second),
            _ => usage::elsewhere(rt),
        }
    }
}

fn main(rt: HostRuntime) {
    program::run(&rt, &Coupler);
}
