// The program of the commands on a store of plan versions: it reads and replaces files, hands the bytes to the crates below, writes what comes back, and says how it ended.
#![tactic(auto)]

mod asking;
mod files;
mod keeping;
mod making;
mod replacing;

use commands::Command;
use std::env::Env;
use std::fs::Files;
use std::io::{Input, Print};
use std::os::fd::AsRawFd;
use streams::complaints::Complain;
use streams::program::{Obey, Words};
use streams::{program, usage};

// What this program does.
struct Keeper;

impl<R: Env + Files + Input + Print + Complain> Obey<R> for Keeper
where
    R::File: AsRawFd,
{
    fn obey(&self, rt: &R, command: Command, words: Words) -> u8 {
        match command {
            Command::EmptyStore => making::empty_store(rt, words.second),
            Command::Keep => keeping::keep(rt, words.second),
            Command::Kept => asking::kept(rt, words.second, words.third),
            Command::Versions => asking::versions(rt, words.second),
            _ => usage::elsewhere(rt),
        }
    }
}

fn main(rt: HostRuntime) {
    program::run(&rt, &Keeper);
}
