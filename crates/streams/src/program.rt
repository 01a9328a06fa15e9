// A program from its words to its status.
use crate::complaints::Complain;
use crate::{ending, words};
use commands::{Command, status};
use std::env::Env;

// Where the words stand: the first, which names the command, and those behind it.
#[derive(Clone, Copy)]
pub struct Words {
    pub first: usize,
    pub second: usize,
    pub third: usize,
}

// The first word is the program's first.
const BARE: Words = Words {
    first: 1,
    second: 2,
    third: 3,
};

// It stands behind the word that asks for the status.
const BEHIND: Words = Words {
    first: 2,
    second: 3,
    third: 4,
};

// What a program does.
pub trait Obey<R> {
    // Does the command, with the words behind it, and answers the status.
    fn obey(&self, rt: &R, command: Command, words: Words) -> u8;
}

// Does what the words ask for; where they ask for nothing that can be done, it was said why.
fn follow<R: Env + Complain>(rt: &R, words: Words, program: &impl Obey<R>) -> u8 {
    match words::command(rt, words.first) {
        Some(command) => program.obey(rt, command, words),
        None => status::FAILED,
    }
}

// Does what the program was called for, and tells the status where that is asked for.
pub fn run<R: Env + Complain>(rt: &R, program: &impl Obey<R>) {
    if !words::status_asked(rt) {
        follow(rt, BARE, program);
        return;
    }
    let status = follow(rt, BEHIND, program);
    ending::tell(status);
}
