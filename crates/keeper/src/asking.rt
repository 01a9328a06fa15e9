// `kept STORE N` and `versions STORE`: what a store keeps. The file is read, and left alone.
use crate::files;
use commands::{Command, status};
use std::env::Env;
use std::fs::Files;
use std::io::Print;
use streams::complaints::Complain;
use streams::{ending, usage, words};

// Writes the plan of the version that a whole number asks for; refused, no byte is written.
fn write_kept(rt: &(impl Print + Complain), store: &[u8], number: &[u8]) -> u8 {
    let kept = command_versions::find_kept(store, number);
    if kept.number != 0 {
        return ending::refuse_sheet(rt, kept.number);
    }
    ending::answer(rt, &store[kept.from..kept.end], status::DONE)
}

// The same of the store in a file.
fn find(rt: &(impl Files + Print + Complain), path: &str, number: &[u8]) -> u8 {
    let mut area: [u8; files::STORE_READ] = [0; files::STORE_READ];
    match files::load(rt, path, &mut area) {
        Ok(length) => write_kept(rt, &area[..length], number),
        Err(_) => status::FAILED,
    }
}

// The same of the store whose path is the word at this place.
fn find_in(rt: &(impl Env + Files + Print + Complain), word: usize, number: &[u8]) -> u8 {
    if !number_words::is_whole(number) {
        return usage::misused(rt, Command::Kept);
    }
    match files::path(rt, word) {
        Ok(path) => find(rt, path.as_str(), number),
        Err(_) => status::FAILED,
    }
}

// `kept`: the path and the number are the words at these places.
pub(crate) fn kept(rt: &(impl Env + Files + Print + Complain), first: usize, second: usize) -> u8 {
    let mut number = io::buffer();
    match words::whole_word(rt, second, &mut number) {
        Ok(digits) => find_in(rt, first, &number[..digits]),
        Err(_) => usage::misused(rt, Command::Kept),
    }
}

// Prints the versions of the store in a file.
fn list(rt: &(impl Files + Print + Complain), path: &str) -> u8 {
    let mut area: [u8; files::STORE_READ] = [0; files::STORE_READ];
    let Ok(length) = files::load(rt, path, &mut area) else {
        return status::FAILED;
    };
    let mut page = io::large_buffer();
    let said = command_versions::versions_text(&area[..length], &mut page);
    ending::answer(rt, &page[..said.length], status::status_of(said.number))
}

// `versions`: the path is the word at this place.
pub(crate) fn versions(rt: &(impl Env + Files + Print + Complain), word: usize) -> u8 {
    match files::path(rt, word) {
        Ok(path) => list(rt, path.as_str()),
        Err(_) => status::FAILED,
    }
}
