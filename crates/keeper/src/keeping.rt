// `keep STORE`: the plan sheet on standard input becomes the next version of the store in a file.
use crate::replacing::Locked;
use crate::{files, replacing};
use commands::status;
use std::env::Env;
use std::fs;
use std::fs::{Files, OpenFile};
use std::io::{Input, Print, Write};
use std::os::fd::AsRawFd;
use streams::complaints::Complain;
use streams::{ending, hearing};
use versions::StoredPlan;

// Says what storing answered.
fn say(rt: &(impl Print + Complain), stored: StoredPlan) -> u8 {
    let mut page = io::large_buffer();
    let said = command_versions::keep_text(stored, &mut page);
    ending::answer(rt, &page[..said.length], status::status_of(said.number))
}

// Stores the plan in the bytes of the store, and those replace the file; only then is the version said.
fn store(
    rt: &(impl Files + Print + Complain),
    path: &str,
    new: &str,
    file: &mut (impl Write + OpenFile),
    area: &mut [u8],
    sheet: &[u8],
) -> u8 {
    let stored = versions::store_plan(area, sheet);
    if stored.number != 0 {
        let _ = fs::remove_file(rt, new);
        return say(rt, stored);
    }
    let status = replacing::replace(rt, path, new, file, area);
    if status != status::DONE {
        return status;
    }
    say(rt, stored)
}

// The new file stands, and no other keeper goes on: the store is read and replaced.
fn hold(
    rt: &(impl Files + Print + Complain),
    path: &str,
    new: &str,
    file: &mut (impl Write + OpenFile),
    sheet: &[u8],
) -> u8 {
    let mut area: [u8; files::STORE_READ] = [0; files::STORE_READ];
    match files::load(rt, path, &mut area) {
        Ok(length) => store(rt, path, new, file, &mut area[..length], sheet),
        Err(_) => replacing::give_up(rt, new),
    }
}

// Keeps the plan in the store of this path.
fn keep_in<R: Files + Print + Complain>(rt: &R, path: &str, sheet: &[u8]) -> u8
where
    R::File: AsRawFd,
{
    match replacing::lock(rt, path) {
        Some(Locked { new, mut file }) => hold(rt, path, new.as_str(), &mut file, sheet),
        None => status::FAILED,
    }
}

// Reads the plan sheet on standard input first: the lock is held for a moment, and not while someone types. The path is the word at this place.
pub(crate) fn keep<R: Env + Files + Input + Print + Complain>(rt: &R, word: usize) -> u8
where
    R::File: AsRawFd,
{
    let mut sheet: [u8; sheets::PLAN_READ] = [0; sheets::PLAN_READ];
    let Ok(length) = hearing::fill(rt, &mut rt.reader(), &mut sheet) else {
        return status::FAILED;
    };
    match files::path(rt, word) {
        Ok(path) => keep_in(rt, path.as_str(), &sheet[..length]),
        Err(_) => status::FAILED,
    }
}
