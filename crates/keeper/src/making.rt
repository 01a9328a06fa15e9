// `empty-store STORE`: the file is made, a store without a version; one that is there already is not touched.
use crate::replacing::Locked;
use crate::{files, replacing};
use commands::status;
use std::env::Env;
use std::fs::{Files, OpenFile};
use std::io::Write;
use std::os::fd::AsRawFd;
use streams::complaints::Complain;

// The new file stands, and no other keeper goes on: where nothing has the store's name, the empty store takes it.
fn hold(
    rt: &(impl Files + Complain),
    path: &str,
    new: &str,
    file: &mut (impl Write + OpenFile),
) -> u8 {
    if !replacing::is_free(rt, path) {
        return replacing::give_up(rt, new);
    }
    let mut area = io::large_buffer();
    versions::empty_store(&mut area);
    replacing::replace(rt, path, new, file, &area)
}

// Makes the store of this path.
fn make<R: Files + Complain>(rt: &R, path: &str) -> u8
where
    R::File: AsRawFd,
{
    match replacing::lock(rt, path) {
        Some(Locked { new, mut file }) => hold(rt, path, new.as_str(), &mut file),
        None => status::FAILED,
    }
}

// Makes the store whose path is the word at this place.
pub(crate) fn empty_store<R: Env + Files + Complain>(rt: &R, word: usize) -> u8
where
    R::File: AsRawFd,
{
    match files::path(rt, word) {
        Ok(path) => make(rt, path.as_str()),
        Err(_) => status::FAILED,
    }
}
