// A store's file is made and replaced as a whole or not at all: a new one, `STORE.new`, is written beside it and takes its name. That one is also the lock: where it stands, no other keeper goes on.
use crate::files;
use commands::status;
use std::fs;
use std::fs::{Files, OpenFile, OpenOptions};
use std::io::{Error, ErrorKind, Write};
use std::os::fd::AsRawFd;
use streams::complaints::Complain;
use streams::loading;
use streams::words::{PathText, WORD_SIZE};

// The longest path that has room for `.new` behind it.
const LONGEST: usize = WORD_SIZE - 4;

// The path of the file beside a store, or none where it is too long.
fn beside(path: &str) -> Option<PathText> {
    if path.len() > LONGEST {
        return None;
    }
    let mut new = PathText::new();
    new.try_push_str(path).ok()?;
    new.try_push_str(".new").ok()?;
    Some(new)
}

// Whether nothing has this name; where something has, or that is not known, it is said.
pub(crate) fn is_free(rt: &(impl Files + Complain), path: &str) -> bool {
    match fs::symlink_metadata(rt, path) {
        Ok(_) => {
            files::fail_saying(rt, path, b": File exists\n");
            false
        }
        Err(error) => {
            if error.kind() == ErrorKind::NotFound {
                return true;
            }
            files::fail(rt, path, error);
            false
        }
    }
}

// Whether a symbolic link has this name.
fn is_link(rt: &impl Files, path: &str) -> bool {
    fs::symlink_metadata(rt, path).is_ok_and(|found| found.is_symlink())
}

// The file beside the store cannot be made: it is named, and where it stands already it is said what to do.
fn not_made(rt: &impl Complain, new: &str, error: Error) {
    files::fail(rt, new, error);
    if error.kind() == ErrorKind::AlreadyExists {
        rt.complain(b"olivastrum: another keeper is at work, or one was stopped: remove ");
        rt.complain(new.as_bytes());
        rt.complain(b" once no keeper runs\n");
    }
}

// Makes the file beside the store, and hands it out open; or none, and why is said.
fn make<R: Files + Complain>(rt: &R, new: &str) -> Option<R::File>
where
    R::File: AsRawFd,
{
    let file = match OpenOptions::new()
        .write(true)
        .create_new(true)
        .open(rt, new)
    {
        Ok(file) => file,
        Err(error) => {
            not_made(rt, new, error);
            return None;
        }
    };
    if loading::is_standard(&file) {
        let _ = fs::remove_file(rt, new);
        let line = b"olivastrum: standard input, output or error is closed\n";
        loading::fail_closed(rt, [b"", line]);
        return None;
    }
    Some(file)
}

// The file beside a store, which is open, and its path.
#[derive(Drop)]
pub(crate) struct Locked<F> {
    pub(crate) new: PathText,
    pub(crate) file: F,
}

// Locks the store of this path; or answers none, and why is said. A link is refused: its name would become a store of its own.
pub(crate) fn lock<R: Files + Complain>(rt: &R, path: &str) -> Option<Locked<R::File>>
where
    R::File: AsRawFd,
{
    let Some(new) = beside(path) else {
        files::fail_long(rt);
        return None;
    };
    if is_link(rt, path) {
        files::fail_saying(rt, path, b" is a link: name the store itself\n");
        return None;
    }
    let file = make(rt, new.as_str())?;
    Some(Locked { new, file })
}

// The new file is taken away again; why was said.
pub(crate) fn give_up(rt: &impl Files, new: &str) -> u8 {
    let _ = fs::remove_file(rt, new);
    status::FAILED
}

// The new file takes the store's name, and that reaches the device.
fn take_name(rt: &(impl Files + Complain), path: &str, new: &str, folder: &impl OpenFile) -> u8 {
    if let Err(error) = fs::rename(rt, new, path) {
        files::fail(rt, new, error);
        return give_up(rt, new);
    }
    if let Err(error) = folder.sync_all() {
        return files::fail(rt, files::folder_of(path), error);
    }
    status::DONE
}

// The bytes go into the new file, which takes the store's name; all has reached the device then. The folder is opened before that: behind it only its sync may fail.
pub(crate) fn replace<R: Files + Complain>(
    rt: &R,
    path: &str,
    new: &str,
    file: &mut (impl Write + OpenFile),
    bytes: &[u8],
) -> u8 {
    if let Err(error) = files::write_through(file, bytes) {
        files::fail(rt, new, error);
        return give_up(rt, new);
    }
    let folder = files::folder_of(path);
    match fs::open(rt, folder) {
        Ok(open) => take_name(rt, path, new, &open),
        Err(error) => {
            files::fail(rt, folder, error);
            give_up(rt, new)
        }
    }
}
