// `refit LIST`: the train of the wagon list in the file LIST is coupled, and each change on standard input is answered.
use crate::listing;
use command_hopper::{Listing, Refit};
use commands::status;
use std::env::Env;
use std::fs::Files;
use std::io::{Input, Print};
use std::os::fd::AsRawFd;
use streams::complaints::Complain;
use streams::failing::{Failed, say};
use streams::hearing::Take;
use streams::loading::Opened;
use streams::{ending, hearing, loading};

// The changes behind what was read, and whether one of their lines could not be read.
#[derive(Clone, Copy)]
struct Heard {
    refit: Refit,
    unread: bool,
}

// ---- the changes

// Takes a byte, and writes the answer where a line ends there.
fn hear_byte(
    rt: &(impl Print + Complain),
    heard: Heard,
    byte: u8,
    page: &mut [u8],
) -> Result<Heard, Failed> {
    let read = command_hopper::refit_byte(heard.refit, byte, page);
    let length = read.length;
    say(rt, &page[..length])?;
    Ok(Heard {
        refit: read.refit,
        unread: heard.unread | read.unread,
    })
}

impl<R: Print + Complain> Take<R, Failed> for Heard {
    // Answers the lines that end in these bytes, one after the other.
    fn take(self, rt: &R, text: &[u8]) -> Result<Heard, Failed> {
        let mut page = io::large_buffer();
        let mut heard = self;
        for byte in text {
            heard = hear_byte(rt, heard, *byte, &mut page)?;
        }
        Ok(heard)
    }
}

// Answers all the changes of a train, and says whether one of their lines could not be read.
fn answer(rt: &(impl Input + Print + Complain), refit: Refit) -> Result<bool, Failed> {
    let begun = Heard {
        refit,
        unread: false,
    };
    let mut text: [u8; 256] = [0; 256];
    let last = hearing::hear_lines(rt, &mut text, begun)?;
    Ok(last.unread)
}

// ---- the list

// Couples the train of a list that was read, and answers its changes; of one that is refused no change is looked at.
fn couple(rt: &(impl Input + Print + Complain), listing: Listing) -> u8 {
    if let Some(line) = listing.unread {
        return ending::name_line(rt, line);
    }
    let coupled = hopper::couple_train(listing.list);
    if coupled.number != 0 {
        return ending::refuse(rt, coupled.number);
    }
    match answer(rt, command_hopper::begin_refit(coupled.train)) {
        Ok(false) => status::DONE,
        Ok(true) => status::FAILED,
        Err(Failed) => status::FAILED,
    }
}

// Takes the list whose path is the word at this place: its file is closed before a change is read, and one that cannot be read is named. A list that is opened as one of the three would be read as the changes, or written over.
pub(crate) fn refit<R: Env + Files + Input + Print + Complain>(rt: &R, word: usize) -> u8
where
    R::File: AsRawFd,
{
    let Ok(Opened { path, mut file }) = loading::open(
        rt,
        b"refit: ",
        b"the path of the wagon list",
        [b"", b"refit: standard input, output or error is closed\n"],
        word,
    ) else {
        return status::FAILED;
    };
    match listing::read(&mut file) {
        Ok(listing) => {
            drop(file);
            couple(rt, listing)
        }
        Err(error) => loading::fail(rt, b"refit: ", path.as_str().as_bytes(), error),
    }
}
