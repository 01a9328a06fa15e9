// `compose`: the sheet of the text on standard input, or the log; a log's bytes go out as its lines come.
use crate::complaining;
use command_compose::{Composing, Draft};
use commands::status;
use std::io::{Input, Print};
use streams::complaints::Complain;
use streams::failing::{Failed, say};
use streams::hearing::Take;
use streams::{ending, hearing};
use text_faults::Watch;
use units::numbers;

// The text behind what was read, and what is watched in it.
#[derive(Clone, Copy)]
struct Reading {
    composing: Composing,
    watch: Watch,
}

impl<R: Print + Complain> Take<R, Failed> for Reading {
    // Takes these bytes of the text, and writes what they let out.
    fn take(self, rt: &R, text: &[u8]) -> Result<Reading, Failed> {
        let mut page = io::large_buffer();
        let composed = command_compose::compose_on(self.composing, text, &mut page);
        let length = composed.length;
        say(rt, &page[..length])?;
        Ok(Reading {
            composing: composed.composing,
            watch: text_faults::watch_on(self.watch, text),
        })
    }
}

// The whole text; its last line may lack its newline.
fn read(rt: &(impl Input + Print + Complain)) -> Result<Reading, Failed> {
    let mut text: [u8; 2_048] = [0; 2_048];
    let begun = Reading {
        composing: command_compose::begin(),
        watch: text_faults::begin(),
    };
    hearing::hear_lines(rt, &mut text, begun)
}

// Writes the sheet or the end of the log, or says why there is none.
fn write(rt: &(impl Print + Complain), draft: Draft, watch: Watch) -> u8 {
    let mut out = io::large_buffer();
    let written = command_compose::compose_end(draft, &mut out);
    let length = written.length;
    let number = written.number;
    if number != 0 {
        let status = ending::refuse_sheet(rt, number);
        if number == numbers::OUT_OF_RANGE {
            complaining::name_number(rt, watch);
        }
        return status;
    }
    ending::answer(rt, &out[..length], status::DONE)
}

pub(crate) fn compose(rt: &(impl Input + Print + Complain)) -> u8 {
    let Ok(read) = read(rt) else {
        return status::FAILED;
    };
    let draft = read.composing.draft;
    if let Some(line) = draft.unread {
        let status = ending::name_line(rt, line);
        complaining::name_word(rt, read.watch);
        return status;
    }
    write(rt, draft, read.watch)
}
