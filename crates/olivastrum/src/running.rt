// `run PLAN`: the calls on standard input, answered line by line.
use command_run::Run;
use commands::status;
use std::io::{Input, Print};
use streams::complaints::Complain;
use streams::failing::{Failed, say};
use streams::hearing::Take;
use streams::{ending, hearing};

// The run behind what was read, and whether one of its lines could not be read.
#[derive(Clone, Copy)]
struct Heard {
    run: Run,
    unread: bool,
}

impl<R: Print + Complain> Take<R, Failed> for Heard {
    // Answers the lines that end in these bytes.
    fn take(self, rt: &R, text: &[u8]) -> Result<Heard, Failed> {
        let mut page = io::large_buffer();
        let ran = command_run::run_on(self.run, text, &mut page);
        let length = ran.length;
        say(rt, &page[..length])?;
        Ok(Heard {
            run: ran.run,
            unread: self.unread | ran.unread,
        })
    }
}

// Answers all the calls, and says whether one of their lines could not be read.
fn answer(rt: &(impl Input + Print + Complain), run: Run) -> Result<bool, Failed> {
    let begun = Heard { run, unread: false };
    let mut text: [u8; 256] = [0; 256];
    let last = hearing::hear_lines(rt, &mut text, begun)?;
    Ok(last.unread)
}

// Opens the ring of a plan sheet, and answers the calls.
pub(crate) fn start(rt: &(impl Input + Print + Complain), sheet: &[u8]) -> u8 {
    let opened = command_run::open_run(sheet);
    if opened.number != 0 {
        return ending::refuse(rt, opened.number);
    }
    match answer(rt, opened.run) {
        Ok(false) => status::DONE,
        Ok(true) => status::FAILED,
        Err(Failed) => status::FAILED,
    }
}
