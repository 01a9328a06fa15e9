// `log PLAN`: the log of the run that the calls on standard input make.
use command_log::Recording;
use commands::status;
use std::io::{Input, Print};
use streams::complaints::Complain;
use streams::failing::{Failed, say};
use streams::hearing::Take;
use streams::{ending, hearing};

// The log behind what was read.
#[derive(Clone, Copy)]
struct Heard {
    recording: Recording,
}

impl<R: Print + Complain> Take<R, Failed> for Heard {
    // Writes the fields of the visits and marks in the lines that end in these bytes.
    fn take(self, rt: &R, text: &[u8]) -> Result<Heard, Failed> {
        let mut page = io::large_buffer();
        let recorded = command_log::record_on(self.recording, text, &mut page);
        let length = recorded.length;
        say(rt, &page[..length])?;
        Ok(Heard {
            recording: recorded.recording,
        })
    }
}

// Writes the log of an opened ring, its first bytes and then what the calls record; the first line that cannot be read, if there is one.
fn write(
    rt: &(impl Input + Print + Complain),
    first: &[u8],
    recording: Recording,
) -> Result<Option<u64>, Failed> {
    say(rt, first)?;
    let mut text: [u8; 256] = [0; 256];
    let last = hearing::hear_lines(rt, &mut text, Heard { recording })?;
    let mut end: [u8; 3] = [0; 3];
    sheets::records::put_end(&mut end, 0);
    say(rt, &end)?;
    Ok(last.recording.unread)
}

// Opens the ring of a plan sheet, and records the calls; behind the log the first line that cannot be read is named.
pub(crate) fn start(rt: &(impl Input + Print + Complain), sheet: &[u8]) -> u8 {
    let mut out = io::large_buffer();
    let opened = command_log::open_log(sheet, &mut out);
    if opened.number != 0 {
        return ending::refuse_sheet(rt, opened.number);
    }
    let length = opened.length;
    match write(rt, &out[..length], opened.recording) {
        Ok(None) => status::DONE,
        Ok(Some(line)) => ending::name_line(rt, line),
        Err(Failed) => status::FAILED,
    }
}
