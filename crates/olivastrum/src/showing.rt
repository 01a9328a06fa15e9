// `show`: the text of the sheet or log on standard input, or the refusal.
use command_show_log::Showing;
use commands::status;
use std::io::{Input, Print, Read};
use std::ops::ControlFlow;
use streams::complaints::Complain;
use streams::failing::{Failed, say};
use streams::hearing::Look;
use streams::{ending, hearing, reading};

// Writes the lines of the records that end in these bytes.
fn see(rt: &(impl Print + Complain), showing: Showing, bytes: &[u8]) -> Result<Showing, Failed> {
    let mut page = io::large_buffer();
    let shown = command_show_log::show_on(showing, bytes, &mut page);
    let length = shown.length;
    say(rt, &page[..length])?;
    Ok(shown.showing)
}

// What was shown.
#[derive(Clone, Copy)]
struct Seen {
    showing: Showing,
}

impl<R: Print + Complain> Look<R> for Seen {
    // No record is enough: each has its line.
    fn look(self, rt: &R, bytes: &[u8]) -> Result<ControlFlow<Seen, Seen>, Failed> {
        Ok(ControlFlow::Continue(Seen {
            showing: see(rt, self.showing, bytes)?,
        }))
    }
}

// The rest of the input.
fn see_rest(
    rt: &(impl Print + Complain),
    from: &mut impl Read,
    showing: Showing,
) -> Result<Showing, Failed> {
    let mut bytes: [u8; 512] = [0; 512];
    let seen = hearing::fill_all(rt, from, &mut bytes, Seen { showing })?;
    Ok(seen.showing)
}

// Writes the lines of the log's first bytes, and of the records in these, 512 at a time.
fn see_head(
    rt: &(impl Print + Complain),
    begun: Showing,
    first: &[u8],
    records: &[u8],
) -> Result<Showing, Failed> {
    say(rt, first)?;
    let mut showing = begun;
    for bytes in records.chunks(512) {
        showing = see(rt, showing, bytes)?;
    }
    Ok(showing)
}

// The refusal, if there is one.
fn finish(rt: &(impl Print + Complain), showing: Showing) -> u8 {
    let mut page = io::large_buffer();
    let said = command_show_log::show_end(showing, &mut page);
    let length = said.length;
    ending::answer(rt, &page[..length], status::status_of(said.number))
}

// The longest plan has 3,353 bytes without its end, and a record at most 20: both lie in the first 3,400, if the input has them.
pub(crate) fn show(rt: &(impl Input + Print + Complain)) -> u8 {
    let mut head: [u8; log_stream::FIRST_SIZE] = [0; log_stream::FIRST_SIZE];
    let mut input = rt.reader();
    let Ok(read) = hearing::fill(rt, &mut input, &mut head) else {
        return status::FAILED;
    };
    let mut page = io::large_buffer();
    let begun = command_show_log::show_start(&head[..read], &mut page);
    let length = begun.length;
    if !begun.log {
        return ending::answer(rt, &page[..length], status::status_of(begun.number));
    }
    let at = reading::further(0, begun.at, read);
    let Ok(showing) = see_head(rt, begun.showing, &page[..length], &head[at..read]) else {
        return status::FAILED;
    };
    if read < log_stream::FIRST_SIZE {
        return finish(rt, showing);
    }
    match see_rest(rt, &mut input, showing) {
        Ok(showing) => finish(rt, showing),
        Err(Failed) => status::FAILED,
    }
}
