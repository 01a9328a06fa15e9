// How a command ends: what it says on standard output or standard error, and then its status, which is told where it is asked for.
ghost use Rattle.std.specs.Prelude.{◌≡◌};
ghost use Rattle.commands.specs.Status.{status_of};
ghost use Rattle.streams.specs.Ends.{Ends, failed};

use crate::complaints::Complain;
use crate::{reading, reasons};
use commands::status;
use std::io::{Error, Print};
use text::Page;

// Where the status goes, if the first word asks for it.
const STATUS_FILENO: i32 = 3;

// The most bytes of a line that says a refusal, or names a line.
const LINE_SIZE: usize = 42;

// Says on standard error why, and fails.
pub(crate) fn complain(rt: &impl Complain, text: &[u8]) -> u8
    ensures { result ≡ failed }
{
    rt.complain(text);
    status::FAILED
}

// Says what the system says of this, and fails.
fn fail_at(rt: &impl Complain, what: &[u8], error: Error) -> u8
    ensures { result ≡ failed }
{
    reasons::say(rt, what, error);
    status::FAILED
}

// Standard input could not be read: says why.
pub fn unread_input(rt: &impl Complain, error: Error) -> u8
    ensures { result ≡ failed }
{
    fail_at(rt, b"olivastrum: standard input", error)
}

// Standard output could not be written: says why.
pub fn unwritten_output(rt: &impl Complain, error: Error) -> u8
    ensures { result ≡ failed }
{
    fail_at(rt, b"olivastrum: standard output", error)
}

// Writes on standard output; where that fails, says why, and answers false.
pub fn say(rt: &(impl Print + Complain), text: &[u8]) -> bool {
    match rt.write_all(text) {
        Ok(()) => true,
        Err(error) => {
            unwritten_output(rt, error);
            false
        }
    }
}

// Writes what was put at the start of a page, up to this place.
pub fn say_put(rt: &(impl Print + Complain), page: &[u8], put: usize) -> bool {
    let length = reading::further(0, put, page.len());
    say(rt, &page[..length])
}

// Writes words, with a number in the place of each `#`.
pub fn say_filled(rt: &(impl Print + Complain), words: &[u8], numbers: [u64; 6]) -> bool {
    let mut buffer = io::buffer();
    let mut page = Page::new(&mut buffer);
    page.put_filled(words, numbers);
    let put = page.length();
    say_put(rt, &buffer, put)
}

// Writes what was put at the start of a page on standard error.
pub fn warn_put(rt: &impl Complain, page: &[u8], put: usize) {
    let length = reading::further(0, put, page.len());
    rt.complain(&page[..length]);
}

// With this status, where what was to be said could be written.
fn ended(wrote: bool, status: u8) -> u8
    ensures { Ends status result }
{
    if !wrote {
        return status::FAILED;
    }
    status
}

// Writes an answer that ends with this status.
pub fn answer(rt: &(impl Print + Complain), text: &[u8], status: u8) -> u8
    ensures { Ends status result }
{
    ended(say(rt, text), status)
}

// Says the refusal on standard output.
pub fn refuse(rt: &(impl Print + Complain), number: u8) -> u8
    ensures { Ends (status_of number) result }
{
    let mut line: [u8; LINE_SIZE] = [0; LINE_SIZE];
    let mut page = Page::new(&mut line);
    page.put_refused(number);
    let length = page.length();
    answer(rt, &line[..length], status::status_of(number))
}

// Says the refusal on standard error, where a sheet was to be written on standard output.
pub fn refuse_sheet(rt: &impl Complain, number: u8) -> u8
    ensures { Ends (status_of number) result }
{
    let mut line: [u8; LINE_SIZE] = [0; LINE_SIZE];
    let mut page = Page::new(&mut line);
    page.put_refused(number);
    let length = page.length();
    let wrote = rt.complain(&line[..length]);
    ended(wrote, status::status_of(number))
}

// The line that cannot be read, said on standard error.
pub fn name_line(rt: &impl Complain, number: u64) -> u8
    ensures { result ≡ failed }
{
    let mut line: [u8; LINE_SIZE] = [0; LINE_SIZE];
    let mut page = Page::new(&mut line);
    page.put_unread(number);
    let length = page.length();
    complain(rt, &line[..length])
}

// Tells the status: a digit, since there are three.
pub fn tell(status: u8) {
    io::print_decimal(STATUS_FILENO, u64::from(status));
}
