// `hopper` and `hopper-sheet`: the wagon list on standard input, its plan or its request sheet.
use crate::listing;
use commands::status;
use hopper::WagonList;
use std::io::{Input, Print};
use streams::complaints::Complain;
use streams::{ending, reading};

// Prints the plan of a list, or the refusal.
fn print_plan(rt: &(impl Print + Complain), list: WagonList) -> u8 {
    let mut page = io::large_buffer();
    let said = command_hopper::hopper_text(list, &mut page);
    let length = said.length;
    ending::answer(rt, &page[..length], status::status_of(said.number))
}

// Writes the request sheet of a list; refused, no byte is written.
fn write_sheet(rt: &(impl Print + Complain), list: WagonList) -> u8 {
    let mut out = io::buffer();
    let written = hopper::write_sheet(list, &mut out);
    let number = written.number;
    if number != 0 {
        return ending::refuse_sheet(rt, number);
    }
    let length = reading::further(0, written.length, out.len());
    ending::answer(rt, &out[..length], status::DONE)
}

// Reads the list; of one with a line that cannot be read the first such line is named, and nothing else is said.
fn obey(rt: &(impl Input + Print + Complain), sheet: bool) -> u8 {
    let listing = match listing::read(&mut rt.reader()) {
        Ok(listing) => listing,
        Err(error) => return ending::unread_input(rt, error),
    };
    if let Some(line) = listing.unread {
        return ending::name_line(rt, line);
    }
    if sheet {
        return write_sheet(rt, listing.list);
    }
    print_plan(rt, listing.list)
}

// `hopper`: what `plan` prints of the list's request sheet.
pub(crate) fn hopper(rt: &(impl Input + Print + Complain)) -> u8 {
    obey(rt, false)
}

// `hopper-sheet`: that sheet.
pub(crate) fn hopper_sheet(rt: &(impl Input + Print + Complain)) -> u8 {
    obey(rt, true)
}
