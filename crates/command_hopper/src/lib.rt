// The texts of `hopper`, `hopper-sheet` and `refit`: wagons and changes read line by line, and what is printed of a list and of a change.
#![tactic(auto)]

mod change_lines;
mod wagon_lines;

ghost use Rattle.std.specs.Prelude.{◌≡◌};
ghost use Rattle.text.specs.Text.{Says};
ghost use Rattle.command_hopper.specs.Lists.{list_start, list_on, list_over};
ghost use Rattle.command_hopper.specs.Refits.{is_unread, hopper_text, hopper_number, refit_from, RefitRead};

use hopper::{Train, WagonList};
use line_reader::Scan;
use text::{PAGE_SIZE, Said};

// A text of wagons that is being read.
#[derive(Clone, Copy)]
pub struct Listing {
    pub list: WagonList,
    pub scan: Scan,
    // The number of the line that is being read.
    pub line: u64,
    // The first line that cannot be read, if there is one.
    pub unread: Option<u64>,
}

// What a line of changes was answered.
#[derive(Clone, Copy)]
pub enum Change {
    // The line is empty.
    Nothing,
    // A change was asked for: 0, or the refusal.
    Answered(u8),
    // The line is neither empty nor a change.
    Unread,
}

impl Change {
    // The line is neither empty nor a change.
    pub fn is_unread(self) -> bool
        ensures { result ≡ is_unread self }
    {
        matches!(self, Change::Unread)
    }
}

// What a line did: the train behind it, and the answer.
#[derive(Clone, Copy)]
pub(crate) struct Changed {
    train: Train,
    change: Change,
}

// A text of changes that is being read: the train, what was read of the line, and the line's number.
#[repr(C)]
#[derive(Clone, Copy)]
pub struct Refit {
    pub train: Train,
    pub scan: Scan,
    pub line: u64,
}

// What a byte did: where the changes stand, how many bytes of the page are the answer, and whether a line ended there that cannot be read.
#[repr(C)]
#[derive(Clone, Copy)]
pub struct Refitted {
    pub refit: Refit,
    pub length: usize,
    pub unread: bool,
}

// ---- a list

// Nothing was read of a text of wagons.
pub fn begin_list() -> Listing
    ensures { result ≡ list_start }
{
    Listing {
        list: hopper::blank_list(),
        scan: line_reader::fresh(),
        line: 1,
        unread: None,
    }
}

// One byte more of the text; a newline ends a line.
pub fn list_byte(listing: Listing, byte: u8) -> Listing
    ensures { result ≡ list_on listing byte }
{
    if byte == b'\n' {
        return wagon_lines::end_line(listing);
    }
    let scan = line_reader::step(listing.scan, byte);
    Listing { scan, ..listing }
}

// All the bytes of a piece of the text.
pub fn list_bytes(listing: Listing, text: &[u8]) -> Listing
    ensures { result ≡ list_over listing text.now }
{
    let mut stands = listing;
    for byte in text {
        stands = list_byte(stands, *byte);
    }
    stands
}

// What `hopper` prints of a list, put at the start of the page, and its number.
pub fn hopper_text(list: WagonList, page: &mut [u8]) -> Said
    ensures { Says (hopper_text list) (hopper_number list) page.old page.new result }
{
    let request = hopper::request_of(list);
    command_plan::request_text(request, page)
}

// ---- changes

// The changes of a train begin.
pub fn begin_refit(train: Train) -> Refit
    ensures { result ≡ refit_from train }
{
    Refit {
        train,
        scan: line_reader::fresh(),
        line: 1,
    }
}

// One byte more of the changes: at a line's end the answer is put at the start of the page. A page that is too small leaves all as it was.
pub fn refit_byte(refit: Refit, byte: u8, page: &mut [u8]) -> Refitted
    ensures { RefitRead refit byte page.old page.new result }
{
    if page.len() < PAGE_SIZE {
        return Refitted {
            refit,
            length: 0,
            unread: false,
        };
    }
    if byte == b'\n' {
        return change_lines::end_line(refit, page);
    }
    let scan = line_reader::step(refit.scan, byte);
    Refitted {
        refit: Refit { scan, ..refit },
        length: 0,
        unread: false,
    }
}
