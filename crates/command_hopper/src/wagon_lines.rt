// A line of a text of wagons.
ghost use Rattle.std.specs.Prelude.{◌≡◌};
ghost use Rattle.command_hopper.specs.Lists.{wagon_in, Narrow, on_next_line, first_unread, line_listed};

use crate::Listing;
use hopper::{Wagon, WagonList};
use line_reader::Scan;

// The letters of `wagon` as one number to base 256.
const WAGON: u64 = 512_735_276_910;

// The wagon of three numbers of a line.
pub(crate) fn wagon_in(s: Scan, first: usize) -> Wagon
    requires { Narrow s first }
    ensures { result ≡ wagon_in s first }
{
    let boxes = s.values[first];
    let brake = s.values[first + 1];
    let door = s.values[first + 2];
    Wagon {
        boxes: boxes as u32,
        brake: brake as u32,
        door: door as u32,
    }
}

// The next line, with this list and this first line that cannot be read.
fn on_next_line(listing: Listing, list: WagonList, unread: Option<u64>) -> Listing
    ensures { result ≡ on_next_line listing list unread }
{
    Listing {
        list,
        scan: line_reader::fresh(),
        line: line_reader::next_line(listing.line),
        unread,
    }
}

// The first line that cannot be read, where this one cannot.
fn first_unread(listing: Listing) -> Option<u64>
    ensures { result ≡ first_unread listing }
{
    listing.unread.or(Some(listing.line))
}

// A line ends: it is empty, or a wagon more, or cannot be read.
pub(crate) fn end_line(listing: Listing) -> Listing
    ensures { result ≡ line_listed listing }
{
    let read = listing.scan;
    if line_reader::is_empty_line(read) {
        return on_next_line(listing, listing.list, listing.unread);
    }
    if command_compose::is_line(read, WAGON, 3) {
        let longer = hopper::with_more(listing.list, wagon_in(read, 0));
        return on_next_line(listing, longer, listing.unread);
    }
    on_next_line(listing, listing.list, first_unread(listing))
}
