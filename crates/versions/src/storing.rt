// Storing: bytes move down inside the area, and a version is laid behind those that stay.
ghost use Rattle.std.specs.Prelude.{◌≡◌, ◌++◌, ◌+◌, ◌≤◌, length, take, drop};
ghost use Rattle.fields.specs.Rows.{laid};
ghost use Rattle.sheets.specs.Layout.{end_bytes};
ghost use Rattle.sheets.specs.Reading.{read_plan};
ghost use Rattle.versions.specs.Layout.{version_start, version_bytes, zero_bytes};
ghost use Rattle.versions.specs.Answers.{moved_down};
ghost use Rattle.versions.specs.Bounds.{StoreHolds, RoomMade, MovesDown, VersionRoom};

use crate::{MOST_KEPT, StoredPlan, VERSION_TAG, area};
use sheets::records;

// The number that reading the sheet gives. It has a frame of its own, which stands where that of the area's judgement stood, so that storing needs no more stack than judging.
#[inline(never)]
pub(crate) fn plan_number(sheet: &[u8]) -> u8
    ensures { result ≡ (read_plan sheet.now).number }
{
    sheets::plan_number(sheet)
}

// Writes n zeros from the place on.
pub(crate) fn clear(out: &mut [u8], from: usize, n: usize)
    requires { from + n ≤ length out.old }
    ensures { out.new ≡ laid out.old from (zero_bytes n) }
{
    out[from..from + n].fill(0);
}

// Moves n bytes from the place `by` on to the start.
fn move_down(out: &mut [u8], by: usize, n: usize)
    requires { by + n ≤ length out.old }
    ensures { out.new ≡ laid out.old 0 (take n (drop by out.old)) }
{
    out.copy_within(by..by + n, 0);
}

// Writes the bytes of a sheet from the place on.
fn copy_in(out: &mut [u8], from: usize, sheet: &[u8])
    requires { from + length sheet.now ≤ length out.old }
    ensures { out.new ≡ laid out.old from sheet.now }
{
    out[from..from + sheet.len()].copy_from_slice(sheet);
}

// Lets the oldest version go: the others move down, and what is no longer used becomes zero.
fn drop_oldest(area: &mut [u8], by: usize, end: usize)
    requires { MovesDown area.old by end }
    ensures { area.new ≡ moved_down area.old by end }
{
    move_down(area, by, end - by);
    clear(area, end - by, by + 3);
}

// Makes room for one more version, and gives its place: the oldest of sixteen goes.
pub(crate) fn make_room(area: &mut [u8], count: u32, end: usize) -> usize
    requires { StoreHolds area.old count end }
    ensures { RoomMade area.old area.new result }
{
    if count != MOST_KEPT {
        return end;
    }
    let by = area::size_at(area, 0) + 3;
    drop_oldest(area, by, end);
    end - by
}

// Writes the start of a version's field for a sheet of n bytes.
fn put_start(out: &mut [u8], at: usize, n: usize)
    requires { (n ≤ 3_356) × (at + 3 ≤ length out.old) }
    ensures { out.new ≡ laid out.old at (version_start n) }
{
    let size = n + 4;
    let whole = size / 256;
    let high = whole % 256;
    let low = size % 256;
    out[at] = VERSION_TAG;
    out[at + 1] = high as u8;
    out[at + 2] = low as u8;
}

// Writes a version, and the end behind it.
pub(crate) fn put_version(out: &mut [u8], at: usize, number: u32, sheet: &[u8])
    requires { VersionRoom out.old at sheet.now }
    ensures { out.new ≡ laid out.old at (version_bytes number sheet.now ++ end_bytes) }
{
    put_start(out, at, sheet.len());
    records::put_number(out, at + 3, number);
    copy_in(out, at + 7, sheet);
    records::put_end(out, at + 7 + sheet.len());
}

// A plan that is not stored.
pub(crate) fn refused(number: u8) -> StoredPlan
    ensures { result ≡ record { version = 0; number = number } }
{
    StoredPlan { version: 0, number }
}
