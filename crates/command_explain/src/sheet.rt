// What the bytes hold: a request sheet or a plan sheet, its number, and the place where the walk over it stopped.
ghost use Rattle.std.specs.Prelude.{◌≡◌, ◌<◌, ◌+◌};
ghost use Rattle.fields.specs.Fields.{left};
ghost use Rattle.fields.specs.Header.{behind_tag};
ghost use Rattle.command_explain.specs.Sheet.{is_plan, judged_as, skipped_by, place_at, place_in, said_number, said_head, ByteOrZero};

use crate::Place;
use fields::Passed;
use sets::Head;
use sheets::{ReadPlan, ReadRequest};
use units::numbers;

// How many bytes are left from a place on.
fn left_from(bs: &[u8], at: usize) -> usize
    ensures { result ≡ left bs.now at }
{
    bs.len().saturating_sub(at)
}

// The byte at a place; 0 where there is none.
fn byte_or_zero(bs: &[u8], at: usize) -> u32
    ensures { ByteOrZero bs.now at result }
{
    match bs.get(at) {
        Some(byte) => u32::from(*byte),
        None => 0,
    }
}

// The bytes are a plan sheet if they stop being a request sheet at an allocation, behind a station.
pub(crate) fn is_plan(bs: &[u8]) -> bool
    ensures { result ≡ is_plan bs.now }
{
    let scanned = field_reader::scan_sheet(bs, false);
    let tag = byte_or_zero(bs, scanned.at);
    let share = u32::from(fields::ALLOCATION_TAG);
    (1 <= scanned.passed.stations) & (tag == share)
}

// The number and S: of a plan sheet those of reading, of a request sheet those of `plan`.
pub(crate) fn judged(plan: bool, given: ReadPlan) -> ReadPlan
    ensures { result ≡ judged_as plan given }
{
    if plan {
        return given;
    }
    command_plan::plan_of(ReadRequest {
        set: given.set,
        number: given.number,
    })
}

// What stands at a place, where so many bytes are passed over.
fn place_at(bs: &[u8], at: usize, skipped: usize, passed: Passed) -> Place
    requires { skipped < 4 }
    ensures { result ≡ place_at bs.now at skipped passed }
{
    let there = left_from(bs, at);
    if there < 3 {
        return Place {
            byte: at as u64,
            left: there as u64,
            tag: 0,
            size: 0,
            passed,
        };
    }
    let high = u64::from(bs[at + 1]);
    let low = u64::from(bs[at + 2]);
    let byte = at + skipped;
    let behind = there - skipped;
    Place {
        byte: byte as u64,
        left: behind as u64,
        tag: u64::from(bs[at]),
        size: high * 256 + low,
        passed,
    }
}

// Of 3 the three bytes of the end field are passed over.
fn skipped_by(number: u8) -> usize
    ensures { result ≡ skipped_by number }
{
    if number == numbers::RUNS_ON {
        return 3;
    }
    0
}

// Where the walk over the bytes stops.
pub(crate) fn place_of(bs: &[u8], plan: bool) -> Place
    ensures { result ≡ place_in plan bs.now }
{
    let scanned = field_reader::scan_sheet(bs, plan);
    place_at(bs, scanned.at, skipped_by(scanned.number), scanned.passed)
}

// ---- the header's numbers as they stand in their fields

// The place behind a field of the header with this tag, if it stands there; else the place itself.
fn behind(bs: &[u8], at: usize, tag: u8) -> usize
    requires { at < 1_000 }
    ensures { (result ≡ behind_tag bs.now tag at) × (result < at + 8) }
{
    let there = byte_or_zero(bs, at);
    if there == u32::from(tag) {
        return at + 3 + fields::further_size(tag);
    }
    at
}

// The number in a field: what was read, but for 0, which stands for 1 too; the last byte tells.
fn said_number(bs: &[u8], last: usize, number: u32) -> u32
    ensures { result ≡ said_number bs.now last number }
{
    if number == 0 {
        return byte_or_zero(bs, last);
    }
    number
}

// All of them.
pub(crate) fn said_head(bs: &[u8], h: Head) -> Head
    ensures { result ≡ said_head bs.now h }
{
    let frame_at = behind(bs, 7, fields::MODE_TAG);
    let grid_at = behind(bs, frame_at, fields::FRAME_TAG);
    let mode = said_number(bs, 10, h.mode);
    let frame = said_number(bs, frame_at + 6, h.frame);
    let grid = said_number(bs, grid_at + 6, h.grid);
    Head {
        mode,
        frame,
        grid,
        ..h
    }
}
