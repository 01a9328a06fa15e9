// The fields of a sheet, one at a place: a tag byte, two length bytes, then the body.
#![tactic(auto)]

pub mod bytes;

ghost use Rattle.std.specs.Prelude.{◌≡◌};
ghost use Rattle.fields.specs.Bounds.{LentBytes};
ghost use Rattle.fields.specs.Fields.{left, further_size, is_further, in_header, is_allowed, allocations_for, field_at};
ghost use Rattle.fields.specs.Header.{header_number};

use units::numbers;

// ---- the tags, each with its one length

pub const HEAD_TAG: u8 = 1;

pub const HEAD_SIZE: usize = 4;

pub const STATION_TAG: u8 = 2;

pub const STATION_SIZE: usize = 16;

pub const ALLOCATION_TAG: u8 = 3;

pub const ALLOCATION_SIZE: usize = 4;

pub const MODE_TAG: u8 = 4;

pub const MODE_SIZE: usize = 1;

pub const FRAME_TAG: u8 = 5;

pub const FRAME_SIZE: usize = 4;

// As long as F's.
pub const GRID_TAG: u8 = 6;

// How many fields the header has behind TTRT; their tags follow one another, from the mode's on.
pub const FURTHER_COUNT: u8 = 3;

pub const END_TAG: u8 = 255;

pub const END_SIZE: usize = 0;

// Which sheet it is, a plan or a request, and which of its fields have passed: the highest tag of the header's fields, 0 before the first; where the header's fields end and the stations begin; how many stations, and how many allocations.
#[derive(Clone, Copy)]
pub struct Passed {
    pub plan: bool,
    pub head: u8,
    pub from: usize,
    pub stations: usize,
    pub allocations: usize,
}

// A field that is handed out: its tag, where its body begins, and where the next field does. With a refusal these are 0.
#[derive(Clone, Copy)]
pub struct Field {
    pub number: u8,
    pub tag: u8,
    pub body: usize,
    pub next: usize,
}

// How many allocations a sheet with n stations has.
pub fn allocations_for(plan: bool, n: usize) -> usize
    ensures { result ≡ allocations_for plan n }
{
    if plan { n } else { 0 }
}

// The length of a field of the header behind TTRT: the mode's, and F's for every other.
#[tactic(auto, unfolding(crate::specs::Fields::further_size))]
pub fn further_size(tag: u8) -> usize
    ensures { result ≡ further_size tag }
{
    if tag == MODE_TAG {
        MODE_SIZE
    } else {
        FRAME_SIZE
    }
}

// A field of the header behind TTRT, with its one length.
fn is_further(tag: u8, size: usize) -> bool
    ensures { result ≡ is_further tag size }
{
    let its = further_size(tag);
    (MODE_TAG <= tag) & (tag <= GRID_TAG) & (size == its)
}

// Such a field may stand next: behind TTRT, before the first station, and above the header's fields that have passed.
fn in_header(passed: Passed, tag: u8) -> bool
    ensures { result ≡ in_header passed tag }
{
    let headed = HEAD_TAG <= passed.head;
    headed & (passed.head < tag) & (passed.stations == 0)
}

// The tag with this length may stand next: a row for each tag, with its one length; then the further fields of the header.
#[tactic(auto, unfolding(crate::specs::Fields::is_allowed))]
fn is_allowed(passed: Passed, tag: u8, size: usize) -> bool
    ensures { result ≡ is_allowed passed tag size }
{
    let headed = HEAD_TAG <= passed.head;
    let due = allocations_for(passed.plan, passed.stations);
    match tag {
        HEAD_TAG => (size == HEAD_SIZE) & !headed,
        STATION_TAG => {
            (size == STATION_SIZE) & headed & (passed.stations < 128) & (passed.allocations == 0)
        }
        ALLOCATION_TAG => (size == ALLOCATION_SIZE) & headed & (passed.allocations < due),
        END_TAG => {
            (size == END_SIZE) & headed & (1 <= passed.stations) & (passed.allocations == due)
        }
        _ => is_further(tag, size) & in_header(passed, tag),
    }
}

// ---- the numbers of the header behind TTRT

// What an absent field means.
pub const ABSENT: u32 = 1;

// The number that a field of the header gives: what its absence means where it is not there, else its own number. A field that is there and says what its absence means gives 0, which no range allows.
#[tactic(auto, unfolding(crate::specs::Header::header_number))]
pub fn header_number(there: bool, number: u32) -> u32
    ensures { result ≡ header_number there number }
{
    if !there {
        return ABSENT;
    }
    if number == ABSENT {
        return 0;
    }
    number
}

// ---- what is found at a place

// How many bytes are left from a place on.
fn left_from(bs: &[u8], at: usize) -> usize
    ensures { result ≡ left bs.now at }
{
    bs.len().saturating_sub(at)
}

// How many bytes a lent slice has. Each of them is below 256, as some promises ask of the bytes of a sheet.
pub fn count_bytes(bs: &[u8]) -> usize
    ensures { LentBytes bs.now result }
{
    left_from(bs, 0)
}

// A field that was refused.
fn refused(number: u8) -> Field
    ensures { result ≡ record { number = number; tag = 0; body = 0; next = 0 } }
{
    Field {
        number,
        tag: 0,
        body: 0,
        next: 0,
    }
}

// The field at a place, or 1 or 2: fewer than three bytes left, then a tag or length not allowed there, then a body cut short.
pub fn field_at(bs: &[u8], at: usize, passed: Passed) -> Field
    ensures { result ≡ field_at bs.now at passed }
{
    if left_from(bs, at) < 3 {
        return refused(numbers::CUT_SHORT);
    }
    let tag = bs[at];
    let size = bytes::short_at(bs, at + 1);
    if !is_allowed(passed, tag, size) {
        return refused(numbers::WRONG_SHAPE);
    }
    let body = at + 3;
    if left_from(bs, body) < size {
        return refused(numbers::CUT_SHORT);
    }
    Field {
        number: numbers::ACCEPTED,
        tag,
        body,
        next: body + size,
    }
}
