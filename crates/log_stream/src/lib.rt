// The records of a log, read byte after byte: what stands behind a plan's fields may come in pieces of any length.
#![tactic(auto)]

ghost use Rattle.std.specs.Prelude.{◌≡◌, ◌&&◌, ◌<◌, eqb};
ghost use Rattle.fields.specs.Fields.{tag_at, size_at};
ghost use Rattle.log_stream.specs.Pieces.{nothing_read, is_whole, at_field, with_byte, faulty, told, stepped, number_of, entry_in};

use log_records::{Entry, NextEntry};
use units::numbers;

// How many bytes of a log a program reads first: the fields of the longest plan have 3,353, and a record behind them at most 20.
pub const FIRST_SIZE: usize = 3_400;

// What is kept of a log's records between two bytes.
#[repr(C)]
#[derive(Clone, Copy)]
pub struct Gathered {
    // The bytes of the field that is being read, with zeros behind them: a visit's are 20, a mark's 5.
    pub bytes: [u8; 20],
    // How many they are. Where they are as many as the record has that they hold, it is whole, and the next byte begins another field.
    pub count: usize,
    // The end field has passed.
    pub ended: bool,
    // 2 or 3 where a fault was found, 0 where none was.
    pub number: u8,
}

// No byte was read yet.
pub fn begin() -> Gathered
    ensures { result ≡ nothing_read }
{
    Gathered {
        bytes: [0; 20],
        count: 0,
        ended: false,
        number: numbers::ACCEPTED,
    }
}

// The bytes are all that the record has that they hold.
fn is_whole(v: Gathered) -> bool
    ensures { result ≡ is_whole v }
{
    let field = v.bytes;
    let size = logs::reading::record_size(&field, 0);
    v.count == size
}

// Behind a whole record the next byte begins another field. No field has more than 20 bytes.
fn at_field(v: Gathered) -> Gathered
    ensures { result ≡ at_field v }
{
    let begins = is_whole(v) | (log_records::VISIT_LENGTH <= v.count);
    if begins {
        return begin();
    }
    v
}

// One byte more of the field.
fn with_byte(v: Gathered, byte: u8) -> Gathered
    requires { v.count < 20 }
    ensures { result ≡ with_byte v byte }
{
    let count = v.count;
    let mut bytes = v.bytes;
    bytes[count] = byte;
    Gathered {
        bytes,
        count: count + 1,
        ..v
    }
}

// A fault was found.
fn with_fault(v: Gathered, number: u8) -> Gathered
    ensures { result ≡ faulty v number }
{
    Gathered { number, ..v }
}

// The field begins with this tag and this length.
fn begins_with(field: [u8; 20], tag: u8, size: u32) -> bool
    ensures { result ≡ eqb (tag_at field 0) tag && eqb (size_at field 0) size }
{
    let length = u32::from(field[1]) * 256 + u32::from(field[2]);
    (field[0] == tag) & (length == size)
}

// Three bytes tell which field it is.
fn tell(v: Gathered) -> Gathered
    ensures { result ≡ told v }
{
    if v.count != 3 {
        return v;
    }
    let field = v.bytes;
    let visit = begins_with(field, log_records::VISIT_TAG, log_records::VISIT_SIZE);
    let mark = begins_with(field, log_records::MARK_TAG, log_records::MARK_SIZE);
    if visit | mark {
        return v;
    }
    if begins_with(field, fields::END_TAG, 0) {
        return Gathered { ended: true, ..v };
    }
    with_fault(v, numbers::WRONG_SHAPE)
}

// One byte more.
pub fn step(v: Gathered, byte: u8) -> Gathered
    ensures { result ≡ stepped v byte }
{
    if v.number != numbers::ACCEPTED {
        return v;
    }
    if v.ended {
        return with_fault(v, numbers::RUNS_ON);
    }
    let begun = at_field(v);
    tell(with_byte(begun, byte))
}

// The number if the log ends here.
pub fn number_of(v: Gathered) -> u8
    ensures { result ≡ number_of v }
{
    if v.number != numbers::ACCEPTED {
        return v.number;
    }
    if v.ended {
        return numbers::ACCEPTED;
    }
    numbers::CUT_SHORT
}

// The record whose last byte was just read, and how many bytes its field has; the blank entry and 0 where there is none.
pub fn entry_in(v: Gathered) -> NextEntry
    ensures { result ≡ entry_in v }
{
    if is_whole(v) {
        let field = v.bytes;
        return logs::log_entry(&field, 0);
    }
    NextEntry {
        entry: Entry::Visit(log_records::blank_visit()),
        next: 0,
    }
}
