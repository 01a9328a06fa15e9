// Reading: the records behind a plan's fields, one after another.
ghost use Rattle.std.specs.Prelude.{◌≡◌, ◌+◌, ◌≤◌, ◌&&◌, length, ◌==◌};
ghost use Rattle.fields.specs.Fields.{tag_at, size_at};
ghost use Rattle.log_records.specs.Visit.{visit_stands};
ghost use Rattle.log_records.specs.Mark.{mark_stands};
ghost use Rattle.logs.specs.Records.{record_size};
ghost use Rattle.logs.specs.Walked.{stop_number, walked};
ghost use Rattle.logs.specs.Reading.{refused_log};

use crate::{ReadLog, Walked};
use units::numbers;

// A field with this tag and this length begins at the place.
fn begins(bs: &[u8], at: usize, tag: u8, size: u32) -> bool
    requires { at + 3 ≤ length bs.now }
    ensures { result ≡ (tag_at bs.now at == tag && size_at bs.now at == size) }
{
    let long = u32::from(bs[at + 1]) * 256 + u32::from(bs[at + 2]);
    (bs[at] == tag) & (long == size)
}

// A whole field of a visit stands at the place.
pub(crate) fn visit_stands(bs: &[u8], at: usize) -> bool
    ensures { result ≡ visit_stands bs.now at }
{
    if bs.len().saturating_sub(at) < log_records::VISIT_LENGTH {
        return false;
    }
    begins(bs, at, log_records::VISIT_TAG, log_records::VISIT_SIZE)
}

// A whole field of a mark stands at the place.
pub(crate) fn mark_stands(bs: &[u8], at: usize) -> bool
    ensures { result ≡ mark_stands bs.now at }
{
    if bs.len().saturating_sub(at) < log_records::MARK_LENGTH {
        return false;
    }
    begins(bs, at, log_records::MARK_TAG, log_records::MARK_SIZE)
}

// How many bytes the field of the whole record has that stands at the place; 0 where none stands there.
pub fn record_size(bs: &[u8], at: usize) -> usize
    ensures { result ≡ record_size bs.now at }
{
    if visit_stands(bs, at) {
        return log_records::VISIT_LENGTH;
    }
    if mark_stands(bs, at) {
        return log_records::MARK_LENGTH;
    }
    0
}

// Why the walk over the records stops at a place where no whole one stands.
fn stop_number(bs: &[u8], at: usize) -> u8
    ensures { result ≡ stop_number bs.now at }
{
    if bs.len().saturating_sub(at) < 3 {
        return numbers::CUT_SHORT;
    }
    if begins(bs, at, log_records::VISIT_TAG, log_records::VISIT_SIZE) {
        return numbers::CUT_SHORT;
    }
    if begins(bs, at, log_records::MARK_TAG, log_records::MARK_SIZE) {
        return numbers::CUT_SHORT;
    }
    if !begins(bs, at, fields::END_TAG, 0) {
        return numbers::WRONG_SHAPE;
    }
    if at + 3 < bs.len() {
        return numbers::RUNS_ON;
    }
    numbers::ACCEPTED
}

// Walks over the records from a place on, as long as whole ones stand there.
pub(crate) fn walk_records(bs: &[u8], first: usize) -> Walked
    ensures { result ≡ walked bs.now first }
{
    let mut at = first;
    let mut records: usize = 0;
    let mut size = record_size(bs, at);
    while size != 0 {
        at += size;
        records += 1;
        size = record_size(bs, at);
    }
    Walked {
        number: stop_number(bs, at),
        records,
        at,
    }
}

// A refused reading: the number, with everything blank.
pub(crate) fn refused(number: u8) -> ReadLog
    ensures { result ≡ refused_log number }
{
    let set = sets::blank_set();
    let alloc = plans::blank_alloc();
    ReadLog {
        set,
        alloc,
        first: 0,
        records: 0,
        number,
    }
}
