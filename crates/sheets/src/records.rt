// A visit's field in a log, a mark's, a number and the end: read from lent bytes, and written into them.
ghost use Rattle.std.specs.Prelude.{◌≡◌, ◌+◌, ◌-◌, ◌≤◌, length};
ghost use Rattle.fields.specs.Rows.{laid};
ghost use Rattle.fields.specs.Bytes.{bytes_of};
ghost use Rattle.log_records.specs.Visit.{visit_bytes, visit_at, visit_or_blank};
ghost use Rattle.log_records.specs.Mark.{mark_bytes, mark_or_blank};
ghost use Rattle.sheets.specs.Layout.{end_bytes};
ghost use Rattle.sheets.specs.Reading.{number_or_zero};
ghost use Rattle.sheets.specs.Writing.{PutAt};

use crate::bytes;
use log_records::{MarkEntry, VisitEntry};
use units::numbers;

// The number in the four bytes from the place on; 0 where there are fewer.
pub fn number_from(bs: &[u8], at: usize) -> u32
    ensures { result ≡ number_or_zero bs.now at }
{
    if bs.len().saturating_sub(at) < 4 {
        return 0;
    }
    bytes::number_at(bs, at)
}

// The five numbers of the visit whose field begins at the place.
fn read_visit(bs: &[u8], at: usize) -> VisitEntry
    requires { at + 20 ≤ length bs.now }
    ensures { result ≡ visit_at bs.now at }
{
    VisitEntry {
        station: u32::from(bs[at + 3]),
        start: bytes::number_at(bs, at + 4),
        limit: bytes::number_at(bs, at + 8),
        synchronous: bytes::number_at(bs, at + 12),
        asynchronous: bytes::number_at(bs, at + 16),
    }
}

// The five numbers in the 20 bytes from the place on; the blank visit where there are fewer.
pub fn visit_at(bs: &[u8], at: usize) -> VisitEntry
    ensures { result ≡ visit_or_blank bs.now at }
{
    if bs.len().saturating_sub(at) < log_records::VISIT_LENGTH {
        return log_records::blank_visit();
    }
    read_visit(bs, at)
}

// The two numbers in the 5 bytes from the place on; the blank mark where there are fewer.
pub fn mark_at(bs: &[u8], at: usize) -> MarkEntry
    ensures { result ≡ mark_or_blank bs.now at }
{
    if bs.len().saturating_sub(at) < log_records::MARK_LENGTH {
        return log_records::blank_mark();
    }
    let station = u32::from(bs[at + 3]);
    let mark = u32::from(bs[at + 4]);
    MarkEntry { station, mark }
}

// Writes a visit's field.
fn lay_visit(out: &mut [u8], at: usize, visit: VisitEntry)
    requires { at + 20 ≤ length out.old }
    ensures { out.new ≡ laid out.old at (visit_bytes visit) }
{
    bytes::put_start(out, at, log_records::VISIT_TAG, 17);
    bytes::put_byte(out, at + 3, visit.station);
    bytes::put_number(out, at + 4, visit.start);
    bytes::put_number(out, at + 8, visit.limit);
    bytes::put_number(out, at + 12, visit.synchronous);
    bytes::put_number(out, at + 16, visit.asynchronous);
}

// Writes a visit's field at the place, if it and the end behind it fit; else 14, and nothing is written.
pub fn put_visit(out: &mut [u8], at: usize, visit: VisitEntry) -> u8
    ensures { PutAt at (visit_bytes visit) 3 out.old out.new result }
{
    if out.len().saturating_sub(at) < log_records::VISIT_LENGTH + 3 {
        return numbers::BUFFER_TOO_SHORT;
    }
    lay_visit(out, at, visit);
    numbers::ACCEPTED
}

// Writes a mark's field at the place, if it and the end behind it fit; else 14, and nothing is written.
pub fn put_mark(out: &mut [u8], at: usize, mark: MarkEntry) -> u8
    ensures { PutAt at (mark_bytes mark) 3 out.old out.new result }
{
    if out.len().saturating_sub(at) < log_records::MARK_LENGTH + 3 {
        return numbers::BUFFER_TOO_SHORT;
    }
    bytes::put_start(out, at, log_records::MARK_TAG, 2);
    bytes::put_byte(out, at + 3, mark.station);
    bytes::put_byte(out, at + 4, mark.mark);
    numbers::ACCEPTED
}

// Writes a number in the four bytes from the place on, if they fit; else 14, and nothing is written.
pub fn put_number(out: &mut [u8], at: usize, x: u32) -> u8
    ensures { PutAt at (bytes_of x) 0 out.old out.new result }
{
    if out.len().saturating_sub(at) < 4 {
        return numbers::BUFFER_TOO_SHORT;
    }
    bytes::put_number(out, at, x);
    numbers::ACCEPTED
}

// Writes the end at the place, if it fits; else 14, and nothing is written.
pub fn put_end(out: &mut [u8], at: usize) -> u8
    ensures { PutAt at end_bytes 0 out.old out.new result }
{
    if out.len().saturating_sub(at) < 3 {
        return numbers::BUFFER_TOO_SHORT;
    }
    bytes::put_start(out, at, fields::END_TAG, 0);
    numbers::ACCEPTED
}
