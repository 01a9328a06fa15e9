// Writing: all is judged first; then the fields are laid one after another.
ghost use Rattle.std.specs.Prelude.{◌≡◌, ◌+◌, ◌*◌, ◌≤◌, ◌<◌, length};
ghost use Rattle.fields.specs.Rows.{laid, rows};
ghost use Rattle.fields.specs.Bytes.{body_of};
ghost use Rattle.fields.specs.Fields.{further_size};
ghost use Rattle.fields.specs.Header.{further_count};
ghost use Rattle.sheets.specs.Layout.{further_bytes, further_length, further_field, head_bytes, head_length, station_bytes, allocation_with, allocation_bytes, fields_of, fields_length};
ghost use Rattle.sheets.specs.Writing.{Wrote, WroteFields, refused_writing};

use crate::{FURTHER_TAGS, Written, bytes};
use plans::Alloc;
use sets::{Head, Set};
use units::numbers;
use units::refusals::answer_number;

// How many bytes the header's field with this tag has.
fn further_length(tag: u8, number: u32) -> usize
    ensures { result ≡ further_length tag number }
{
    if number == fields::ABSENT {
        return 0;
    }
    3 + fields::further_size(tag)
}

// Writes the body of the header's field with this tag.
fn put_body(out: &mut [u8], at: usize, tag: u8, number: u32)
    requires { at + further_size tag ≤ length out.old }
    ensures { out.new ≡ laid out.old at (body_of (further_size tag) number) }
{
    if tag == fields::MODE_TAG {
        bytes::put_byte(out, at, number);
    } else {
        bytes::put_number(out, at, number);
    }
}

// Writes the header's field with this tag, if its number is not what its absence means.
fn put_further(out: &mut [u8], at: usize, tag: u8, number: u32)
    requires { at + further_length tag number ≤ length out.old }
    ensures { out.new ≡ laid out.old at (further_bytes tag number) }
{
    if number != fields::ABSENT {
        let size = fields::further_size(tag);
        let short = size as u8;
        bytes::put_start(out, at, tag, short);
        put_body(out, at + 3, tag, number);
    }
}

// Writes the header's fields behind TTRT.
fn put_furthers(out: &mut [u8], h: Head)
    requires { 7 + head_length h ≤ length out.old }
    ensures { out.new ≡ laid out.old 7 (rows further_count (further_field h)) }
{
    let mut at: usize = 7;
    for tag in FURTHER_TAGS {
        let number = sets::head_number(h, tag);
        put_further(out, at, tag, number);
        at += further_length(tag, number);
    }
}

// Writes the header.
fn put_head(out: &mut [u8], h: Head)
    requires { 7 + head_length h ≤ length out.old }
    ensures { out.new ≡ laid out.old 0 (head_bytes h) }
{
    bytes::put_start(out, 0, fields::HEAD_TAG, 4);
    bytes::put_number(out, 3, h.ttrt);
    put_furthers(out, h);
}

// How many bytes the header has behind TTRT.
fn head_length(h: Head) -> usize
    ensures { result ≡ head_length h }
{
    let mut sum: usize = 0;
    for tag in FURTHER_TAGS {
        sum += further_length(tag, sets::head_number(h, tag));
    }
    sum
}

// Writes station i.
fn put_station(out: &mut [u8], at: usize, t: &Set, i: usize)
    requires { (i < 128) × (at + 19 ≤ length out.old) }
    ensures { out.new ≡ laid out.old at (station_bytes t.now i) }
{
    bytes::put_start(out, at, fields::STATION_TAG, 16);
    bytes::put_number(out, at + 3, t.w[i]);
    bytes::put_number(out, at + 7, t.c[i]);
    bytes::put_number(out, at + 11, t.d[i]);
    bytes::put_number(out, at + 15, t.p[i]);
}

// Writes one allocation.
fn put_allocation(out: &mut [u8], at: usize, s: u32)
    requires { at + 7 ≤ length out.old }
    ensures { out.new ≡ laid out.old at (allocation_with s) }
{
    bytes::put_start(out, at, fields::ALLOCATION_TAG, 4);
    bytes::put_number(out, at + 3, s);
}

// Writes the first n stations.
fn put_stations(out: &mut [u8], from: usize, t: &Set, n: usize)
    requires { (n ≤ 128) × (from + 19 * n ≤ length out.old) }
    ensures { out.new ≡ laid out.old from (rows n (station_bytes t.now)) }
{
    for i in 0..n {
        put_station(out, from + 19 * i, t, i);
    }
}

// Writes the first m allocations.
fn put_allocations(out: &mut [u8], from: usize, a: &Alloc, m: usize)
    requires { (m ≤ 128) × (from + 7 * m ≤ length out.old) }
    ensures { out.new ≡ laid out.old from (rows m (allocation_bytes a.now)) }
{
    for (i, &share) in a.s[..m].iter().enumerate() {
        put_allocation(out, from + 7 * i, share);
    }
}

// How many bytes all fields of a sheet but the end have.
fn fields_length(plan: bool, t: &Set) -> usize
    requires { t.now.n ≤ 128 }
    ensures { result ≡ fields_length plan t.now }
{
    let n = t.n as usize;
    7 + head_length(t.head) + 19 * n + 7 * fields::allocations_for(plan, n)
}

// Writes all fields of a sheet but the end.
fn put_fields(plan: bool, t: &Set, a: &Alloc, out: &mut [u8])
    requires { (t.now.n ≤ 128) × (fields_length plan t.now ≤ length out.old) }
    ensures { out.new ≡ laid out.old 0 (fields_of plan t.now a.now) }
{
    let n = t.n as usize;
    let m = fields::allocations_for(plan, n);
    let from = 7 + head_length(t.head);
    let behind = from + 19 * n;
    put_head(out, t.head);
    put_stations(out, from, t, n);
    put_allocations(out, behind, a, m);
}

// A refused writing.
fn refused(number: u8) -> Written
    ensures { result ≡ refused_writing number }
{
    Written { length: 0, number }
}

// Writes all fields of a sheet but the end: N (2), then 4, 5, for plans 7, then 14 where they and the end do not fit; then their bytes.
pub(crate) fn write_fields(plan: bool, t: &Set, a: &Alloc, out: &mut [u8]) -> Written
    ensures { WroteFields plan t.now a.now out.old out.new result }
{
    let number = answer_number(crate::judge_sheet(plan, t, a));
    if number != numbers::ACCEPTED {
        return refused(number);
    }
    let length = fields_length(plan, t);
    if out.len() < length + 3 {
        return refused(numbers::BUFFER_TOO_SHORT);
    }
    put_fields(plan, t, a, out);
    Written {
        length,
        number: numbers::ACCEPTED,
    }
}

// Writes a sheet: all fields but the end; then the end behind them.
pub(crate) fn write_sheet(plan: bool, t: &Set, a: &Alloc, out: &mut [u8]) -> Written
    ensures { Wrote plan t.now a.now out.old out.new result }
{
    let so_far = write_fields(plan, t, a, out);
    if so_far.number != numbers::ACCEPTED {
        return so_far;
    }
    let at = so_far.length;
    bytes::put_start(out, at, fields::END_TAG, 0);
    Written {
        length: at + 3,
        number: numbers::ACCEPTED,
    }
}
