// Reading: the fields are handed out one after another from the left; then the numbers that they hold are read and judged.
ghost use Rattle.std.specs.Prelude.{◌≡◌, cond, ◌+◌, ◌*◌, ◌≤◌, length};
ghost use Rattle.units.specs.Refusals.{answer_number};
ghost use Rattle.sets.specs.Judged.{blank_set};
ghost use Rattle.plans.specs.Planned.{judged_plan, blank_alloc};
ghost use Rattle.units.specs.Places.{fill};
ghost use Rattle.sheets.specs.Bounds.{PassedFits, ColumnFits};
ghost use Rattle.fields.specs.Bytes.{number_at, body_at};
ghost use Rattle.fields.specs.Fields.{further_size};
ghost use Rattle.fields.specs.Header.{further_count, behind_tag, further_place, given_at};
ghost use Rattle.sheets.specs.Reading.{head_in, set_of, alloc_of, fields_answer, given_sheet, read_sheet, plan_passed};

use crate::{FURTHER_TAGS, ReadPlan, bytes};
use fields::Passed;
use plans::Alloc;
use sets::{Head, Set};
use units::numbers;
use units::refusals::{Refusal, answer_number};

// Reads one number from each of n like fields into the first n places.
fn read_column(bs: &[u8], from: usize, step: usize, n: usize, numbers: &mut [u32; 128])
    requires { ColumnFits bs.now from step n }
    ensures { numbers.new ≡ fill n (λ i. number_at bs.now (from + step * i)) numbers.old }
{
    for (i, number) in numbers[..n].iter_mut().enumerate() {
        *number = bytes::number_at(bs, from + step * i);
    }
}

// The number in a body of the header's field with this tag.
fn read_body(bs: &[u8], at: usize, tag: u8) -> u32
    requires { at + 4 ≤ length bs.now }
    ensures { result ≡ body_at (further_size tag) bs.now at }
{
    if tag == fields::MODE_TAG {
        return u32::from(bs[at]);
    }
    bytes::number_at(bs, at)
}

// The number that the header gives for a tag, whose field would stand at the place.
fn read_further(bs: &[u8], at: usize, tag: u8) -> u32
    requires { at + 7 ≤ length bs.now }
    ensures { result ≡ given_at bs.now at tag }
{
    let there = bs[at] == tag;
    let number = read_body(bs, at + 3, tag);
    fields::header_number(there, number)
}

// The place behind that field, if it stands there; else the place itself.
fn behind_further(bs: &[u8], at: usize, tag: u8) -> usize
    requires { at + 7 ≤ length bs.now }
    ensures { result ≡ behind_tag bs.now tag at }
{
    if bs[at] == tag {
        return at + 3 + fields::further_size(tag);
    }
    at
}

// The header; a station stands behind it.
fn read_head(bs: &[u8]) -> Head
    requires { further_place bs.now further_count + 19 ≤ length bs.now }
    ensures { result ≡ head_in bs.now }
{
    let ttrt = bytes::number_at(bs, 3);
    let mut head = sets::head_of(ttrt);
    let mut at: usize = 7;
    for tag in FURTHER_TAGS {
        let number = read_further(bs, at, tag);
        head = sets::with_head_number(head, tag, number);
        at = behind_further(bs, at, tag);
    }
    head
}

// Reads what the fields that have passed hold into the blank set and the blank allocation.
fn read_columns(bs: &[u8], passed: Passed, t: &mut Set, a: &mut Alloc)
    requires { PassedFits bs.now passed × ((t.old ≡ blank_set) × (a.old ≡ blank_alloc)) }
    ensures set { t.new ≡ set_of bs.now passed }
    ensures alloc { a.new ≡ alloc_of bs.now passed }
{
    let from = passed.from;
    let n = passed.stations;
    t.head = read_head(bs);
    t.n = n as u32;
    read_column(bs, from + 3, 19, n, &mut t.w);
    read_column(bs, from + 7, 19, n, &mut t.c);
    read_column(bs, from + 11, 19, n, &mut t.d);
    read_column(bs, from + 15, 19, n, &mut t.p);
    read_column(bs, from + 19 * n + 3, 7, passed.allocations, &mut a.s);
}

// A refused reading: the number, with everything blank.
fn refused(number: u8) -> ReadPlan
    ensures { result ≡ record { set = blank_set; alloc = blank_alloc; number = number } }
{
    let set = sets::blank_set();
    let alloc = plans::blank_alloc();
    ReadPlan { set, alloc, number }
}

// What the fields that have passed hold, with its judgement; where that refuses, it is blank, or `kept` as it is.
pub(crate) fn read_fields(bs: &[u8], passed: Passed, plan: bool, kept: bool) -> ReadPlan
    requires { PassedFits bs.now passed }
    ensures { result ≡ fields_answer kept plan (set_of bs.now passed) (alloc_of bs.now passed) }
{
    let mut read = refused(numbers::ACCEPTED);
    read_columns(bs, passed, &mut read.set, &mut read.alloc);
    let number = answer_number(crate::judge_sheet(plan, &read.set, &read.alloc));
    let whole = kept | (number == numbers::ACCEPTED);
    if !whole {
        return refused(number);
    }
    read.number = number;
    read
}

// Reads a sheet: 1, 2, 3 by the first fault from the left; then 4, 5, and 7 for plans. A refused one is blank; where only its numbers are refused, it may be kept.
pub(crate) fn read_sheet(bs: &[u8], plan: bool, kept: bool) -> ReadPlan
    ensures { result ≡ cond kept (given_sheet plan bs.now) (read_sheet plan bs.now) }
{
    let scanned = field_reader::scan_sheet(bs, plan);
    if scanned.number != numbers::ACCEPTED {
        return refused(scanned.number);
    }
    read_fields(bs, scanned.passed, plan, kept)
}

// The judgement of the plan that the fields that have passed hold; it is not handed out.
pub(crate) fn judge_fields(bs: &[u8], passed: Passed) -> Result<(), Refusal>
    requires { PassedFits bs.now passed }
    ensures { answer_number result ≡ judged_plan (set_of bs.now passed) (alloc_of bs.now passed) }
{
    let mut set = sets::blank_set();
    let mut alloc = plans::blank_alloc();
    read_columns(bs, passed, &mut set, &mut alloc);
    plans::judge_plan_lent(set.head, set.n, &set.w, &set.c, &set.d, &set.p, &alloc.s)
}

// All fields of a sheet but its end have passed.
pub(crate) fn plan_passed(passed: Passed) -> bool
    ensures { result ≡ plan_passed passed }
{
    let headed = fields::HEAD_TAG <= passed.head;
    let due = fields::allocations_for(passed.plan, passed.stations);
    headed & (1 <= passed.stations) & (passed.allocations == due)
}
