// Request and plan sheets: read from lent bytes, and written into them.
#![tactic(auto)]

mod bytes;
mod reading;
pub mod records;
mod writing;

ghost use Rattle.std.specs.Prelude.{◌≡◌, true, false};
ghost use Rattle.units.specs.Refusals.{answer_number};
ghost use Rattle.plans.specs.Planned.{blank_alloc};
ghost use Rattle.sheets.specs.Reading.{read_request, read_plan, plan_start, judged_sheet, given_sheet};
ghost use Rattle.sheets.specs.Writing.{Wrote, WroteFields};

use plans::Alloc;
use sets::Set;
use units::numbers;
use units::refusals::{Refusal, answer_number};

// How many bytes a program reads of a request sheet, and of a sheet that may be a plan: one more than the longest has, of 128 stations with a mode, F and g; it tells that a byte follows.
pub const REQUEST_READ: usize = 2_461;

pub const PLAN_READ: usize = 3_357;

// The tags of the header's fields behind TTRT, in their order.
pub(crate) const FURTHER_TAGS: [u8; 3] = [fields::MODE_TAG, fields::FRAME_TAG, fields::GRID_TAG];

// What reading a request sheet answers: the number, 0 with the set, or a refusal with the blank set.
#[repr(C)]
#[derive(Clone, Copy)]
pub struct ReadRequest {
    pub set: Set,
    pub number: u8,
}

// What reading a plan sheet answers: the number, 0 with the set and its allocation, or a refusal with both blank.
#[repr(C)]
#[derive(Clone, Copy)]
pub struct ReadPlan {
    pub set: Set,
    pub alloc: Alloc,
    pub number: u8,
}

// A plan at the start of some bytes, whatever stands behind it: where all its fields have passed, the plan, its judgement and the place behind them; else all blank, with 1 or 2 and the place of the fault.
#[derive(Clone, Copy)]
pub struct PlanStart {
    pub set: Set,
    pub alloc: Alloc,
    pub passed: bool,
    pub number: u8,
    pub at: usize,
}

// What writing answers: the number, 0 with the length of the sheet, or a refusal with length 0.
#[repr(C)]
#[derive(Clone, Copy)]
pub struct Written {
    pub length: usize,
    pub number: u8,
}

// A plan is judged with its allocation, a request without.
pub(crate) fn judge_sheet(plan: bool, t: &Set, a: &Alloc) -> Result<(), Refusal>
    ensures { answer_number result ≡ judged_sheet plan t.now a.now }
{
    if plan {
        plans::judge_plan_lent(t.head, t.n, &t.w, &t.c, &t.d, &t.p, &a.s)
    } else {
        sets::judge_lent(t.head, t.n, &t.w, &t.c, &t.d, &t.p)
    }
}

// Reads a request sheet.
pub fn read_request(sheet: &[u8]) -> ReadRequest
    ensures { result ≡ read_request sheet.now }
{
    let answer = reading::read_sheet(sheet, false, false);
    let set = answer.set;
    ReadRequest {
        set,
        number: answer.number,
    }
}

// Reads a plan sheet.
#[inline(always)]
pub fn read_plan(sheet: &[u8]) -> ReadPlan
    ensures { result ≡ read_plan sheet.now }
{
    reading::read_sheet(sheet, true, false)
}

// The number that reading a plan sheet gives: the same judgement, and no plan is handed out.
pub fn plan_number(sheet: &[u8]) -> u8
    ensures { result ≡ (read_plan sheet.now).number }
{
    let scanned = field_reader::scan_sheet(sheet, true);
    if scanned.number != numbers::ACCEPTED {
        return scanned.number;
    }
    answer_number(reading::judge_fields(sheet, scanned.passed))
}

// Reads what a sheet holds, whatever its numbers are: the set, of a plan with its allocation, and their judgement. Only with 1, 2 and 3 it is blank.
pub fn read_given(sheet: &[u8], plan: bool) -> ReadPlan
    ensures { result ≡ given_sheet plan sheet.now }
{
    reading::read_sheet(sheet, plan, true)
}

// Reads the plan at the start of the lent bytes, whatever stands behind its fields: these, if all have passed, and their judgement.
pub fn read_start(sheet: &[u8]) -> PlanStart
    ensures { result ≡ plan_start sheet.now }
{
    let scanned = field_reader::scan_sheet(sheet, true);
    if !reading::plan_passed(scanned.passed) {
        let set = sets::blank_set();
        let alloc = plans::blank_alloc();
        return PlanStart {
            set,
            alloc,
            passed: false,
            number: scanned.number,
            at: scanned.at,
        };
    }
    let read = reading::read_fields(sheet, scanned.passed, true, true);
    let set = read.set;
    let alloc = read.alloc;
    PlanStart {
        set,
        alloc,
        passed: true,
        number: read.number,
        at: scanned.at,
    }
}

// Writes a request sheet into the first bytes of a lent buffer.
pub fn write_request(t: Set, out: &mut [u8]) -> Written
    ensures { Wrote false t blank_alloc out.old out.new result }
{
    let a = plans::blank_alloc();
    writing::write_sheet(false, &t, &a, out)
}

// Writes a plan sheet into the first bytes of a lent buffer.
pub fn write_plan(t: Set, a: Alloc, out: &mut [u8]) -> Written
    ensures { Wrote true t a out.old out.new result }
{
    writing::write_sheet(true, &t, &a, out)
}

// Writes a plan's fields without the end into the first bytes of a lent buffer that has room for both; the length is theirs.
pub fn write_plan_fields(t: Set, a: Alloc, out: &mut [u8]) -> Written
    ensures { WroteFields true t a out.old out.new result }
{
    writing::write_fields(true, &t, &a, out)
}
