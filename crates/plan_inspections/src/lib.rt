// A log on lent bytes held to a plan sheet, as `inspect PLAN` does, with numbers for an answer.
#![tactic(auto)]

ghost use Rattle.std.specs.Prelude.{◌≡◌};
ghost use Rattle.logs.specs.Reading.{handed_from};
ghost use Rattle.plan_inspections.specs.PlanFindings.{visit_count, visits_in, not_inspected, FoundLent, plan_finding};

use inspection::{Inspection, records};
use log_records::Entry;
use sets::Head;
use units::numbers;

// What the inspection of a log against a plan sheet answers: how many records the log has, visits and marks, and how many of them are visits; the first record that breaks a rule, from 1, and the rule, both 0 where none does. Or all of these are 0, and one is refused or the log's plan is another one.
#[repr(C)]
#[derive(Clone, Copy)]
pub struct PlanFinding {
    pub records: u64,
    pub visits: u64,
    pub record: u64,
    pub rule: u8,
    // Which one is refused: 1 the plan sheet, 2 the log; and the number.
    pub refused: u8,
    pub number: u8,
    // 1: both are read, and the log's plan is another one.
    pub another: u8,
}

// The sides that a refusal is of.
pub const PLAN_SIDE: u8 = 1;

pub const LOG_SIDE: u8 = 2;

// 1 for a visit, 0 for a mark.
fn visit_count(entry: Entry) -> u64
    ensures { result ≡ visit_count entry }
{
    match entry {
        Entry::Visit(_) => 1,
        Entry::Mark(_) => 0,
    }
}

// How many of so many records are visits, the first at this place of the bytes.
fn count_visits(log: &[u8], first: usize, records: usize) -> u64
    ensures { result ≡ visits_in (handed_from records log.now first) }
{
    let mut visits: u64 = 0;
    let mut at = first;
    for _ in 0..records {
        let handed = logs::log_entry(log, at);
        visits += visit_count(handed.entry);
        at = handed.next;
    }
    visits
}

// Nothing was inspected: one side is refused, or the plan is another one.
fn not_inspected(refused: u8, number: u8, another: u8) -> PlanFinding
    ensures { result ≡ not_inspected refused number another }
{
    PlanFinding {
        records: 0,
        visits: 0,
        record: 0,
        rule: 0,
        refused,
        number,
        another,
    }
}

// The records of a log that was read, inspected from its beginning with the w and S of its plan.
fn found_with<'a>(
    log: &[u8],
    begun: Inspection,
    head: Head,
    n: u32,
    w: &'a [u32; 128],
    s: &'a [u32; 128],
    first: usize,
    records: usize,
) -> PlanFinding
    ensures { FoundLent begun head n w.now s.now (handed_from records log.now first) records result }
{
    let state = records::inspect_lent(begun, head, n, w, s, log, first, records);
    let finding = inspection::found(state, records as u64);
    let visits = count_visits(log, first, records);
    PlanFinding {
        records: finding.records,
        visits,
        record: finding.record,
        rule: finding.rule,
        refused: 0,
        number: numbers::ACCEPTED,
        another: 0,
    }
}

// Reads a plan sheet and a log, compares their plans, and inspects the log's records.
pub fn inspect_log_of(plan: &[u8], log: &[u8]) -> PlanFinding
    ensures { result ≡ plan_finding plan.now log.now }
{
    let sheet = sheets::read_plan(plan);
    if sheet.number != numbers::ACCEPTED {
        return not_inspected(PLAN_SIDE, sheet.number, 0);
    }
    let read = logs::read_log(log);
    if read.number != numbers::ACCEPTED {
        return not_inspected(LOG_SIDE, read.number, 0);
    }
    let t = sheet.set;
    let a = sheet.alloc;
    let u = read.set;
    let b = read.alloc;
    if !differences::same_plan(t, a, u, b) {
        return not_inspected(0, numbers::ACCEPTED, 1);
    }
    let begun = inspection::begin(u, b);
    let head = u.head;
    found_with(
        log,
        begun,
        head,
        u.n,
        &read.set.w,
        &read.alloc.s,
        read.first,
        read.records,
    )
}
