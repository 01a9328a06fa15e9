// An inspection that a host keeps: how it begins, what a record that is handed in says, and its numbers taken out and put back.
ghost use Rattle.std.specs.Prelude.{◌≡◌};
ghost use Rattle.inspection.specs.Kept.{course_in, progress_of, keeping, blank_kept, inspection_begun, entry_of, in_field, record_number, last_record, next_of, refused_record};

use super::{
    BegunInspection, Compared, Course, Inspection, KeptInspection, KeptNext, LogEntry, Progress,
    RecordFinding,
};
use plans::Alloc;
use sets::{Head, Set};
use units::numbers;
use units::refusals::answer_number;

// The ring as a whole, of its numbers.
pub(crate) fn course_in(kept: Progress) -> Course
    ensures { result ≡ course_in kept }
{
    Course {
        token: kept.token,
        clock: kept.clock,
        unused: kept.unused,
        first: kept.visited == 0,
        start: kept.start,
        span: kept.span,
    }
}

// And in numbers, with the records and the rule.
fn progress_of(course: Course, records: u64, rule: u8) -> Progress
    ensures { result ≡ progress_of course records rule }
{
    Progress {
        records,
        token: course.token,
        clock: course.clock,
        unused: course.unused,
        start: course.start,
        span: course.span,
        visited: u8::from(!course.first),
        rule,
    }
}

// The blank inspection: every number 0.
fn blank() -> KeptInspection
    ensures { result ≡ blank_kept }
{
    KeptInspection {
        head: Head {
            mode: 0,
            ttrt: 0,
            frame: 0,
            grid: 0,
        },
        n: 0,
        w: [0; 128],
        s: [0; 128],
        base: [0; 128],
        sent: [0; 128],
        mark: [0; 128],
        progress: Progress {
            records: 0,
            token: 0,
            clock: 0,
            unused: 0,
            start: 0,
            span: 0,
            visited: 0,
            rule: 0,
        },
    }
}

// An inspection as it is kept, with its plan.
fn kept_of(set: Set, alloc: Alloc, state: Inspection) -> KeptInspection
    ensures { result ≡ keeping set alloc state }
{
    // Each array by a name of its own: the check covers none that is laid straight from one struct into another.
    let w = set.w;
    let s = alloc.s;
    let base = state.base;
    let sent = state.sent;
    let mark = state.mark;
    KeptInspection {
        head: set.head,
        n: set.n,
        w,
        s,
        base,
        sent,
        mark,
        progress: progress_of(state.course, state.records, state.rule),
    }
}

// The inspection that a host keeps, with this plan and before the first record; or 2, 4, 5 and 7 as reading a log with this plan says, with the blank one.
pub fn begin_inspection(set: Set, alloc: Alloc) -> BegunInspection
    ensures { result ≡ inspection_begun set alloc }
{
    let number = answer_number(plans::judge_plan(set, alloc));
    if number != numbers::ACCEPTED {
        let inspection = blank();
        return BegunInspection { inspection, number };
    }
    let begun = super::begin(set, alloc);
    let inspection = kept_of(set, alloc, begun);
    BegunInspection { inspection, number }
}

// A log's field can hold the numbers of what is handed in, by its kind.
fn in_field(told: LogEntry) -> bool
    ensures { result ≡ in_field (entry_of told) }
{
    if told.kind == u32::from(log_records::VISIT_TAG) {
        return told.visit.station < 256;
    }
    (told.mark.station < 256) & (told.mark.mark < 256)
}

// 8, 2 or 4, the first that applies, or 0: whether a record may be inspected.
pub(crate) fn record_number(n: u32, told: LogEntry) -> u8
    ensures { result ≡ record_number n told }
{
    let begun = (1 <= n) & (n <= numbers::MOST_STATIONS);
    if !begun {
        return numbers::UNSOUND;
    }
    let known = (told.kind == u32::from(log_records::VISIT_TAG))
        | (told.kind == u32::from(log_records::MARK_TAG));
    if !known {
        return numbers::WRONG_SHAPE;
    }
    if !in_field(told) {
        return numbers::OUT_OF_RANGE;
    }
    numbers::ACCEPTED
}

// A refused record's answer: the number alone.
pub(crate) fn refused_record(number: u8) -> RecordFinding
    ensures { result ≡ refused_record number }
{
    RecordFinding {
        record: 0,
        expected: 0,
        found: 0,
        rule: 0,
        number,
    }
}

// The record that was looked at last: the one that breaks a rule stands behind those that keep every rule.
fn last_record(records: u64, rule: u8) -> u64
    ensures { result ≡ last_record records rule }
{
    if rule != 0 {
        return records.wrapping_add(1);
    }
    records
}

// The numbers and the answer behind an accepted record.
pub(crate) fn next_of(course: Course, records: u64, rule: u8, compared: Compared) -> KeptNext
    ensures { result ≡ next_of course records rule compared }
{
    let progress = progress_of(course, records, rule);
    let answer = RecordFinding {
        record: last_record(records, rule),
        expected: compared.expected,
        found: compared.found,
        rule,
        number: numbers::ACCEPTED,
    };
    KeptNext {
        progress,
        number: numbers::ACCEPTED,
        answer,
    }
}
