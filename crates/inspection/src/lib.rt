// The inspection of another maker's log: record by record, what the published steps allow, and the first rule that is broken.
#![tactic(auto)]

mod counter;
mod frames;
pub mod in_place;
pub mod keeping;
mod moving;
mod opening;
pub mod records;
mod rules;

ghost use Rattle.std.specs.Prelude.{◌≡◌};
ghost use Rattle.inspection.specs.Opening.{begun};
ghost use Rattle.inspection.specs.Rules.{expected};
ghost use Rattle.inspection.specs.Findings.{visit_compared, compared_by, compared, finding_of, refused_finding, finding_in};

use log_records::{Entry, MarkEntry, VisitEntry};
use plans::Alloc;
use sets::{Head, Set};
use units::numbers;

// What the records so far leave of the ring as a whole.
#[derive(Clone, Copy)]
pub struct Course {
    // The station that has the token.
    pub token: u32,
    // The ring's clock, modulo 2^32, from the beginning of the silent first rotation on.
    pub clock: u32,
    // u, the sum of S − s. An FDDI inspection does not look at it.
    pub unused: u32,
    // No visit has passed yet: the first one may start at any moment.
    pub first: bool,
    // The start of the visit before, and the ticks that it took.
    pub start: u32,
    pub span: u32,
}

// How far an inspection has come: what the records so far leave of each station and of the ring, and the finding.
#[derive(Clone, Copy)]
pub struct Inspection {
    // For each station where the clock stood when its timer was at 0; an FDDI timer counts with TTRT for each time that it is late.
    pub base: [u32; 128],
    // s of each station: the synchronous amount of its last visit.
    pub sent: [u32; 128],
    // Whether each station is switched through: 0 is no, anything else yes.
    pub mark: [u8; 128],
    pub course: Course,
    // The records so far that keep every rule, visits and marks.
    pub records: u64,
    // The rule that the record behind these breaks; 0: none so far.
    pub rule: u8,
}

// What the next record must say: of a mark the last number alone is looked at.
#[derive(Clone, Copy)]
pub struct Expected {
    pub station: u32,
    // The first visit may start at any moment.
    pub first: bool,
    // A later one this many ticks after that start, on a counter that runs past its top to 0: the start of the visit before, and what that one took.
    pub last: u32,
    pub span: u32,
    pub limit: u32,
    // S, the most that may be sent of synchronous traffic; 0 where the station is marked, and then the limit is 0 too.
    pub share: u32,
    // F, the longest frame.
    pub longest: u32,
    // N: a mark's station is below it.
    pub count: u32,
}

// What a record must say by a rule, and what it says.
#[derive(Clone, Copy)]
pub struct Compared {
    pub expected: u32,
    pub found: u32,
}

// What the inspection of a log answers: how many records it has, visits and marks; the first record that breaks a rule, from 1, and the rule, 1 station, 2 start, 3 limit, 4 synchronous, 5 asynchronous; both 0 where none does. Or the refusal of reading it, with all else 0.
#[repr(C)]
#[derive(Clone, Copy)]
pub struct Finding {
    pub records: u64,
    pub record: u64,
    pub rule: u8,
    pub number: u8,
}

// One record more: the ring as a whole behind it, the records so far that keep every rule, the rule that it breaks, 0 for none, and what was compared by that rule; both numbers 0 where none is broken.
#[derive(Clone, Copy)]
pub struct Step {
    pub course: Course,
    pub records: u64,
    pub rule: u8,
    pub compared: Compared,
}

// ---- an inspection that a host keeps

// What stands at a place of a log, and what a host hands in to be inspected: no enum crosses to a host, so a number says the kind. It is the field's tag, 16 of a visit and 17 of a mark; 0 where no entry stands. The numbers of another kind are 0, and are not looked at.
#[repr(C)]
#[derive(Clone, Copy)]
pub struct LogEntry {
    pub kind: u32,
    pub visit: VisitEntry,
    pub mark: MarkEntry,
    // The place behind the entry; 0 where none stands. Of a record that is handed in it is not looked at.
    pub next: usize,
}

// How far an inspection has come, in numbers: any bytes are a value.
#[repr(C)]
#[derive(Clone, Copy)]
pub struct Progress {
    // The records so far that keep every rule, visits and marks.
    pub records: u64,
    // The station that has the token.
    pub token: u32,
    // The ring's clock, modulo 2^32, from the beginning of the silent first rotation on.
    pub clock: u32,
    // u, the sum of S − s.
    pub unused: u32,
    // The start of the visit before, and the ticks that it took.
    pub start: u32,
    pub span: u32,
    // A visit has passed: 0 is no, anything else yes.
    pub visited: u8,
    // The rule that the record behind these breaks; 0: none so far.
    pub rule: u8,
}

// An inspection as a host keeps it: of the plan what a record is held to, the header, N, w and S; what the records so far leave of each station; and how far they have come.
#[repr(C)]
#[derive(Clone, Copy)]
pub struct KeptInspection {
    pub head: Head,
    pub n: u32,
    pub w: [u32; 128],
    pub s: [u32; 128],
    // For each station where the clock stood when its timer was at 0.
    pub base: [u32; 128],
    // s of each station: the synchronous amount of its last visit.
    pub sent: [u32; 128],
    // Whether each station is switched through: 0 is no, anything else yes.
    pub mark: [u8; 128],
    pub progress: Progress,
}

// An inspection that begins, with 0; or a refusal with the blank one.
#[repr(C)]
#[derive(Clone, Copy)]
pub struct BegunInspection {
    pub inspection: KeptInspection,
    pub number: u8,
}

// What a record is answered: its number among the records, from 1; the rule that it breaks, 0 for none; and by that rule what it must say and what it says, both 0 where none is broken. Behind a broken rule nothing is looked at: record and rule stay, and both numbers are 0. Or a refusal, with all else 0.
#[repr(C)]
#[derive(Clone, Copy)]
pub struct RecordFinding {
    pub record: u64,
    pub expected: u32,
    pub found: u32,
    pub rule: u8,
    pub number: u8,
}

// What a record leaves of an inspection beside its arrays, the call's number, and the answer.
#[derive(Clone, Copy)]
pub struct KeptNext {
    pub progress: Progress,
    pub number: u8,
    pub answer: RecordFinding,
}

// The inspection of a log with this plan, before its first record.
pub fn begin(set: Set, alloc: Alloc) -> Inspection
    ensures { result ≡ begun set alloc }
{
    opening::begin_lent(&set.w, &alloc.s, set.n)
}

// What the next record must say.
pub fn expect(state: Inspection, set: Set, alloc: Alloc) -> Expected
    ensures { result ≡ expected state set alloc }
{
    let course = state.course;
    let p = rules::place(course.token);
    let base = state.base[p];
    let share = alloc.s[p];
    rules::due(course, set.head, set.n, state.mark[p], base, share)
}

// What a visit must say by this rule, and what it says: the start as ticks after the visit before, of the asynchronous amount the limit.
pub(crate) fn compare_visit(due: Expected, visit: VisitEntry, rule: u8) -> Compared
    ensures { result ≡ visit_compared rule due visit }
{
    let ticks = counter::between(due.last, visit.start);
    match rule {
        1 => Compared {
            expected: due.station,
            found: visit.station,
        },
        2 => Compared {
            expected: due.span,
            found: ticks,
        },
        3 => Compared {
            expected: due.limit,
            found: visit.limit,
        },
        4 => Compared {
            expected: due.share,
            found: visit.synchronous,
        },
        _ => Compared {
            expected: due.limit,
            found: visit.asynchronous,
        },
    }
}

// What an entry must say by a rule, and what it says: a visit as above; a mark N, below which its station must be, and its station.
pub(crate) fn compare_entry(due: Expected, entry: Entry, rule: u8) -> Compared
    ensures { result ≡ compared_by rule due entry }
{
    match entry {
        Entry::Visit(visit) => compare_visit(due, visit, rule),
        Entry::Mark(mark) => Compared {
            expected: due.count,
            found: mark.station,
        },
    }
}

// What the record behind those of an inspection must say by the rule that it breaks, and what it says.
pub fn compare(state: Inspection, set: Set, alloc: Alloc, entry: Entry) -> Compared
    ensures { result ≡ compared state set alloc entry }
{
    let due = expect(state, set, alloc);
    compare_entry(due, entry, state.rule)
}

// What an inspection has found of a log with so many records.
pub fn found(state: Inspection, records: u64) -> Finding
    ensures { result ≡ finding_of state records }
{
    let record = if state.rule != 0 {
        state.records.wrapping_add(1)
    } else {
        0
    };
    Finding {
        records,
        record,
        rule: state.rule,
        number: numbers::ACCEPTED,
    }
}

// A refused reading's finding: none, with the number.
fn refused(number: u8) -> Finding
    ensures { result ≡ refused_finding number }
{
    Finding {
        records: 0,
        record: 0,
        rule: 0,
        number,
    }
}

// Reads a log and inspects its records.
pub fn inspect_log(log: &[u8]) -> Finding
    ensures { result ≡ finding_in log.now }
{
    let read = logs::read_log(log);
    if read.number != numbers::ACCEPTED {
        return refused(read.number);
    }
    let head = read.set.head;
    let n = read.set.n;
    let begun = opening::begin_lent(&read.set.w, &read.alloc.s, n);
    let state = records::inspect_lent(
        begun,
        head,
        n,
        &read.set.w,
        &read.alloc.s,
        log,
        read.first,
        read.records,
    );
    found(state, read.records as u64)
}
