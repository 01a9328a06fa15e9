// A log of any length inspected as it is read, in pieces of any length: the finding is kept until all was read.
#![tactic(auto)]

ghost use Rattle.std.specs.Prelude.{◌≡◌, drop};
ghost use Rattle.log_records.specs.Entry.{next_entry};
ghost use Rattle.inspection_stream.specs.Inspecting.{none_looked, looked_at, gathered_from, inspect_from, inspect_over, inspect_start, inspect_number};

use inspection::{Inspection, records};
use log_records::Entry;
use log_stream::Gathered;
use plans::Alloc;
use sets::Set;
use sheets::PlanStart;
use units::numbers;

// What was found in the records so far: the inspection, the record that was looked at last, and the one before it. Behind a broken rule the last is the record that breaks it.
#[derive(Clone, Copy)]
pub struct Looked {
    pub inspection: Inspection,
    pub before: Entry,
    pub last: Entry,
}

// A log that is being inspected: its plan, what is kept of the bytes of its records, and what was found in them.
#[derive(Clone, Copy)]
pub struct Inspecting {
    pub start: PlanStart,
    pub gathered: Gathered,
    pub looked: Looked,
}

// ---- the records

// No record was looked at yet.
fn look_first(set: Set, alloc: Alloc) -> Looked
    ensures { result ≡ none_looked set alloc }
{
    let inspection = inspection::begin(set, alloc);
    Looked {
        inspection,
        before: Entry::Visit(log_records::blank_visit()),
        last: Entry::Visit(log_records::blank_visit()),
    }
}

// One record more, whose field was read. Behind a broken rule nothing is looked at.
pub fn look(gathered: Gathered, looked: Looked, set: Set, alloc: Alloc) -> Looked
    ensures { result ≡ looked_at set alloc looked (next_entry gathered.bytes 0).entry }
{
    let state = looked.inspection;
    if state.rule != 0 {
        return looked;
    }
    let field = gathered.bytes;
    let inspection = records::inspect_records(state, set, alloc, &field, 0, 1);
    let handed = logs::log_entry(&field, 0);
    let before = looked.last;
    let last = handed.entry;
    Looked {
        inspection,
        before,
        last,
    }
}

// ---- the bytes

// Before the first byte of the records: a plan whose fields have not all passed is a fault.
fn gathered_from(passed: bool, number: u8) -> Gathered
    ensures { result ≡ gathered_from passed number }
{
    let none = log_stream::begin();
    if passed {
        return none;
    }
    Gathered { number, ..none }
}

// The plan was read, and no byte of the records.
pub fn begin(start: PlanStart) -> Inspecting
    ensures { result ≡ inspect_from start }
{
    let set = start.set;
    let alloc = start.alloc;
    let gathered = gathered_from(start.passed, start.number);
    let looked = look_first(set, alloc);
    Inspecting {
        start,
        gathered,
        looked,
    }
}

// The bytes from this place on.
fn inspect_from(inspecting: Inspecting, bytes: &[u8], from: usize) -> Inspecting
    ensures { result ≡ inspect_over inspecting (drop from bytes.now) }
{
    let start = inspecting.start;
    let set = start.set;
    let alloc = start.alloc;
    let mut gathered = inspecting.gathered;
    let mut looked = inspecting.looked;
    for i in from..bytes.len() {
        gathered = log_stream::step(gathered, bytes[i]);
        let got = log_stream::entry_in(gathered);
        if got.next != 0 {
            looked = look(gathered, looked, set, alloc);
        }
    }
    Inspecting {
        start,
        gathered,
        looked,
    }
}

// Inspects the first bytes of a log: its plan, and the records among them.
pub fn inspect_start(head: &[u8]) -> Inspecting
    ensures { result ≡ inspect_start head.now }
{
    let start = sheets::read_start(head);
    let begun = begin(start);
    inspect_from(begun, head, start.at)
}

// Inspects a piece more, of any length.
pub fn inspect_on(inspecting: Inspecting, bytes: &[u8]) -> Inspecting
    ensures { result ≡ inspect_over inspecting bytes.now }
{
    inspect_from(inspecting, bytes, 0)
}

// The number when all was read: 1, 2, 3 of the whole log, then its plan's.
pub fn number_of(inspecting: Inspecting) -> u8
    ensures { result ≡ inspect_number inspecting }
{
    let gathered = inspecting.gathered;
    let number = log_stream::number_of(gathered);
    if number != numbers::ACCEPTED {
        return number;
    }
    inspecting.start.number
}
