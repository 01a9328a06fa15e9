// Visit logs: a plan's fields without the end, then a field for each record, a visit or a mark, then the end. Read from lent bytes, and written into them record by record.
#![tactic(auto)]

pub mod reading;
mod writing;

ghost use Rattle.std.specs.Prelude.{◌≡◌};
ghost use Rattle.log_records.specs.Entry.{next_entry};
ghost use Rattle.logs.specs.Reading.{read_log};
ghost use Rattle.logs.specs.Writing.{Began, Added, AddedMark, EndedLog};

use log_records::{Entry, MarkEntry, NextEntry};
use plans::Alloc;
use rings::VisitRecord;
use sets::Set;
use sheets::Written;
use units::numbers;

// How far a walk over the records came: the number, 0 or 1, 2, 3; how many records passed; and the place where it stopped.
#[derive(Clone, Copy)]
pub struct Walked {
    pub number: u8,
    pub records: usize,
    pub at: usize,
}

// What reading a log answers: the number, 0 with the plan, the place of the first field behind its allocations and how many records stand from there on; or a refusal with all blank.
#[repr(C)]
#[derive(Clone, Copy)]
pub struct ReadLog {
    pub set: Set,
    pub alloc: Alloc,
    pub first: usize,
    pub records: usize,
    pub number: u8,
}

// A log that is being written: how many of its bytes are; and the recorder's counter, as it was at this clock of the ring. The number is that of the last call, and is not looked at.
#[repr(C)]
#[derive(Clone, Copy)]
pub struct Recorder {
    pub at: usize,
    pub clock: u64,
    pub counter: u32,
    pub number: u32,
}

// Reads a log: 1, 2, 3 by the first fault from the left of the whole log; then 4, 5 and 7 of its plan.
pub fn read_log(log: &[u8]) -> ReadLog
    ensures { result ≡ read_log log.now }
{
    let start = sheets::read_start(log);
    if !start.passed {
        return reading::refused(start.number);
    }
    let walked = reading::walk_records(log, start.at);
    if walked.number != numbers::ACCEPTED {
        return reading::refused(walked.number);
    }
    if start.number != numbers::ACCEPTED {
        return reading::refused(start.number);
    }
    ReadLog {
        set: start.set,
        alloc: start.alloc,
        first: start.at,
        records: walked.records,
        number: numbers::ACCEPTED,
    }
}

// Hands out the entry whose field stands at the place, and the place behind it.
pub fn log_entry(log: &[u8], at: usize) -> NextEntry
    ensures { result ≡ next_entry log.now at }
{
    if reading::visit_stands(log, at) {
        return NextEntry {
            entry: Entry::Visit(sheets::records::visit_at(log, at)),
            next: at + log_records::VISIT_LENGTH,
        };
    }
    if reading::mark_stands(log, at) {
        return NextEntry {
            entry: Entry::Mark(sheets::records::mark_at(log, at)),
            next: at + log_records::MARK_LENGTH,
        };
    }
    NextEntry {
        entry: Entry::Visit(log_records::blank_visit()),
        next: 0,
    }
}

// Begins a log in the first bytes of a lent buffer: the plan's fields, without the end. The counter is what the recorder's is at this clock of the ring.
pub fn begin_log(t: Set, a: Alloc, counter: u32, clock: u64, out: &mut [u8]) -> Recorder
    ensures { Began t a counter clock out.old out.new result }
{
    let written = sheets::write_plan_fields(t, a, out);
    if written.number != numbers::ACCEPTED {
        return Recorder {
            at: 0,
            clock: 0,
            counter: 0,
            number: u32::from(written.number),
        };
    }
    Recorder {
        at: written.length,
        clock,
        counter,
        number: 0,
    }
}

// Adds a visit to a log, if its field and the end fit; else 14, and nothing changes but the recorder's number.
pub fn add_visit(recorder: Recorder, visit: VisitRecord, out: &mut [u8]) -> Recorder
    ensures { Added recorder visit out.old out.new result }
{
    let entry = writing::visit_of(recorder, visit);
    let number = sheets::records::put_visit(out, recorder.at, entry);
    if number != numbers::ACCEPTED {
        return writing::stopped(recorder, number);
    }
    Recorder {
        at: recorder.at + log_records::VISIT_LENGTH,
        clock: visit.start.0,
        counter: entry.start,
        number: 0,
    }
}

// Adds a mark to a log, if its field and the end fit; else 14, and nothing changes but the recorder's number.
pub fn add_mark(recorder: Recorder, mark: MarkEntry, out: &mut [u8]) -> Recorder
    ensures { AddedMark recorder mark out.old out.new result }
{
    let number = sheets::records::put_mark(out, recorder.at, mark);
    if number != numbers::ACCEPTED {
        return writing::stopped(recorder, number);
    }
    Recorder {
        at: recorder.at + log_records::MARK_LENGTH,
        number: 0,
        ..recorder
    }
}

// Ends a log: its length, or 14 where the end does not fit.
pub fn end_log(recorder: Recorder, out: &mut [u8]) -> Written
    ensures { EndedLog recorder out.old out.new result }
{
    let number = sheets::records::put_end(out, recorder.at);
    if number != numbers::ACCEPTED {
        return Written { length: 0, number };
    }
    Written {
        length: recorder.at + 3,
        number,
    }
}
