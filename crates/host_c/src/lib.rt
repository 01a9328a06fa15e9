// The exported functions: each is the function of the same name in `host`, under the C interface that include/olivastrum.h declares.
#![tactic(auto)]

ghost use Rattle.std.specs.Prelude.{◌≡◌, true, false};
ghost use Rattle.plans.specs.Planned.{blank_alloc, planned};
ghost use Rattle.sheets.specs.Reading.{read_request, read_plan};
ghost use Rattle.sheets.specs.Writing.{Wrote};
ghost use Rattle.rings.specs.Opening.{opening};
ghost use Rattle.host_rules.specs.Lent.{VisitLent, HandInLent, MarkLent, UnmarkLent, RecordLent};
ghost use Rattle.log_records.specs.Entry.{next_entry};
ghost use Rattle.host.specs.Told.{told};
ghost use Rattle.logs.specs.Reading.{read_log};
ghost use Rattle.logs.specs.Writing.{Began, Added, AddedMark, EndedLog};
ghost use Rattle.inspection.specs.Findings.{finding_in};
ghost use Rattle.inspection.specs.Kept.{inspection_begun};
ghost use Rattle.plan_inspections.specs.PlanFindings.{plan_finding};
ghost use Rattle.versions.specs.Answers.{Emptied, Stored, found_version, versions_in};
ghost use Rattle.hopper.specs.Wagons.{with_more, without_last};
ghost use Rattle.hopper.specs.Requests.{list_request, WroteSheet};
ghost use Rattle.hopper.specs.Trains.{coupled, changed_train, changed_wagon};

use hopper::{Coupled, Train, Wagon, WagonList};
use inspection::{BegunInspection, Finding, KeptInspection, LogEntry, RecordFinding};
use log_records::MarkEntry;
use logs::{ReadLog, Recorder};
use plan_inspections::PlanFinding;
use plans::{Alloc, Planned};
use rings::{Ask, MarkAnswer, Message, Opened, Ring, VisitAnswer, VisitRecord};
use sets::Set;
use sheets::{ReadPlan, ReadRequest, Written};
use units::Station;
use versions::{FoundVersion, StoredPlan, VersionsIn};

// Reads a request sheet from the lent bytes.
#[unsafe(no_mangle)]
pub extern "C" fn olivastrum_read_request_sheet(sheet: &[u8]) -> ReadRequest
    ensures { result ≡ read_request sheet.now }
{
    host::olivastrum_read_request_sheet(sheet)
}

// Reads a plan sheet from the lent bytes.
#[unsafe(no_mangle)]
pub extern "C" fn olivastrum_read_plan_sheet(sheet: &[u8]) -> ReadPlan
    ensures { result ≡ read_plan sheet.now }
{
    host::olivastrum_read_plan_sheet(sheet)
}

// Writes a request sheet into the first bytes of the lent buffer.
#[unsafe(no_mangle)]
pub extern "C" fn olivastrum_write_request_sheet(set: Set, out: &mut [u8]) -> Written
    ensures { Wrote false set blank_alloc out.old out.new result }
{
    host::olivastrum_write_request_sheet(set, out)
}

// Writes a plan sheet into the first bytes of the lent buffer.
#[unsafe(no_mangle)]
pub extern "C" fn olivastrum_write_plan_sheet(set: Set, alloc: Alloc, out: &mut [u8]) -> Written
    ensures { Wrote true set alloc out.old out.new result }
{
    host::olivastrum_write_plan_sheet(set, alloc, out)
}

// Plans a set: the smallest allocation, or a refusal.
#[unsafe(no_mangle)]
pub extern "C" fn olivastrum_plan_set(set: Set) -> Planned
    ensures { result ≡ planned set }
{
    host::olivastrum_plan_set(set)
}

// Opens a ring on a set and an allocation.
#[unsafe(no_mangle)]
pub extern "C" fn olivastrum_open_ring(set: Set, alloc: Alloc) -> Opened
    ensures { result ≡ opening set alloc }
{
    host::olivastrum_open_ring(set, alloc)
}

// A visit at the station that has the token of the lent ring, with these asynchronous frames asked for.
#[unsafe(no_mangle)]
pub extern "C" fn olivastrum_visit(ring: &mut Ring, ask: Ask) -> VisitAnswer
    ensures { VisitLent ring.old ask ring.new result }
{
    host::olivastrum_visit(ring, ask)
}

// Handing in a message at the lent ring.
#[unsafe(no_mangle)]
pub extern "C" fn olivastrum_hand_in(ring: &mut Ring, message: Message) -> u8
    ensures { HandInLent ring.old message ring.new result }
{
    host::olivastrum_hand_in(ring, message)
}

// Switching a station of the lent ring through: its mark is set, and the message that it holds is withdrawn.
#[unsafe(no_mangle)]
pub extern "C" fn olivastrum_mark(ring: &mut Ring, station: Station) -> MarkAnswer
    ensures { MarkLent ring.old station ring.new result }
{
    host::olivastrum_mark(ring, station)
}

// Switching a station of the lent ring in again: its mark is taken off.
#[unsafe(no_mangle)]
pub extern "C" fn olivastrum_unmark(ring: &mut Ring, station: Station) -> u8
    ensures { UnmarkLent ring.old station ring.new result }
{
    host::olivastrum_unmark(ring, station)
}

// Begins a log in the first bytes of the lent buffer: the plan's fields, without the end.
#[unsafe(no_mangle)]
pub extern "C" fn olivastrum_begin_log(
    set: Set,
    alloc: Alloc,
    counter: u32,
    clock: u64,
    out: &mut [u8],
) -> Recorder
    ensures { Began set alloc counter clock out.old out.new result }
{
    host::olivastrum_begin_log(set, alloc, counter, clock, out)
}

// Adds a visit to a log in the lent buffer.
#[unsafe(no_mangle)]
pub extern "C" fn olivastrum_add_visit(
    recorder: Recorder,
    visit: VisitRecord,
    out: &mut [u8],
) -> Recorder
    ensures { Added recorder visit out.old out.new result }
{
    host::olivastrum_add_visit(recorder, visit, out)
}

// Adds a mark to a log in the lent buffer.
#[unsafe(no_mangle)]
pub extern "C" fn olivastrum_add_mark(
    recorder: Recorder,
    mark: MarkEntry,
    out: &mut [u8],
) -> Recorder
    ensures { AddedMark recorder mark out.old out.new result }
{
    host::olivastrum_add_mark(recorder, mark, out)
}

// Ends a log in the lent buffer.
#[unsafe(no_mangle)]
pub extern "C" fn olivastrum_end_log(recorder: Recorder, out: &mut [u8]) -> Written
    ensures { EndedLog recorder out.old out.new result }
{
    host::olivastrum_end_log(recorder, out)
}

// Reads a log from the lent bytes.
#[unsafe(no_mangle)]
pub extern "C" fn olivastrum_read_log(log: &[u8]) -> ReadLog
    ensures { result ≡ read_log log.now }
{
    host::olivastrum_read_log(log)
}

// Hands out the entry whose field stands at the place of the lent bytes, and the place behind it.
#[unsafe(no_mangle)]
pub extern "C" fn olivastrum_log_entry(log: &[u8], at: usize) -> LogEntry
    ensures { result ≡ told (next_entry log.now at) }
{
    host::olivastrum_log_entry(log, at)
}

// Inspects a log on the lent bytes: whether a run could have given its records, or the first record and rule broken.
#[unsafe(no_mangle)]
pub extern "C" fn olivastrum_inspect_log(log: &[u8]) -> Finding
    ensures { result ≡ finding_in log.now }
{
    host::olivastrum_inspect_log(log)
}

// Inspects a log on the lent bytes against a plan sheet: which of the two is refused, whether the log's plan is another one, or its finding.
#[unsafe(no_mangle)]
pub extern "C" fn olivastrum_inspect_log_of(plan: &[u8], log: &[u8]) -> PlanFinding
    ensures { result ≡ plan_finding plan.now log.now }
{
    host::olivastrum_inspect_log_of(plan, log)
}

// Begins an inspection that the host keeps, with a ring's plan and before its first record; or a refusal with the blank one.
#[unsafe(no_mangle)]
pub extern "C" fn olivastrum_begin_inspection(set: Set, alloc: Alloc) -> BegunInspection
    ensures { result ≡ inspection_begun set alloc }
{
    host::olivastrum_begin_inspection(set, alloc)
}

// Inspects one record more, on the inspection that the host keeps.
#[unsafe(no_mangle)]
pub extern "C" fn olivastrum_inspect_record(
    kept: &mut KeptInspection,
    entry: LogEntry,
) -> RecordFinding
    ensures { RecordLent kept.old entry kept.new result }
{
    host::olivastrum_inspect_record(kept, entry)
}

// Makes the lent area a store without a version.
#[unsafe(no_mangle)]
pub extern "C" fn olivastrum_empty_store(area: &mut [u8]) -> u8
    ensures { Emptied area.old area.new result }
{
    host::olivastrum_empty_store(area)
}

// Stores a plan sheet in the lent area as its next version.
#[unsafe(no_mangle)]
pub extern "C" fn olivastrum_store_plan(area: &mut [u8], sheet: &[u8]) -> StoredPlan
    ensures { Stored sheet.now area.old area.new result }
{
    host::olivastrum_store_plan(area, sheet)
}

// Where the plan sheet of a version stands in the lent area.
#[unsafe(no_mangle)]
pub extern "C" fn olivastrum_find_version(area: &[u8], version: u32) -> FoundVersion
    ensures { result ≡ found_version area.now version }
{
    host::olivastrum_find_version(area, version)
}

// The oldest and the newest version that the lent area keeps.
#[unsafe(no_mangle)]
pub extern "C" fn olivastrum_versions_in(area: &[u8]) -> VersionsIn
    ensures { result ≡ versions_in area.now }
{
    host::olivastrum_versions_in(area)
}

// The request of a list of wagons: its set, or a refusal.
#[unsafe(no_mangle)]
pub extern "C" fn olivastrum_hopper_request(list: WagonList) -> ReadRequest
    ensures { result ≡ list_request list }
{
    host::olivastrum_hopper_request(list)
}

// Writes the request sheet of a list of wagons into the first bytes of the lent buffer.
#[unsafe(no_mangle)]
pub extern "C" fn olivastrum_write_hopper_sheet(list: WagonList, out: &mut [u8]) -> Written
    ensures { WroteSheet list out.old out.new result }
{
    host::olivastrum_write_hopper_sheet(list, out)
}

// Couples the wagons of a list: the train with its plan, or a refusal with the blank train.
#[unsafe(no_mangle)]
pub extern "C" fn olivastrum_couple_train(list: WagonList) -> Coupled
    ensures { result ≡ coupled list }
{
    host::olivastrum_couple_train(list)
}

// The train with another list, or a refusal with the train as it was.
#[unsafe(no_mangle)]
pub extern "C" fn olivastrum_change_train(train: Train, list: WagonList) -> Coupled
    ensures { result ≡ changed_train train list }
{
    host::olivastrum_change_train(train, list)
}

// The train with another wagon at a place, or a refusal with the train as it was.
#[unsafe(no_mangle)]
pub extern "C" fn olivastrum_change_wagon(train: Train, place: Station, wagon: Wagon) -> Coupled
    ensures { result ≡ changed_wagon train place wagon }
{
    host::olivastrum_change_wagon(train, place, wagon)
}

// The train with one wagon more at its end, or a refusal with the train as it was.
#[unsafe(no_mangle)]
pub extern "C" fn olivastrum_couple_wagon(train: Train, wagon: Wagon) -> Coupled
    ensures { result ≡ changed_train train (with_more train.list wagon) }
{
    host::olivastrum_couple_wagon(train, wagon)
}

// The train without its last wagon, or a refusal with the train as it was.
#[unsafe(no_mangle)]
pub extern "C" fn olivastrum_uncouple_wagon(train: Train) -> Coupled
    ensures { result ≡ changed_train train (without_last train.list) }
{
    host::olivastrum_uncouple_wagon(train)
}
