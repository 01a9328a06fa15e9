// What `log` writes: the calls are read line by line, and each visit, marking and unmarking that the ring accepted goes out as a field of the log.
#![tactic(auto)]

ghost use Rattle.std.specs.Prelude.{◌≡◌, [], ◌+◌, ◌≤◌, length};
ghost use Rattle.sheets.specs.Reading.{read_plan};
ghost use Rattle.log_records.specs.declared.Entry.TheVariants.{Visit, Mark};
ghost use Rattle.logs.specs.Writing.{visit_by};
ghost use Rattle.command_run.specs.Runs.{Piece};
ghost use Rattle.command_log.specs.LogBytes.{record_from, if_accepted, visits_in, mark_of, entries_by, first_unread, Records, RecordedPiece, RecordedOn, OpenedOn};

use command_run::{Answer, Run};
use log_records::MarkEntry;
use logs::Recorder;
use rings::VisitAnswer;
use sheets::ReadPlan;
use text::PAGE_SIZE;
use units::{Station, numbers};

// A run that is recorded: where it stands; the recorder's counter, as it was at this clock of the ring; and the first line that cannot be read, if there is one.
#[derive(Clone, Copy)]
pub struct Recording {
    pub run: Run,
    pub clock: u64,
    pub counter: u32,
    pub unread: Option<u64>,
}

// The recording goes on: where it stands, and how many bytes of the page are fields of records.
#[derive(Clone, Copy)]
pub struct Recorded {
    pub recording: Recording,
    pub length: usize,
}

// A recording that begins, how many bytes of the buffer are the plan's fields, and 0. Refused: no byte, and the refusal; the recording is that of a blank ring, or with 14 that of the opened ring.
#[derive(Clone, Copy)]
pub struct OpenedLog {
    pub recording: Recording,
    pub length: usize,
    pub number: u8,
}

// A recording begins with the counter at 0.
fn start(run: Run) -> Recording
    ensures { result ≡ record_from run }
{
    Recording {
        run,
        clock: 0,
        counter: 0,
        unread: None,
    }
}

// The first bytes of the log of a plan that was read: all fields of the plan but the end. Refused, no byte is written.
fn open_plan(plan: ReadPlan, out: &mut [u8]) -> OpenedLog
    ensures { OpenedOn plan out.old out.new result }
{
    let opened = command_run::open_plan(plan);
    let recording = start(opened.run);
    if opened.number != numbers::ACCEPTED {
        return OpenedLog {
            recording,
            length: 0,
            number: opened.number,
        };
    }
    let written = sheets::write_plan_fields(plan.set, plan.alloc, out);
    OpenedLog {
        recording,
        length: written.length,
        number: written.number,
    }
}

// The plan of a sheet, and the first bytes of its log.
pub fn open_log(sheet: &[u8], out: &mut [u8]) -> OpenedLog
    ensures { OpenedOn (read_plan sheet.now) out.old out.new result }
{
    open_plan(sheets::read_plan(sheet), out)
}

// The first line that cannot be read.
#[tactic(auto, unfolding(crate::specs::LogBytes::first_unread))]
fn first_unread(known: Option<u64>, line: u64, unread: bool) -> Option<u64>
    ensures { result ≡ first_unread known line unread }
{
    let first = unread & known.is_none();
    if first { Some(line) } else { known }
}

// The field of a visit, if it was accepted, put into the page; the recorder behind it.
fn record_visit(recorder: Recorder, visit: VisitAnswer, page: &mut [u8]) -> Recorder
    requires { recorder.at + 23 ≤ length page.old }
    ensures { Records recorder (if_accepted visit.number visit.«record») (if_accepted visit.number (Visit (visit_by recorder visit.«record»))) page.old page.new result }
{
    if visit.number != numbers::ACCEPTED {
        return recorder;
    }
    logs::add_visit(recorder, visit.record, page)
}

// The mark of a station. That of an accepted call is below N, and so below 128: its number fits a byte.
fn mark_of(station: Station, on: u32) -> MarkEntry
    ensures { result ≡ mark_of station on }
{
    let short = station.0 % 256;
    let number = short as u32;
    MarkEntry {
        station: number,
        mark: on,
    }
}

// The field of a mark, if its call was accepted, put into the page; the recorder behind it.
fn record_mark(recorder: Recorder, number: u8, mark: MarkEntry, page: &mut [u8]) -> Recorder
    requires { recorder.at + 23 ≤ length page.old }
    ensures { Records recorder [] (if_accepted number (Mark mark)) page.old page.new result }
{
    if number == numbers::ACCEPTED {
        return logs::add_mark(recorder, mark, page);
    }
    recorder
}

// What is recorded of an answer, put into the page; the recorder behind it.
fn record_answer(recorder: Recorder, answer: Answer, page: &mut [u8]) -> Recorder
    requires { recorder.at + 23 ≤ length page.old }
    ensures { Records recorder (visits_in answer) (entries_by recorder.counter recorder.clock answer) page.old page.new result }
{
    match answer {
        Answer::Nothing => recorder,
        Answer::Visit(visit) => record_visit(recorder, visit, page),
        Answer::HandIn(_) => recorder,
        Answer::Mark(station, marking) => record_mark(
            recorder,
            marking.number,
            mark_of(station, 1),
            page,
        ),
        Answer::Unmark(station, refusal) => record_mark(
            recorder,
            refusal,
            mark_of(station, 0),
            page,
        ),
        Answer::Unread => recorder,
    }
}

// A piece of the text, recorded line by line.
fn record_piece(recording: Recording, piece: &[u8], page: &mut [u8]) -> Recorded
    requires { Piece piece.now page.old }
    ensures { RecordedPiece recording piece.now page.old page.new result }
{
    let mut stands = recording.run;
    let mut unread = recording.unread;
    let mut recorder = Recorder {
        at: 0,
        clock: recording.clock,
        counter: recording.counter,
        number: 0,
    };
    for byte in piece {
        if *byte == b'\n' {
            let ended = command_run::end_line(stands);
            recorder = record_answer(recorder, ended.answer, page);
            unread = first_unread(unread, stands.line, ended.answer.is_unread());
            stands = ended.run;
        } else {
            stands.scan = line_reader::step(stands.scan, *byte);
        }
    }
    let behind = Recording {
        run: stands,
        clock: recorder.clock,
        counter: recorder.counter,
        unread,
    };
    Recorded {
        recording: behind,
        length: recorder.at,
    }
}

// The recording goes on over at most 256 bytes of the text: the fields of its records are put at the start of the page. A page that is too small leaves all as it was.
pub fn record_on(recording: Recording, text: &[u8], page: &mut [u8]) -> Recorded
    ensures { RecordedOn recording text.now page.old page.new result }
{
    if page.len() < PAGE_SIZE {
        return Recorded {
            recording,
            length: 0,
        };
    }
    let piece = line_reader::piece(text, command_run::PIECE_SIZE);
    record_piece(recording, piece, page)
}
