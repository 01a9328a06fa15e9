// What `run` prints: the calls are read line by line, and each is answered by the ring.
#![tactic(auto)]

ghost use Rattle.std.specs.Prelude.{◌≡◌, true, [], ◌∷◌, ◌≤◌, length};
ghost use Rattle.sheets.specs.Reading.{read_plan};
ghost use Rattle.text.specs.Text.{space, line, line_on, text_or};
ghost use Rattle.text.specs.Pages.{HasRoom, Puts};
ghost use Rattle.command_run.specs.Calls.{is_unread, is_visit, ask_in, is_message, message_in, names_station, station_in, switched, called};
ghost use Rattle.command_run.specs.Runs.{run_from, opened_run, line_ends, Piece};
ghost use Rattle.command_run.specs.RunText.{signed_of, completion, arrival_words, amount_words, visit_line, visit_text, withdrawn_words, mark_text, answer_text, RanPiece, RanOn};

use line_reader::Scan;
use rings::{Ask, MarkAnswer, Message, Ring, VisitAnswer, VisitRecord};
use sheets::ReadPlan;
use text::{PAGE_SIZE, Page};
use units::{Station, Ticks, numbers};

// The letters of `visit`, `message`, `mark` and `unmark`, each as one number to base 256.
const VISIT: u64 = 508_575_312_244;

const MESSAGE: u64 = 30_792_318_992_869_221;

const MARK: u64 = 1_835_102_827;

const UNMARK: u64 = 129_117_141_955_179;

// How many bytes are read at once.
pub const PIECE_SIZE: usize = 256;

// A run: the ring, what was read of the line, and the line's number.
#[repr(C)]
#[derive(Clone, Copy)]
pub struct Run {
    pub ring: Ring,
    pub scan: Scan,
    pub line: u64,
}

// What a line was answered.
#[derive(Clone, Copy)]
pub enum Answer {
    // The line is empty.
    Nothing,
    // A visit: its record and 0, or the refusal.
    Visit(VisitAnswer),
    // A message was handed in: 0, or the refusal.
    HandIn(u8),
    // This station was to be switched through: what the marking answered.
    Mark(Station, MarkAnswer),
    // This station was to be switched in again: 0, or the refusal.
    Unmark(Station, u8),
    // The line is neither empty nor a call.
    Unread,
}

impl Answer {
    // The line is neither empty nor a call.
    pub fn is_unread(self) -> bool
        ensures { result ≡ is_unread self }
    {
        matches!(self, Answer::Unread)
    }
}

// What a line did: the ring behind it, and the answer.
#[derive(Clone, Copy)]
pub(crate) struct Called {
    ring: Ring,
    answer: Answer,
}

// What a byte did: where the run stands behind it, and of a line that ended there the answer.
#[derive(Clone, Copy)]
pub struct LineStep {
    pub run: Run,
    pub answer: Answer,
}

// A run that begins, and 0; or the run of a blank ring, and the refusal.
#[repr(C)]
#[derive(Clone, Copy)]
pub struct OpenedRun {
    pub run: Run,
    pub number: u8,
}

// The run goes on: where it stands, how many bytes of the page are its answers, and whether one of its lines cannot be read.
#[repr(C)]
#[derive(Clone, Copy)]
pub struct Ran {
    pub run: Run,
    pub length: usize,
    pub unread: bool,
}

// ---- the calls

fn is_visit(s: Scan) -> bool
    ensures { result ≡ is_visit s }
{
    let readable = !(s.phase == line_reader::UNREADABLE);
    let values = s.values;
    let frames_fit = values[0] < 4_294_967_296;
    let length_fits = values[1] < 4_294_967_296;
    let counted = (s.count == 1) | ((s.count == 2) & length_fits);
    readable & ((s.word == VISIT) & (frames_fit & counted))
}

// What the visit asks for: frames of the length that is named, or else of length 1.
fn ask_in(s: Scan) -> Ask
    requires { is_visit s ≡ true }
    ensures { result ≡ ask_in s }
{
    let values = s.values;
    let asked = values[0];
    let frames = asked as u32;
    if s.count == 1 {
        return Ask { frames, length: 1 };
    }
    let named = values[1];
    let length = named as u32;
    Ask { frames, length }
}

fn is_message(s: Scan) -> bool
    ensures { result ≡ is_message s }
{
    let readable = !(s.phase == line_reader::UNREADABLE);
    let values = s.values;
    let fits = values[0] < 4_294_967_296;
    readable & ((s.word == MESSAGE) & ((s.count == 3) & fits))
}

// The message that the line hands in.
fn message_in(s: Scan) -> Message
    ensures { result ≡ message_in s }
{
    let values = s.values;
    let station = values[0];
    let length = values[1];
    let arrival = values[2];
    Message {
        station: Station(station),
        length: Ticks(length),
        arrival: Ticks(arrival),
    }
}

// The line is this word and one station number.
fn names_station(s: Scan, word: u64) -> bool
    ensures { result ≡ names_station word s }
{
    let readable = !(s.phase == line_reader::UNREADABLE);
    let values = s.values;
    let station_fits = values[0] < 4_294_967_296;
    readable & ((s.word == word) & ((s.count == 1) & station_fits))
}

// The station that the line names.
fn station_in(s: Scan) -> Station
    ensures { result ≡ station_in s }
{
    let values = s.values;
    let station = values[0];
    Station(station)
}

// ---- the answers

// The margin with its sign, a space before it.
fn put_margin(page: &mut Page, margin: i64)
    requires { HasRoom 40 page.old }
    ensures { Puts 40 page.old (space ∷ signed_of margin) page.new }
{
    let number = margin.unsigned_abs();
    if margin < 0 {
        page.put_short(b" -");
        page.put_number(number);
        return;
    }
    page.put_field(number);
}

// Finish and margin of a completed message, or two dashes; and the line's end.
fn put_completion(page: &mut Page, completed: u8, finish: u64, margin: i64)
    requires { HasRoom 62 page.old }
    ensures { Puts 62 page.old (line_on (completion completed finish margin)) page.new }
{
    if completed == 0 {
        page.put_short(b" - -");
        page.put_end();
        return;
    }
    page.put_field(finish);
    put_margin(page, margin);
    page.put_end();
}

// Station, start and TRT of a visit.
fn put_arrival(page: &mut Page, v: VisitRecord)
    requires { HasRoom 83 page.old }
    ensures { Puts 83 page.old (arrival_words v) page.new }
{
    page.put_short(b"visit");
    page.put_field(v.station.0);
    page.put_field(v.start.0);
    page.put_field(v.trt.0);
}

// Limit, and the two amounts sent.
fn put_amounts(page: &mut Page, v: VisitRecord)
    requires { HasRoom 63 page.old }
    ensures { Puts 63 page.old (amount_words v) page.new }
{
    page.put_field(v.limit.0);
    page.put_field(v.synchronous.0);
    page.put_field(v.asynchronous.0);
}

// A visit's line.
fn put_visit_line(page: &mut Page, v: VisitRecord)
    requires { HasRoom 240 page.old }
    ensures { Puts 240 page.old (visit_line v) page.new }
{
    put_arrival(page, v);
    put_amounts(page, v);
    put_completion(page, v.completed, v.finish.0, v.margin);
}

// A visit's answer, or the refusal.
fn put_visit(page: &mut Page, answer: VisitAnswer)
    requires { HasRoom 240 page.old }
    ensures { Puts 240 page.old (visit_text answer) page.new }
{
    if answer.number != numbers::ACCEPTED {
        page.put_refused(answer.number);
        return;
    }
    put_visit_line(page, answer.record);
}

// The word of a call that was accepted, or the refusal.
fn put_done(page: &mut Page, number: u8, word: &[u8])
    requires { (length word.now ≤ 20) × HasRoom 240 page.old }
    ensures { Puts 240 page.old (text_or number (line (word.now ∷ []))) page.new }
{
    if number != numbers::ACCEPTED {
        page.put_refused(number);
        return;
    }
    page.put_short(word);
    page.put_end();
}

// What remained of the message that was withdrawn, and its arrival; nothing where none was; and the line's end.
fn put_withdrawn(page: &mut Page, answer: MarkAnswer)
    requires { HasRoom 63 page.old }
    ensures { Puts 63 page.old (line_on (withdrawn_words answer.withdrawn answer.rest.0 answer.arrival.0)) page.new }
{
    if answer.withdrawn == 0 {
        page.put_end();
        return;
    }
    page.put_short(b" withdrawn");
    page.put_field(answer.rest.0);
    page.put_field(answer.arrival.0);
    page.put_end();
}

// `marked`, with the message that was withdrawn; or the refusal.
fn put_mark(page: &mut Page, answer: MarkAnswer)
    requires { HasRoom 240 page.old }
    ensures { Puts 240 page.old (mark_text answer) page.new }
{
    if answer.number != numbers::ACCEPTED {
        page.put_refused(answer.number);
        return;
    }
    page.put_short(b"marked");
    put_withdrawn(page, answer);
}

// What is printed of an answer; a line that cannot be read is named.
fn put_answer(page: &mut Page, answer: Answer, line: u64)
    requires { HasRoom 240 page.old }
    ensures { Puts 240 page.old (answer_text answer line) page.new }
{
    match answer {
        Answer::Nothing => {}
        Answer::Visit(visit) => put_visit(page, visit),
        Answer::HandIn(number) => put_done(page, number, b"taken"),
        Answer::Mark(_, marking) => put_mark(page, marking),
        Answer::Unmark(_, refusal) => put_done(page, refusal, b"unmarked"),
        Answer::Unread => page.put_unread(line),
    }
}

// ---- one line

// What a line that is no visit and no message asks for, and what the ring does: a station is switched through, or in again.
fn switch_line(ring: Ring, s: Scan) -> Called
    ensures { result ≡ switched ring s }
{
    let station = station_in(s);
    if names_station(s, MARK) {
        let marked = ring.mark(station);
        return Called {
            ring: marked.ring,
            answer: Answer::Mark(station, marked.answer),
        };
    }
    if names_station(s, UNMARK) {
        let taken = ring.unmark(station);
        return Called {
            ring: taken.ring,
            answer: Answer::Unmark(station, taken.number),
        };
    }
    Called {
        ring,
        answer: Answer::Unread,
    }
}

// What a line asks for, and what the ring does.
fn call_line(ring: Ring, s: Scan) -> Called
    ensures { result ≡ called ring s }
{
    if line_reader::is_empty_line(s) {
        return Called {
            ring,
            answer: Answer::Nothing,
        };
    }
    if is_visit(s) {
        let visited = ring.visit(ask_in(s));
        return Called {
            ring: visited.ring,
            answer: Answer::Visit(visited.answer),
        };
    }
    if is_message(s) {
        let held = ring.hand_in(message_in(s));
        return Called {
            ring: held.ring,
            answer: Answer::HandIn(held.number),
        };
    }
    switch_line(ring, s)
}

// The line ends: the run on the next line, and what the line did.
pub fn end_line(run: Run) -> LineStep
    ensures { result ≡ line_ends run }
{
    let called = call_line(run.ring, run.scan);
    let next = Run {
        ring: called.ring,
        scan: line_reader::fresh(),
        line: line_reader::next_line(run.line),
    };
    LineStep {
        run: next,
        answer: called.answer,
    }
}

// ---- the run

// A run begins on line 1.
pub(crate) fn start(ring: Ring) -> Run
    ensures { result ≡ run_from ring }
{
    Run {
        ring,
        scan: line_reader::fresh(),
        line: 1,
    }
}

// The run of a plan that was read, or the number of the refusal.
pub fn open_plan(plan: ReadPlan) -> OpenedRun
    ensures { result ≡ opened_run plan }
{
    let opened = rings::open(plan.set, plan.alloc);
    let run = start(opened.ring);
    if plan.number != numbers::ACCEPTED {
        return OpenedRun {
            run,
            number: plan.number,
        };
    }
    OpenedRun {
        run,
        number: opened.number,
    }
}

// The run of a plan sheet, or the number of the refusal.
pub fn open_run(sheet: &[u8]) -> OpenedRun
    ensures { result ≡ opened_run (read_plan sheet.now) }
{
    open_plan(sheets::read_plan(sheet))
}

// A piece of the text, answered line by line.
fn run_piece(run: Run, piece: &[u8], page: &mut [u8]) -> Ran
    requires { Piece piece.now page.old }
    ensures { RanPiece run piece.now page.old page.new result }
{
    let mut page = Page::new(page);
    let mut stands = run;
    let mut unread = false;
    for byte in piece {
        if *byte == b'\n' {
            let ended = end_line(stands);
            put_answer(&mut page, ended.answer, stands.line);
            unread |= ended.answer.is_unread();
            stands = ended.run;
        } else {
            stands.scan = line_reader::step(stands.scan, *byte);
        }
    }
    Ran {
        run: stands,
        length: page.length(),
        unread,
    }
}

// The run goes on over at most 256 bytes of the text: the answers are put at the start of the page. A page that is too small leaves all as it was.
pub fn run_on(run: Run, text: &[u8], page: &mut [u8]) -> Ran
    ensures { RanOn run text.now page.old page.new result }
{
    if page.len() < PAGE_SIZE {
        return Ran {
            run,
            length: 0,
            unread: false,
        };
    }
    run_piece(run, line_reader::piece(text, PIECE_SIZE), page)
}
