// What `show` prints of a log: the plan's text, then a line for each record as it is read. Requests and plans are answered as ever.
#![tactic(auto)]

ghost use Rattle.std.specs.Prelude.{◌≡◌, ◌*◌, ◌≤◌, min, length, take};
ghost use Rattle.sheets.specs.Reading.{plan_start};
ghost use Rattle.text.specs.Text.{Printed, Says, page_size};
ghost use Rattle.text.specs.Pages.{HasRoom, Puts};
ghost use Rattle.sheet_text_rules.specs.LogText.{visit_line, mark_line, entry_line};
ghost use Rattle.command_show_log.specs.LogShown.{plan_text, plain_text, shown_number_of, lines_for, end_text, show_after, shown_over, last_number, ShownOn, BegunOn};
ghost use Rattle.log_stream.specs.Pieces.{entries_of};

use log_records::{Entry, MarkEntry, NextEntry, VisitEntry};
use log_stream::Gathered;
use plans::Alloc;
use sets::Set;
use text::{PAGE_SIZE, Page, Said};
use units::numbers;

// How many bytes are read at once.
const PIECE_SIZE: usize = 512;

// A log that is being shown: what is kept of its records, and the refusal of its plan.
#[repr(C)]
#[derive(Clone, Copy)]
pub struct Showing {
    pub gathered: Gathered,
    pub number: u8,
}

// The log goes on: where it stands, and how many bytes of the page are its lines.
#[repr(C)]
#[derive(Clone, Copy)]
pub struct Shown {
    pub showing: Showing,
    pub length: usize,
}

// The first bytes were shown: what is kept for the records, whether there are some, where they begin, how many bytes of the page are the answer, and the number of the refusal that it says.
#[repr(C)]
#[derive(Clone, Copy)]
pub struct Begun {
    pub showing: Showing,
    pub log: bool,
    pub at: usize,
    pub length: usize,
    pub number: u8,
}

// ---- the lines

// The line of a visit.
fn put_visit_line(page: &mut Page, v: VisitEntry)
    requires { HasRoom 126 page.old }
    ensures { Puts 126 page.old (visit_line v) page.new }
{
    let station = u64::from(v.station);
    let start = u64::from(v.start);
    let limit = u64::from(v.limit);
    let synchronous = u64::from(v.synchronous);
    let asynchronous = u64::from(v.asynchronous);
    page.put_line(
        b"visit",
        &[station, start, limit, synchronous, asynchronous],
    );
}

// The line of a mark.
fn put_mark_line(page: &mut Page, m: MarkEntry)
    requires { HasRoom 126 page.old }
    ensures { Puts 126 page.old (mark_line m) page.new }
{
    page.put_line(b"mark", &[u64::from(m.station), u64::from(m.mark)]);
}

// The line of an entry.
fn put_entry_line(page: &mut Page, e: Entry)
    requires { HasRoom 126 page.old }
    ensures { Puts 126 page.old (entry_line e) page.new }
{
    match e {
        Entry::Visit(v) => put_visit_line(page, v),
        Entry::Mark(m) => put_mark_line(page, m),
    }
}

// The line of the entry that was handed out, if there is one and its plan was accepted.
fn put_entry(page: &mut Page, number: u8, got: NextEntry)
    requires { HasRoom 126 page.old }
    ensures { Puts 126 page.old (lines_for number (entries_of got)) page.new }
{
    if number != numbers::ACCEPTED {
        return;
    }
    if got.next == 0 {
        return;
    }
    put_entry_line(page, got.entry);
}

// ---- the records

// How many of the bytes are read at once.
fn piece_length(bytes: &[u8]) -> usize
    ensures { result ≡ min (length bytes.now) 512 }
{
    bytes.len().min(PIECE_SIZE)
}

// The first of the bytes: at most a line for each of them, and what is kept behind them.
fn show_piece(page: &mut Page, showing: Showing, bytes: &[u8], end: usize) -> Showing
    requires { (end ≤ length bytes.now) × (end ≤ 512) × HasRoom (126 * 512) page.old }
    ensures behind { result ≡ show_after showing (take end bytes.now) }
    ensures shown { Puts (126 * 512) page.old (shown_over showing (take end bytes.now)) page.new }
{
    let number = showing.number;
    let mut gathered = showing.gathered;
    for byte in &bytes[..end] {
        gathered = log_stream::step(gathered, *byte);
        let got = log_stream::entry_in(gathered);
        put_entry(page, number, got);
    }
    Showing { gathered, number }
}

// The records go on over at most 512 bytes: their lines are put at the start of the page. A page that is too small leaves all as it was.
pub fn show_on(showing: Showing, bytes: &[u8], page: &mut [u8]) -> Shown
    ensures { ShownOn showing bytes.now page.old page.new result }
{
    if page.len() < PAGE_SIZE {
        return Shown { showing, length: 0 };
    }
    let end = piece_length(bytes);
    let mut page = Page::new(page);
    let showing = show_piece(&mut page, showing, bytes, end);
    let length = page.length();
    Shown { showing, length }
}

// The number when all was read.
fn number_of(showing: Showing) -> u8
    ensures { result ≡ last_number showing }
{
    let number = log_stream::number_of(showing.gathered);
    if number != numbers::ACCEPTED {
        return number;
    }
    showing.number
}

// What is printed when all was read: nothing, or the refusal; and the number.
pub fn show_end(showing: Showing, page: &mut [u8]) -> Said
    ensures { Says (end_text showing) (last_number showing) page.old page.new result }
{
    if page.len() < PAGE_SIZE {
        return Said {
            length: 0,
            number: numbers::BUFFER_TOO_SHORT,
        };
    }
    let number = number_of(showing);
    if number == numbers::ACCEPTED {
        return Said { length: 0, number };
    }
    let mut page = Page::new(page);
    page.put_refused(number);
    Said {
        length: page.length(),
        number,
    }
}

// ---- the first bytes

// The answer to bytes without a whole record: behind a plan's fields those of a log that has none, else a request or plan as ever.
fn show_plain(passed: bool, head: &[u8], page: &mut [u8]) -> Said
    requires { (page_size ≤ length page.old) × (passed ≡ (plan_start head.now).passed) }
    ensures { Says (plain_text head.now) (shown_number_of head.now) page.old page.new result }
{
    if !passed {
        return command_show::show_text(head, page);
    }
    let log = logs::read_log(head);
    let told = log.number;
    if told != numbers::ACCEPTED {
        let mut page = Page::new(page);
        page.put_refused(told);
        return Said {
            length: page.length(),
            number: told,
        };
    }
    let length = command_show::plan_text(log.set, log.alloc, page);
    Said {
        length,
        number: told,
    }
}

// The text of a log's plan; nothing where it is refused.
fn show_plan(number: u8, set: Set, alloc: Alloc, page: &mut [u8]) -> usize
    requires { page_size ≤ length page.old }
    ensures { Printed (plan_text number set alloc) page.old page.new result }
{
    if number != numbers::ACCEPTED {
        return 0;
    }
    command_show::plan_text(set, alloc, page)
}

// Shows the first bytes: of a log the plan's text, of anything else the whole answer.
// They hold a plan's fields and the first record behind them, if the input has these. A page that is too small gets nothing.
pub fn show_start(head: &[u8], page: &mut [u8]) -> Begun
    ensures { BegunOn head.now page.old page.new result }
{
    let start = sheets::read_start(head);
    let first = logs::log_entry(head, start.at);
    let log = start.passed & (first.next != 0);
    let showing = Showing {
        gathered: log_stream::begin(),
        number: start.number,
    };
    if page.len() < PAGE_SIZE {
        return Begun {
            showing,
            log,
            at: start.at,
            length: 0,
            number: numbers::BUFFER_TOO_SHORT,
        };
    }
    if !log {
        let plain = show_plain(start.passed, head, page);
        return Begun {
            showing,
            log,
            at: start.at,
            length: plain.length,
            number: plain.number,
        };
    }
    let length = show_plan(start.number, start.set, start.alloc, page);
    Begun {
        showing,
        log,
        at: start.at,
        length,
        number: numbers::ACCEPTED,
    }
}
