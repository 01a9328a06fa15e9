// A log of any length read for its picture, in pieces of any length: it is inspected, what each station did is kept, and each record that is drawn is handed out as it comes.
#![tactic(auto)]

ghost use Rattle.std.specs.Prelude.{◌≡◌, drop};
ghost use Rattle.tallies.specs.Tallies.{seen_of};
ghost use Rattle.picture_stream.specs.Watching.{no_window, is_drawn, handed_out, watch_start, watching_of, watched_from, lines_in, lines_of, last_line, window_of};

use inspection_stream::{Inspecting, Looked};
use log_records::Entry;
use log_stream::Gathered;
use sheets::PlanStart;
use tallies::{Course, Drawn, Lap, Seen};

// Which records are drawn: the visits of the rotations from `first` on that are below `end`, counted from 0, and the named record, from 1; 0 where none is named.
#[repr(C)]
#[derive(Clone, Copy)]
pub struct Window {
    pub first: u64,
    pub end: u64,
    pub named: u64,
}

// A log that is being read: its inspection, and what was seen of its records.
#[derive(Clone, Copy)]
pub struct Watching {
    pub inspecting: Inspecting,
    pub seen: Seen,
}

// The log behind some bytes more, and the place behind the last of them. A record that is drawn ends them, and is handed out.
#[derive(Clone, Copy)]
pub struct Watched {
    pub watching: Watching,
    pub at: usize,
    pub drawn: Option<Drawn>,
}

// At most so many rotations are drawn.
pub const MOST_LINES: u64 = 60;

// ---- which records are drawn

// Nothing is drawn.
pub fn nothing_drawn() -> Window
    ensures { result ≡ no_window }
{
    Window {
        first: 0,
        end: 0,
        named: 0,
    }
}

// Behind records that have come so far: a visit of a rotation of the window; of the marks the named one alone.
fn is_drawn(window: Window, lap: Lap, entry: Entry) -> bool
    ensures { result ≡ is_drawn window lap entry }
{
    match entry {
        Entry::Visit(_) => (window.first <= lap.rotation) & (lap.rotation < window.end),
        Entry::Mark(_) => std::num::wrapping_add_u64(lap.records, 1) == window.named,
    }
}

// A record that is drawn, as it stands behind the records so far.
fn hand_out(mark: &[u8; 128], lap: Lap, entry: Entry) -> Drawn
    ensures { result ≡ handed_out mark.now lap entry }
{
    let through = tallies::is_through(mark, entry);
    Drawn {
        lap,
        entry,
        through,
    }
}

// ---- the bytes

// The plan was read, from the first bytes of a log, and no record yet: these begin at `inspecting.start.at`.
pub fn watch_start(head: &[u8]) -> Watching
    ensures { result ≡ watch_start head.now }
{
    let start = sheets::read_start(head);
    let inspecting = inspection_stream::begin(start);
    let seen = tallies::nothing();
    Watching { inspecting, seen }
}

// The log that is being read, of its parts.
fn together(
    start: PlanStart,
    gathered: Gathered,
    looked: Looked,
    numbers: [u64; 896],
    mark: [u8; 128],
    course: Course,
) -> Watching
    ensures { result ≡ watching_of start gathered looked (seen_of numbers mark course) }
{
    let seen = Seen {
        numbers,
        mark,
        course,
    };
    let inspecting = Inspecting {
        start,
        gathered,
        looked,
    };
    Watching { inspecting, seen }
}

// The bytes from this place on, up to the first record that is drawn.
pub fn watch_on(watching: Watching, window: Window, bytes: &[u8], from: usize) -> Watched
    ensures { result ≡ watched_from window watching from (drop from bytes.now) }
{
    let inspecting = watching.inspecting;
    let start = inspecting.start;
    let set = start.set;
    let alloc = start.alloc;
    let w = set.w;
    let seen = watching.seen;
    let mut numbers = seen.numbers;
    let mut mark = seen.mark;
    let mut course = seen.course;
    let mut gathered = inspecting.gathered;
    let mut looked = inspecting.looked;
    for i in from..bytes.len() {
        gathered = log_stream::step(gathered, bytes[i]);
        let got = log_stream::entry_in(gathered);
        if got.next != 0 {
            let entry = got.entry;
            let lap = course.all;
            let drawn = hand_out(&mark, lap, entry);
            looked = inspection_stream::look(gathered, looked, set, alloc);
            let rule = looked.inspection.rule;
            course = tallies::see_on(&mut numbers, &mut mark, &w, set.n, rule, course, entry);
            if is_drawn(window, lap, entry) {
                let watching = together(start, gathered, looked, numbers, mark, course);
                return Watched {
                    watching,
                    at: i + 1,
                    drawn: Some(drawn),
                };
            }
        }
    }
    let watching = together(start, gathered, looked, numbers, mark, course);
    Watched {
        watching,
        at: from.max(bytes.len()),
        drawn: None,
    }
}

// ---- the window of a log that was read whole

// How many lines so many rotations are, with one that has begun.
#[tactic(auto, unfolding(crate::specs::Watching::lines_in))]
fn lines_in(lap: Lap) -> u64
    ensures { result ≡ lines_in lap }
{
    if lap.turn == 0 {
        return lap.rotation;
    }
    std::num::wrapping_add_u64(lap.rotation, 1)
}

// How many lines the picture of the whole log has: rotations, the last one perhaps not whole.
#[tactic(auto, unfolding(crate::specs::Watching::lines_of))]
pub fn lines_of(watching: Watching) -> u64
    ensures { result ≡ lines_of watching }
{
    let course = watching.seen.course;
    let lines = lines_in(course.all);
    if watching.inspecting.looked.inspection.rule == 0 {
        return lines;
    }
    let named = std::num::wrapping_add_u64(course.kept.rotation, 1);
    lines.max(named)
}

// The line behind the last that is drawn: where a record is named, its rotation and two behind it are; else the first ones.
#[tactic(auto, unfolding(crate::specs::Watching::last_line))]
fn last_line(watching: Watching) -> u64
    ensures { result ≡ last_line watching }
{
    let lines = lines_of(watching);
    if watching.inspecting.looked.inspection.rule == 0 {
        return MOST_LINES.min(lines);
    }
    std::num::wrapping_add_u64(watching.seen.course.kept.rotation, 3).min(lines)
}

// Which records are drawn of a log that was read whole.
pub fn window_of(watching: Watching) -> Window
    ensures { result ≡ window_of watching }
{
    let last = last_line(watching);
    let found = inspection::found(watching.inspecting.looked.inspection, 0);
    Window {
        first: last.saturating_sub(MOST_LINES),
        end: last,
        named: found.record,
    }
}
