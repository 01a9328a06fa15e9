// What each station did in a log's records: its visits, the longest time between two of them, and what it sent; and how far the records have come, rotation by rotation.
#![tactic(auto)]

ghost use Rattle.std.specs.Prelude.{◌≡◌, ◌<◌, not, ◌==◌, nat_eq};
ghost use Rattle.units.specs.Places.{at as place_at, all_below};
ghost use Rattle.units.specs.Small.{Same};
ghost use Rattle.tallies.specs.Laps.{took_by, no_lap, visit_lapped, lapped};
ghost use Rattle.tallies.specs.Tallies.{place_of, added_at, raised_at, gap_of, switch_of, marked_by, visit_tallied, mark_switched, is_through, seen_of, nothing_seen, SeenOn};
ghost use Rattle.tallies.specs.Shown.{station_of};

use log_records::{Entry, MarkEntry, VisitEntry};

// How many numbers there are of the stations: seven columns of 128.
pub const SIZE: usize = 896;

// The columns, each by the place of its station 0: how many visits there were; how many of them while the station was switched through; the moment of its last visit; the longest time between two of its visits; the most that it sent synchronously in a visit; and what it sent synchronously and asynchronously in all.
pub const VISITS: usize = 0;

pub const THROUGH: usize = 128;

pub const LAST: usize = 256;

pub const LONGEST: usize = 384;

pub const MOST: usize = 512;

pub const SYNCHRONOUS: usize = 640;

pub const ASYNCHRONOUS: usize = 768;

// How far the records so far have come. A rotation is each N visits from the first.
#[repr(C)]
#[derive(Clone, Copy)]
pub struct Lap {
    // Records, visits and marks.
    pub records: u64,
    pub visits: u64,
    // Whole rotations, and the visits of the one that has begun.
    pub rotation: u64,
    pub turn: u32,
    // The ticks that these visits took.
    pub elapsed: u64,
}

// The ticks of all records that keep every rule; where these end, and where all records end.
#[repr(C)]
#[derive(Clone, Copy)]
pub struct Course {
    pub clock: u64,
    pub kept: Lap,
    pub all: Lap,
}

// What was seen of the records so far: the numbers of the stations, of the records that keep every rule; which stations are switched through, 0 for no, behind all records; and how far they have come.
#[repr(C)]
#[derive(Clone, Copy)]
pub struct Seen {
    pub numbers: [u64; 896],
    pub mark: [u8; 128],
    pub course: Course,
}

// A record of a picture: how far the records before it have come, the record, and whether its station is switched through.
#[derive(Clone, Copy)]
pub struct Drawn {
    pub lap: Lap,
    pub entry: Entry,
    pub through: bool,
}

// ---- how far the records have come

// The number at a place; 0 behind the last of them.
fn number_or_zero(xs: &[u32], i: usize) -> u64
    ensures { Same (place_at xs.now i) result }
{
    xs.get(i).map_or(0, |x| u64::from(*x))
}

// w of a station; 0 where the array has no such place.
pub fn walk_of(w: &[u32; 128], station: u32) -> u64
    ensures { Same (place_at w.now station) result }
{
    number_or_zero(w, station as usize)
}

// What a visit took.
fn took_by(w: &[u32; 128], visit: VisitEntry) -> u64
    ensures { result ≡ took_by w.now visit }
{
    let walk = walk_of(w, visit.station);
    u64::from(visit.synchronous) + u64::from(visit.asynchronous) + walk
}

// One visit more: the last one of a rotation ends it.
#[tactic(auto, unfolding(crate::specs::Laps::visit_lapped))]
fn lap_visit(lap: Lap, n: u32, w: &[u32; 128], visit: VisitEntry) -> Lap
    ensures { result ≡ visit_lapped n w.now lap visit }
{
    let took = took_by(w, visit);
    let records = std::num::wrapping_add_u64(lap.records, 1);
    let visits = std::num::wrapping_add_u64(lap.visits, 1);
    if u64::from(n) <= u64::from(lap.turn) + 1 {
        let rotation = std::num::wrapping_add_u64(lap.rotation, 1);
        return Lap {
            records,
            visits,
            rotation,
            turn: 0,
            elapsed: 0,
        };
    }
    let elapsed = std::num::wrapping_add_u64(lap.elapsed, took);
    Lap {
        records,
        visits,
        turn: lap.turn + 1,
        elapsed,
        ..lap
    }
}

// Before the first record.
pub fn no_lap() -> Lap
    ensures { result ≡ no_lap }
{
    Lap {
        records: 0,
        visits: 0,
        rotation: 0,
        turn: 0,
        elapsed: 0,
    }
}

// How far the records have come behind one more. A mark takes no time and is no visit.
pub fn lap_on(lap: Lap, n: u32, w: &[u32; 128], entry: Entry) -> Lap
    ensures { result ≡ lapped n w.now lap entry }
{
    match entry {
        Entry::Visit(visit) => lap_visit(lap, n, w, visit),
        Entry::Mark(_) => {
            let records = std::num::wrapping_add_u64(lap.records, 1);
            Lap { records, ..lap }
        }
    }
}

// ---- the numbers of a station

// The number at a place rises by x, past its top to 0.
fn add_at(numbers: &mut [u64; 896], i: usize, x: u64)
    requires { i < 896 }
    ensures { numbers.new ≡ added_at numbers.old i x }
{
    numbers[i] = std::num::wrapping_add_u64(numbers[i], x);
}

// The number at a place is at least x.
fn raise_at(numbers: &mut [u64; 896], i: usize, x: u64)
    requires { i < 896 }
    ensures { numbers.new ≡ raised_at numbers.old i x }
{
    numbers[i] = numbers[i].max(x);
}

// The time since the last visit began; none before the first.
#[tactic(auto, unfolding(crate::specs::Tallies::gap_of))]
fn gap_of(visits: u64, last: u64, clock: u64) -> u64
    ensures { result ≡ gap_of visits last clock }
{
    if visits == 0 {
        return 0;
    }
    std::num::wrapping_sub_u64(clock, last)
}

// The place of a station in a column: one below 128 is its own place.
fn place_of(station: u32) -> usize
    ensures { result ≡ place_of station }
{
    (station % 128) as usize
}

// What a visit adds to those while the station was switched through: 0 is in, anything else switched through.
#[tactic(auto, unfolding(crate::specs::Tallies::switch_of))]
fn switch_of(mark: u32) -> u64
    ensures { result ≡ switch_of mark }
{
    u64::from(mark != 0)
}

// The mark of a station behind a record that marks it. One that is neither 0 nor 1 changes nothing.
#[tactic(auto, unfolding(crate::specs::Tallies::marked_by, crate::specs::Tallies::switch_of))]
fn marked_by(before: u8, mark: u32) -> u8
    ensures { result ≡ marked_by before mark }
{
    match mark {
        0 => 0,
        1 => 1,
        _ => before,
    }
}

// A mark of a station behind the last place switches nobody.
fn switch_on(mark: &mut [u8], switched: MarkEntry)
    ensures { mark.new ≡ mark_switched mark.old switched }
{
    let p = switched.station as usize;
    if p < mark.len() {
        mark[p] = marked_by(mark[p], switched.mark);
    }
}

// The numbers behind a visit of the station at this place.
fn tally_visit(numbers: &mut [u64; 896], p: usize, mark: u32, clock: u64, visit: VisitEntry)
    requires { p < 128 }
    ensures { numbers.new ≡ visit_tallied numbers.old p mark clock visit }
{
    let gap = gap_of(numbers[VISITS + p], numbers[LAST + p], clock);
    raise_at(&mut *numbers, LONGEST + p, gap);
    numbers[LAST + p] = clock;
    add_at(&mut *numbers, VISITS + p, 1);
    add_at(&mut *numbers, THROUGH + p, switch_of(mark));
    let sent = u64::from(visit.synchronous);
    raise_at(&mut *numbers, MOST + p, sent);
    add_at(&mut *numbers, SYNCHRONOUS + p, sent);
    add_at(
        &mut *numbers,
        ASYNCHRONOUS + p,
        u64::from(visit.asynchronous),
    );
}

// ---- the records

// The station of a record.
fn station_of(entry: Entry) -> u32
    ensures { result ≡ station_of entry }
{
    match entry {
        Entry::Visit(visit) => visit.station,
        Entry::Mark(switched) => switched.station,
    }
}

// Whether there is a mark at a place. Behind the last one there is none.
fn is_marked(mark: &[u8], p: usize) -> bool
    ensures { result ≡ not (place_at mark.now p == 0) }
{
    mark.get(p).is_some_and(|own| *own != 0)
}

// Whether the station of a record is switched through.
pub fn is_through(mark: &[u8; 128], entry: Entry) -> bool
    ensures { result ≡ is_through mark.now entry }
{
    is_marked(mark, station_of(entry) as usize)
}

// Nothing was seen yet.
pub fn nothing() -> Seen
    ensures { result ≡ nothing_seen }
{
    let none = no_lap();
    let course = Course {
        clock: 0,
        kept: none,
        all: none,
    };
    let numbers: [u64; 896] = [0; 896];
    let mark: [u8; 128] = [0; 128];
    Seen {
        numbers,
        mark,
        course,
    }
}

// One record more, on lent arrays. By this rule it, or one before it, is broken; 0: by none.
pub fn see_on<'a>(
    numbers: &'a mut [u64; 896],
    mark: &'a mut [u8; 128],
    w: &'a [u32; 128],
    n: u32,
    rule: u8,
    course: Course,
    entry: Entry,
) -> Course
    ensures { SeenOn n w.now rule (seen_of numbers.old mark.old course) entry (seen_of numbers.new mark.new result) }
{
    let lap = course.all;
    let all = lap_on(lap, n, w, entry);
    let kept = course.kept;
    let clock = course.clock;
    match entry {
        Entry::Visit(visit) => {
            if rule != 0 {
                return Course { clock, kept, all };
            }
            let p = place_of(visit.station);
            let through = u32::from(mark[p]);
            tally_visit(&mut *numbers, p, through, clock, visit);
            let later = std::num::wrapping_add_u64(clock, took_by(w, visit));
            Course {
                clock: later,
                kept: all,
                all,
            }
        }
        Entry::Mark(switched) => {
            switch_on(&mut *mark, switched);
            if rule != 0 {
                return Course { clock, kept, all };
            }
            Course {
                clock,
                kept: all,
                all,
            }
        }
    }
}

// Whether two readings gave the same numbers.
pub fn same_numbers(a: [u64; 896], b: [u64; 896]) -> bool
    ensures { result ≡ all_below 896 (λ i. nat_eq (place_at a i) (place_at b i)) }
{
    a == b
}
