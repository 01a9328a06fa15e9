// What is wrong with a given plan, or with the numbers of a set, place by place.
#![tactic(auto)]

ghost use Rattle.std.specs.Prelude.{◌≡◌, not};
ghost use Rattle.units.specs.Grid.{on_grid};
ghost use Rattle.differences.specs.Views.{nth_of, header_of};
ghost use Rattle.faults.specs.Holdings.{is_station, time_by, excess_of, holding_with, holding_at, token_of};
ghost use Rattle.faults.specs.Ranges.{ranged, header_high, header_range, station_range};

use plans::Alloc;
use sets::{Head, Set};
use units::numbers;

// What a station of a given plan holds.
#[derive(Clone, Copy)]
pub struct Holding {
    // X, by the mode.
    pub time: u64,
    // X is below C.
    pub short: bool,
    // S is no multiple of g.
    pub off_grid: bool,
    // What S has more than need be; 0 in mode 2.
    pub excess: u64,
}

// The sum of S of a given plan against the token rule.
#[derive(Clone, Copy)]
pub struct Token {
    pub sum: u64,
    // TTRT − τ − (F − 1), held at 0.
    pub available: u64,
    // The sum, τ and F − 1 less TTRT, held at 0.
    pub over: u64,
}

// A number, the range that it is held to, and whether it is out of it.
#[derive(Clone, Copy)]
pub struct Ranged {
    pub value: u32,
    pub low: u32,
    pub high: u32,
    pub out: bool,
}

// ---- 7: a given plan

// There is a station with this number.
fn is_station(t: Set, station: u32) -> bool
    ensures { result ≡ is_station t station }
{
    (t.n <= numbers::MOST_STATIONS) & (station < t.n)
}

// X by the mode, where in FDDI so many ticks of a rotation are not the station's own.
fn time_by(h: Head, d: u32, away: u64, s: u32) -> u64
    ensures { result ≡ time_by h d away s }
{
    if h.mode == numbers::FDDI {
        return fddi::least_time(h.ttrt, d, away, s);
    }
    plans::least_time(h.ttrt, d, s)
}

// S is no multiple of the grid.
fn off_grid(grid: u32, s: u32) -> bool
    ensures { result ≡ not (on_grid grid s) }
{
    let both = quotients::divide(u64::from(s), u64::from(grid));
    both.remainder != 0
}

// What S has more than need be; nothing in mode 2.
fn excess_of(h: Head, c: u32, d: u32, s: u32) -> u64
    ensures { result ≡ excess_of h c d s }
{
    if h.mode == numbers::FDDI {
        return 0;
    }
    u64::from(s).saturating_sub(plans::smallest(h.grid, h.ttrt, c, d))
}

// What a station holds, where X is so large.
fn holding_with(h: Head, c: u32, d: u32, s: u32, time: u64) -> Holding
    ensures { result ≡ holding_with h c d s time }
{
    let short = time < u64::from(c);
    Holding {
        time,
        short,
        off_grid: off_grid(h.grid, s),
        excess: excess_of(h, c, d, s),
    }
}

// What a station of a given plan holds; nothing where there is no such station.
pub fn holding_at(t: Set, a: Alloc, station: u32) -> Holding
    ensures { result ≡ holding_at t a station }
{
    if !is_station(t, station) {
        return Holding {
            time: 0,
            short: false,
            off_grid: false,
            excess: 0,
        };
    }
    let i = station as usize;
    let own = a.s[i];
    let d = t.d[i];
    let s = a.s;
    let others = units::sum_first(s, t.n).saturating_sub(u64::from(own));
    let time = time_by(t.head, d, reasons::lost_time(t) + others, own);
    holding_with(t.head, t.c[i], d, own, time)
}

// The sum of S against the token rule.
pub fn token_of(t: Set, a: Alloc) -> Token
    ensures { result ≡ token_of t a }
{
    let s = a.s;
    let sum = units::sum_first(s, t.n);
    let gone = reasons::lost_time(t);
    let ttrt = u64::from(t.head.ttrt);
    Token {
        sum,
        available: ttrt.saturating_sub(gone),
        over: (sum + gone).saturating_sub(ttrt),
    }
}

// ---- 4: numbers out of range

// A number with its range.
fn ranged_by(low: u32, high: u32, value: u32) -> Ranged
    ensures { result ≡ ranged low high value }
{
    let fits = (low <= value) & (value <= high);
    Ranged {
        value,
        low,
        high,
        out: !fits,
    }
}

// The number of a header's field, by its tag.
fn header_number(h: Head, tag: u8) -> u32
    ensures { result ≡ header_of h tag }
{
    if tag == fields::HEAD_TAG {
        return h.ttrt;
    }
    sets::head_number(h, tag)
}

// The largest that it may be.
#[tactic(auto, unfolding(crate::specs::Ranges::header_high))]
fn header_high(tag: u8) -> u32
    ensures { result ≡ header_high tag }
{
    match tag {
        fields::HEAD_TAG => numbers::MOST_TTRT,
        fields::MODE_TAG => numbers::LAST_MODE,
        fields::FRAME_TAG => numbers::MOST_FRAME,
        _ => numbers::MOST_GRID,
    }
}

// The number of a header's field with its range: tag 1 is TTRT, 4 the mode, 5 F, and 6, as any other, g.
pub fn header_range(h: Head, tag: u8) -> Ranged
    ensures { result ≡ header_range h tag }
{
    ranged_by(1, header_high(tag), header_number(h, tag))
}

// Number j of five.
fn nth(w: u32, c: u32, d: u32, p: u32, s: u32, j: u8) -> u32
    ensures { result ≡ nth_of w c d p s j }
{
    match j {
        0 => w,
        1 => c,
        2 => d,
        3 => p,
        _ => s,
    }
}

// Number j of a station with its range: 0 is w, 1 C, 2 D, 3 P, and 4, as any other, S.
pub fn station_range(w: u32, c: u32, d: u32, p: u32, s: u32, j: u8) -> Ranged
    ensures { result ≡ station_range w c d p s j }
{
    let low = nth(0, 0, 1, d, 0, j);
    let high = nth(
        numbers::MOST_WALK,
        numbers::MOST_C,
        numbers::MOST_D,
        numbers::MOST_P,
        numbers::MOST_S,
        j,
    );
    ranged_by(low, high, nth(w, c, d, p, s, j))
}
