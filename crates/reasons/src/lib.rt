// Why planning answers as it does, in numbers: what is missing where it answers 6, what the smallest S of a station rests on, and how much room is left.
#![tactic(auto)]

ghost use Rattle.std.specs.Prelude.{◌≡◌, ◌≤◌, ◌^◌};
ghost use Rattle.units.specs.Small.{UpTo};
ghost use Rattle.sets.specs.Rules.{CountAllowed, NumbersAllowed};
ghost use Rattle.plans.specs.Bounds.{Lost};
ghost use Rattle.reasons.specs.Bounds.{Roomy};
ghost use Rattle.reasons.specs.Grounds.{no_grounds, grounds_of};
ghost use Rattle.reasons.specs.Rooms.{largest_with, rooms_of};
ghost use Rattle.reasons.specs.Shortages.{plannable, smallest_sum, shortage_of, too_much, with_grid, grid_is_cause};

use sets::{Head, Set};
use units::numbers;

// What the smallest S of a set need together, what there is for them, and the missing ticks.
#[derive(Clone, Copy)]
pub struct Shortage {
    // The sum of the smallest S.
    pub sum: u64,
    // That sum, τ and F − 1.
    pub needed: u64,
    // TTRT − τ − (F − 1), held at 0.
    pub available: u64,
    // What is needed − TTRT, held at 0.
    pub missing: u64,
}

// What the smallest S of a station rests on.
#[derive(Clone, Copy)]
pub struct Grounds {
    // m = D / TTRT rounded down.
    pub whole: u32,
    // α = (m + 1)·TTRT − D.
    pub alpha: u64,
    // The smallest S.
    pub smallest: u32,
    // X at S.
    pub time: u64,
    // X at the next smaller S on the grid, S − g; 0 where S is 0.
    pub below: u64,
}

// The largest C of each station with which the set still has a plan, all else as it is.
#[derive(Clone, Copy)]
pub struct Rooms {
    pub c: [u32; 128],
}

// ---- 6: what is missing

// Planning answers 6 or a plan.
fn plannable(t: Set) -> bool
    ensures { result ≡ plannable t }
{
    let mode = t.head.mode;
    sets::judge(t).is_ok() & (mode != numbers::FDDI)
}

// What no station may plan with: τ, and the F − 1 ticks by which a frame may run on.
pub fn lost_time(t: Set) -> u64
    ensures { Lost t result }
{
    sets::walk_time(t) + u64::from(t.head.frame).saturating_sub(1)
}

// The sum of the smallest S.
fn smallest_sum(t: &Set) -> u64
    requires { CountAllowed t.now × NumbersAllowed t.now }
    ensures { UpTo (2 ^ 34) (smallest_sum t.now) result }
{
    let mut sum: u64 = 0;
    for i in 0..units::places(t.n) {
        sum += plans::smallest(t.head.grid, t.head.ttrt, t.c[i], t.d[i]);
    }
    sum
}

// What the smallest S need, what there is, and what is missing. Zeros of a set that planning refuses with another number than 6.
pub fn shortage_of(t: Set) -> Shortage
    ensures { result ≡ shortage_of t }
{
    if !plannable(t) {
        return Shortage {
            sum: 0,
            needed: 0,
            available: 0,
            missing: 0,
        };
    }
    let sum = smallest_sum(&t);
    let gone = lost_time(t);
    let ttrt = u64::from(t.head.ttrt);
    let needed = sum + gone;
    Shortage {
        sum,
        needed,
        available: ttrt.saturating_sub(gone),
        missing: needed.saturating_sub(ttrt),
    }
}

// S, of one station, is above what there is for all.
pub fn too_much(available: u64, s: u64) -> bool
    ensures { result ≡ too_much available s }
{
    available < s
}

// The set without a grid.
fn without_grid(t: Set) -> Set
    ensures { result ≡ with_grid t 1 }
{
    let head = Head { grid: 1, ..t.head };
    Set { head, ..t }
}

// Planning answers 6, and without a grid there is a plan.
pub fn grid_is_cause(t: Set) -> bool
    ensures { result ≡ grid_is_cause t }
{
    let here = plans::plan(t);
    let free = plans::plan(without_grid(t));
    (here.number == numbers::NO_ALLOCATION) & (free.number == numbers::ACCEPTED)
}

// ---- what an S rests on

// No grounds: every number 0.
fn no_grounds() -> Grounds
    ensures { result ≡ no_grounds }
{
    Grounds {
        whole: 0,
        alpha: 0,
        smallest: 0,
        time: 0,
        below: 0,
    }
}

// What the smallest S rests on. Zeros where it has more than 32 bits, which no set's has.
pub fn grounds_of(grid: u32, ttrt: u32, c: u32, d: u32) -> Grounds
    ensures { result ≡ grounds_of grid ttrt c d }
{
    let least = plans::smallest(grid, ttrt, c, d);
    let Ok(smallest) = u32::try_from(least) else {
        return no_grounds();
    };
    let next = smallest.saturating_sub(grid);
    let both = quotients::divide_narrow(d, ttrt);
    let alpha = u64::from(ttrt.saturating_sub(both.remainder));
    Grounds {
        whole: both.quotient,
        alpha,
        smallest,
        time: plans::least_time(ttrt, d, smallest),
        below: plans::least_time(ttrt, d, next),
    }
}

// ---- how much room is left

// The largest C of one station, where so many ticks are left to its S.
fn largest_c(grid: u32, ttrt: u32, d: u32, left: u64) -> u32
    requires { (1 ≤ ttrt) × (left ≤ ttrt) }
    ensures { result ≡ largest_with grid ttrt d left }
{
    let step = u64::from(grid);
    let both = quotients::divide(left, step);
    let s = (both.quotient * step) as u32;
    plans::least_time(ttrt, d, s) as u32
}

// The largest C of each station, where so many ticks are spare.
fn largest_each(t: &Set, spare: u64) -> Rooms
    requires { Roomy t.now spare }
    ensures { result ≡ rooms_of t.now }
{
    let mut c: [u32; 128] = [0; 128];
    for i in 0..units::places(t.n) {
        let own = plans::smallest(t.head.grid, t.head.ttrt, t.c[i], t.d[i]);
        let largest = largest_c(t.head.grid, t.head.ttrt, t.d[i], own + spare);
        c[i] = largest;
    }
    Rooms { c }
}

// The largest C of each station with which the set still has a plan. Zeros of a set that has none.
pub fn rooms_of(t: Set) -> Rooms
    ensures { result ≡ rooms_of t }
{
    let short = shortage_of(t);
    let fits = plannable(t) & (short.missing == 0);
    if !fits {
        return Rooms { c: [0; 128] };
    }
    largest_each(&t, short.available - short.sum)
}
