// Plans: the smallest synchronous time S for each station, the judgement of a given plan, and the spare time A*.
#![tactic(auto)]

mod shares;

ghost use Rattle.std.specs.Prelude.{◌≡◌, ◌+◌, ◌^◌, ◌≤◌, min};
ghost use Rattle.units.specs.Refusals.{answer_number};
ghost use Rattle.units.specs.Places.{at, sum_below, all_below};
ghost use Rattle.units.specs.Vectors.{lost_time};
ghost use Rattle.sets.specs.Lent.{set_of};
ghost use Rattle.units.specs.Small.{UpTo};
ghost use Rattle.plans.specs.Lent.{alloc_of, timely_fits_in, RulesFitIn, Plannable};
ghost use Rattle.plans.specs.Rules.{least_time, spare_time, in_range_s, token_fits};
ghost use Rattle.plans.specs.Planned.{blank_alloc, smallest_for, smallest_alloc, judged_plan, planned, planned_as};

use sets::{Head, Set};
use units::numbers;
use units::refusals::Refusal;

// An allocation: S at each station. Only the first N places are ever looked at.
#[repr(C)]
#[derive(Clone, Copy)]
pub struct Alloc {
    pub s: [u32; 128],
}

// Planning's answer: the number, 0 with the plan, or a refusal with the blank allocation.
#[repr(C)]
#[derive(Clone, Copy)]
pub struct Planned {
    pub alloc: Alloc,
    pub number: u8,
}

// The blank allocation: every S 0.
pub fn blank_alloc() -> Alloc
    ensures { result ≡ blank_alloc }
{
    Alloc { s: [0; 128] }
}

// X, the least synchronous time in any interval D.
pub fn least_time(ttrt: u32, d: u32, s: u32) -> u64
    ensures { result ≡ least_time ttrt d s }
{
    let turns = shares::rotations(ttrt, d);
    let long = u64::from(s);
    turns.whole * long + long.saturating_sub(turns.alpha)
}

// The smallest multiple of the grid that meets the deadline rule.
pub fn smallest(grid: u32, ttrt: u32, c: u32, d: u32) -> u64
    ensures { UpTo (c + ttrt + grid) (smallest_for grid ttrt c d) result }
{
    let turns = shares::rotations(ttrt, d);
    let longest = u64::from(c);
    if longest <= turns.whole * turns.alpha {
        quotients::stepped(grid, turns.whole, longest)
    } else {
        quotients::stepped(grid, turns.whole + 1, longest + turns.alpha)
    }
}

// Every S is in its range.
fn alloc_in_range(n: u32, s: &[u32; 128]) -> bool
    requires { n ≤ 128 }
    ensures { result ≡ all_below n (in_range_s (at s.now)) }
{
    let mut all = true;
    for share in &s[..units::places(n)] {
        all &= *share <= numbers::MOST_S;
    }
    all
}

// The deadline rule of a timely-token set holds at every station.
fn deadlines_fit(ttrt: u32, n: u32, c: &[u32; 128], d: &[u32; 128], s: &[u32; 128]) -> bool
    requires { n ≤ 128 }
    ensures { result ≡ all_below n (timely_fits_in ttrt c.now d.now (at s.now)) }
{
    let mut all = true;
    for i in 0..units::places(n) {
        all &= u64::from(c[i]) <= least_time(ttrt, d[i], s[i]);
    }
    all
}

// What no station may plan with, w lent: τ, and the F − 1 ticks by which a frame may run on.
fn lost_lent(frame: u32, n: u32, w: &[u32; 128]) -> u64
    ensures { UpTo (2 ^ 40 + 2 ^ 32) (lost_time (sum_below (min n 128) (at w.now)) frame) result }
{
    units::sum_lent(w, n) + u64::from(frame).saturating_sub(1)
}

// The token rule holds.
fn token_fits(t: &Set, s: &[u32; 128]) -> bool
    requires { t.now.n ≤ 128 }
    ensures { result ≡ token_fits t.now (at s.now) }
{
    units::token_kept(t.head.ttrt, lost_lent(t.head.frame, t.n, &t.w), t.n, s)
}

// The rules hold, by the set's mode.
fn rules_fit(
    h: Head,
    n: u32,
    w: &[u32; 128],
    c: &[u32; 128],
    d: &[u32; 128],
    s: &[u32; 128],
) -> bool
    requires { n ≤ 128 }
    ensures { RulesFitIn h n w.now c.now d.now (at s.now) result }
{
    let lost = lost_lent(h.frame, n, w);
    if h.mode == numbers::FDDI {
        return fddi::meets_rules(n, h.ttrt, h.grid, lost, c, d, s);
    }
    let deadlines = deadlines_fit(h.ttrt, n, c, d, s);
    let token = units::token_kept(h.ttrt, lost, n, s);
    deadlines & token & quotients::all_on_grid(h.grid, n, s)
}

// A*, the spare time: FDDI subtracts no F − 1 in it.
pub fn spare(t: Set, a: Alloc) -> u64
    ensures { result ≡ spare_time t (at a.s) }
{
    let sum = units::sum_lent(&a.s, t.n);
    let ttrt = u64::from(t.head.ttrt);
    let mode = t.head.mode;
    if mode == numbers::FDDI {
        let left = ttrt.saturating_sub(units::sum_lent(&t.w, t.n));
        return left.saturating_sub(sum);
    }
    let left = ttrt.saturating_sub(lost_lent(t.head.frame, t.n, &t.w));
    left.saturating_sub(sum)
}

// The judgement of a given set and allocation whose arrays are lent: 0, or the lowest of 2, 4, 5 and 7 that applies.
pub fn judge_plan_lent<'a>(
    h: Head,
    n: u32,
    w: &'a [u32; 128],
    c: &'a [u32; 128],
    d: &'a [u32; 128],
    p: &'a [u32; 128],
    s: &'a [u32; 128],
) -> Result<(), Refusal>
    ensures { answer_number result ≡ judged_plan (set_of h n w.now c.now d.now p.now) (alloc_of s.now) }
{
    sets::judge_numbers(h, n, w, c, d, p)?;
    if !alloc_in_range(n, s) {
        return Err(Refusal::OutOfRange);
    }
    sets::judge_walk(h.ttrt, n, w)?;
    if !rules_fit(h, n, w, c, d, s) {
        return Err(Refusal::RulesBroken);
    }
    Ok(())
}

// The judgement of a given set and allocation: 0, or the lowest of 2, 4, 5 and 7 that applies.
pub fn judge_plan(t: Set, a: Alloc) -> Result<(), Refusal>
    ensures { answer_number result ≡ judged_plan t a }
{
    judge_plan_lent(t.head, t.n, &t.w, &t.c, &t.d, &t.p, &a.s)
}

// The smallest S at each station of an allowed set, by the stations' own numbers.
fn smallest_alloc(t: &Set) -> Alloc
    requires { Plannable t.now }
    ensures { result ≡ smallest_alloc t.now }
{
    let mut s: [u32; 128] = [0; 128];
    for i in 0..units::places(t.n) {
        let least = smallest(t.head.grid, t.head.ttrt, t.c[i], t.d[i]);
        s[i] = least as u32;
    }
    Alloc { s }
}

// A refused plan: the number, with the blank allocation.
fn refused(number: u8) -> Planned
    ensures { result ≡ record { alloc = blank_alloc; number = number } }
{
    Planned {
        alloc: blank_alloc(),
        number,
    }
}

// The smallest S at each station, or the first of 2, 4, 5, 16 and 6 that applies.
fn allocation_of(t: &Set) -> Result<Alloc, Refusal>
    ensures { planned_as result ≡ planned t.now }
{
    sets::judge_lent(t.head, t.n, &t.w, &t.c, &t.d, &t.p)?;
    let retired = t.head.mode == numbers::FDDI;
    if retired {
        return Err(Refusal::Retired);
    }
    let alloc = smallest_alloc(t);
    if !token_fits(t, &alloc.s) {
        return Err(Refusal::NoAllocation);
    }
    Ok(alloc)
}

// Planning: the smallest S at each station, or the refusal's number with the blank allocation.
pub fn plan(t: Set) -> Planned
    ensures { result ≡ planned t }
{
    match allocation_of(&t) {
        Ok(alloc) => Planned {
            alloc,
            number: numbers::ACCEPTED,
        },
        Err(refusal) => refused(refusal.number()),
    }
}
