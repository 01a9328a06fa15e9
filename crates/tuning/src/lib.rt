// Another TTRT: a set planned at every TTRT of a range, all else as it is. No host calls this, so it may divide.
#![tactic(auto)]

ghost use Rattle.std.specs.Prelude.{◌≡◌, cond, ◌+◌, ◌*◌, ◌^◌, ◌≤◌, ◌<◌};
ghost use Rattle.units.specs.Refusals.{answer_number};
ghost use Rattle.units.specs.Grid.{stepped};
ghost use Rattle.units.specs.Small.{UpTo};
ghost use Rattle.plans.specs.Planned.{smallest_for};
ghost use Rattle.tuning.specs.Bounds.{Ready, sum_at, tried_with, tried_over};
ghost use Rattle.tuning.specs.Tunings.{no_tuning, judged_at_all, counted, tuned_over};

use sets::{Head, Set};
use units::numbers;
use units::refusals::Refusal;

// What a range of TTRT has: at how many there is a plan, the smallest and the largest of them, the nearest below and above the set's own, and the one with the largest part A* / TTRT, with its A*. 0 where there is none.
#[derive(Clone, Copy)]
pub struct Tuning {
    pub count: u32,
    pub smallest: u32,
    pub largest: u32,
    pub below: u32,
    pub above: u32,
    pub best: u32,
    pub spare: u32,
}

// What of a set is the same at every TTRT: its own TTRT, the grid, N, τ, and what no station may plan with.
#[derive(Clone, Copy)]
pub(crate) struct Terms {
    pub(crate) own: u32,
    pub(crate) grid: u32,
    pub(crate) n: u32,
    pub(crate) tau: u64,
    pub(crate) lost: u64,
}

// No TTRT was tried.
pub fn no_tuning() -> Tuning
    ensures { result ≡ no_tuning }
{
    Tuning {
        count: 0,
        smallest: 0,
        largest: 0,
        below: 0,
        above: 0,
        best: 0,
        spare: 0,
    }
}

// ---- one station

// The smallest multiple of the grid of which so many shares are enough.
fn stepped(grid: u32, shares: u64, need: u64) -> u64
    requires { (shares ≤ 2 ^ 32) × (need ≤ 2 ^ 33) × (grid ≤ 1_000) }
    ensures { UpTo (need + grid) (stepped grid shares need) result }
{
    let step = u64::from(grid);
    let divisor = shares * step;
    if divisor == 0 {
        return 0;
    }
    need.div_ceil(divisor) * step
}

// The smallest multiple of the grid that meets the deadline rule, by division.
fn smallest(grid: u32, ttrt: u32, c: u32, d: u32) -> u64
    requires { (0 < ttrt) × (grid ≤ 1_000) }
    ensures { UpTo (2 ^ 34) (smallest_for grid ttrt c d) result }
{
    let whole = u64::from(d / ttrt);
    let alpha = u64::from(ttrt - d % ttrt);
    let longest = u64::from(c);
    if longest <= whole * alpha {
        stepped(grid, whole, longest)
    } else {
        stepped(grid, whole + 1, longest + alpha)
    }
}

// ---- one TTRT

// The sum of the smallest S.
fn sum_at(grid: u32, ttrt: u32, n: u32, c: &[u32; 128], d: &[u32; 128]) -> u64
    requires { (0 < ttrt) × (grid ≤ 1_000) × (n ≤ 128) }
    ensures { UpTo (2 ^ 41) (sum_at grid n c.now d.now ttrt) result }
{
    let mut sum: u64 = 0;
    for i in 0..units::places(n) {
        sum += smallest(grid, ttrt, c[i], d[i]);
    }
    sum
}

// The first number where the test holds, else the second.
fn chosen(test: bool, first: u32, second: u32) -> u32
    ensures { result ≡ cond test first second }
{
    if test { first } else { second }
}

// One more TTRT that has a plan, with its A*, above all that were tried.
fn counted(own: u32, x: u32, spare: u32, k: Tuning) -> Tuning
    ensures { result ≡ counted own x spare k }
{
    let before = u64::from(k.spare) * u64::from(x);
    let now = u64::from(spare) * u64::from(k.best);
    let better = (k.best == 0) | (before < now);
    Tuning {
        count: k.count.saturating_add(1).min(numbers::MOST_TTRT),
        smallest: chosen(k.smallest == 0, x, k.smallest),
        largest: x,
        below: chosen(x < own, x, k.below),
        above: chosen((own < x) & (k.above == 0), x, k.above),
        best: chosen(better, x, k.best),
        spare: chosen(better, spare, k.spare),
    }
}

// One more TTRT tried.
fn tried(h: Terms, c: &[u32; 128], d: &[u32; 128], x: u64, k: Tuning) -> Tuning
    requires { Ready h }
    ensures { result ≡ tried_with h c.now d.now x k }
{
    let ranged = (1 <= x) & (x <= 1_000_000);
    if !ranged {
        return k;
    }
    let walked = (1 <= h.tau) & (h.tau <= x);
    if !walked {
        return k;
    }
    let ttrt = x as u32;
    let needed = sum_at(h.grid, ttrt, h.n, c, d) + h.lost;
    if x < needed {
        return k;
    }
    counted(h.own, ttrt, (x - needed) as u32, k)
}

// ---- a range

// Some TTRT tried, one after another.
fn tried_over(h: Terms, c: &[u32; 128], d: &[u32; 128], from: u32, n: u32, k: Tuning) -> Tuning
    requires { Ready h }
    ensures { result ≡ tried_over h c.now d.now from n k }
{
    let mut seen = k;
    for i in 0..n {
        let x = u64::from(from) + u64::from(i);
        seen = tried(h, c, d, x, seen);
    }
    seen
}

// What planning refuses whatever TTRT is: the first of 2, 4 and 16 that applies.
pub fn judge(t: Set) -> Result<(), Refusal>
    ensures { answer_number result ≡ judged_at_all t }
{
    let head = Head {
        ttrt: numbers::MOST_TTRT,
        ..t.head
    };
    sets::judge_numbers(head, t.n, &t.w, &t.c, &t.d, &t.p)?;
    let retired = t.head.mode == numbers::FDDI;
    if retired {
        return Err(Refusal::Retired);
    }
    Ok(())
}

// The set planned at n TTRT, one after another from this one on, all else as it is.
pub fn tune_over(t: Set, from: u32, n: u32, k: Tuning) -> Tuning
    ensures { result ≡ tuned_over t from n k }
{
    if judge(t).is_err() {
        return k;
    }
    let tau = sets::walk_time(t);
    let h = Terms {
        own: t.head.ttrt,
        grid: t.head.grid,
        n: t.n,
        tau,
        lost: reasons::lost_time(t),
    };
    tried_over(h, &t.c, &t.d, from, n, k)
}
