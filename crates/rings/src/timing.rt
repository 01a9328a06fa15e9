// The timers: the limit that they give, what becomes of them at a visit, and when they are sound. A function for each piece and mode, and one above them that asks for the mode.
ghost use Rattle.std.specs.Prelude.{◌≡◌, ◌-◌, ◌≤◌, ◌<◌, min, ◌&&◌, leb, ltb, eqb, set};
ghost use Rattle.units.specs.Places.{at, sum_below, all_below};
ghost use Rattle.units.specs.Small.{UpTo};
ghost use Rattle.fddi_timer_rules.specs.Timers.{visited};
ghost use Rattle.arrays.specs.Held.{raised_held};
ghost use Rattle.arrays.specs.Laps.{ran_on, laps_counted};
ghost use Rattle.rings.specs.Timers.{Fddi, lead, timely_limit, fddi_limit, timers_offer, unused_after, rise};
ghost use Rattle.rings.specs.Timers.{most_late, timers_sound};
ghost use Rattle.rings.specs.Views.{point_of, Movable, came_in, TimersMoved};
ghost use Rattle.rings.specs.Bounds.{Safe, SafeTimely, SafeTimers, Sendable, Limit};

use super::Ring;
use super::view::View;
use sets::Head;
use units::numbers;

// The highest late count of a sound ring.
const MOST_LATE: u32 = 3;

// ---- the limit

// Timely-token, step 1: the larger of TTRT − (F − 1) − u − TRT and 0.
fn timely_limit(v: View) -> u64
    ensures { UpTo v.head.ttrt (timely_limit (point_of v)) result }
{
    let overrun = u64::from(v.head.frame).saturating_sub(1);
    let whole = u64::from(v.head.ttrt).saturating_sub(overrun);
    let left = whole.saturating_sub(v.unused);
    left.saturating_sub(u64::from(v.trt))
}

// FDDI: nothing where the late count is above 0, else TTRT less the timer.
fn fddi_limit(v: View) -> u64
    ensures { UpTo v.head.ttrt (fddi_limit (point_of v)) result }
{
    if 0 < v.late {
        return 0;
    }
    u64::from(v.head.ttrt.saturating_sub(v.trt))
}

// What the timers offer, by the mode.
fn timers_offer(v: View) -> u64
    ensures { UpTo v.head.ttrt (timers_offer (point_of v)) result }
{
    if v.head.mode == numbers::FDDI {
        return fddi_limit(v);
    }
    timely_limit(v)
}

// The limit: what the timers offer, and 0 for a station that is marked.
pub(crate) fn limit_of(v: View) -> u64
    ensures { Limit (point_of v) result }
{
    if 0 < v.mark {
        return 0;
    }
    timers_offer(v)
}

// ---- at a visit

// Steps 2 and 3: u after the visit.
fn unused_after(v: View, sync: u64) -> u64
    requires { Safe (point_of v) × SafeTimely (point_of v) × (sync ≤ v.share) }
    ensures { result ≡ unused_after (point_of v) sync }
{
    let share = u64::from(v.share);
    let fallen = v.unused - (share - u64::from(v.sent));
    fallen + (share - sync)
}

// The same; an FDDI ring neither looks at it nor changes it.
pub(crate) fn unused_next(v: View, sync: u64) -> u64
    requires { Safe (point_of v) × SafeTimers (point_of v) × (sync ≤ v.share) }
    ensures { (Fddi (point_of v).set → result ≡ v.unused) × (¬ Fddi (point_of v).set → result ≡ unused_after (point_of v) sync) }
{
    if v.head.mode == numbers::FDDI {
        return v.unused;
    }
    unused_after(v, sync)
}

// What the clock and every timer rise by.
pub(crate) fn rise_of(v: View, sync: u64, asynchronous: u64) -> u64
    requires { Safe (point_of v) × Sendable (point_of v) sync asynchronous }
    ensures { result ≡ rise (point_of v) sync asynchronous }
{
    let walk = u64::from(v.walk);
    sync + asynchronous + walk
}

// Of the asynchronous time, what comes before the synchronous part: all of it in the 2002 edition, else nothing.
pub(crate) fn lead_of(v: View, asynchronous: u64) -> u64
    ensures { UpTo asynchronous (lead (point_of v).set asynchronous) result }
{
    if v.head.mode == numbers::EARLIER {
        return asynchronous;
    }
    0
}

// Timely-token: every TRT rises; this station's is what passed since its synchronous part began.
fn move_timely(trt: &mut [u32; 128], n: u32, token: u32, rise: u64, since: u64)
    requires { Movable n token rise since }
    ensures { trt.new ≡ set (raised_held n rise trt.old) token since }
{
    let i = token as usize;
    let by = rise as u32;
    let own = since as u32;
    arrays::raise(&mut *trt, n, by);
    trt[i] = own;
}

// FDDI: a token comes to a timer; with the late count above 0 it runs on, else it goes to 0.
fn timer_on_token(count: u32, timer: u32) -> u32
    ensures { result ≡ (visited (record { count = count; timer = timer })).timer }
{
    if count == 0 { 0 } else { timer }
}

// FDDI: a token comes to a late count; above 0 it falls by 1.
fn count_on_token(count: u32, timer: u32) -> u32
    ensures { result ≡ (visited (record { count = count; timer = timer })).count }
{
    count.saturating_sub(1)
}

// FDDI: the token has come to its station.
fn token_came<'a>(trt: &'a mut [u32; 128], late: &'a mut [u32; 128], token: u32)
    requires { token < 128 }
    ensures { (trt.new ≡ (came_in trt.old late.old token).trt) × (late.new ≡ (came_in trt.old late.old token).late) }
{
    let i = token as usize;
    let timer = trt[i];
    let count = late[i];
    trt[i] = timer_on_token(count, timer);
    late[i] = count_on_token(count, timer);
}

// FDDI: the token has come, and time passes.
fn move_fddi<'a>(
    trt: &'a mut [u32; 128],
    late: &'a mut [u32; 128],
    n: u32,
    token: u32,
    rise: u64,
    top: u32,
)
    requires { Movable n token rise 0 }
    ensures { (trt.new ≡ ran_on n rise top (came_in trt.old late.old token).trt) × (late.new ≡ laps_counted n rise top (came_in trt.old late.old token).trt (came_in trt.old late.old token).late) }
{
    let by = rise as u32;
    token_came(&mut *trt, &mut *late, token);
    arrays::count(&mut *late, &*trt, n, by, top);
    arrays::run(&mut *trt, n, by, top);
}

// The timers after a visit, by the mode.
pub(crate) fn move_timers<'a>(
    trt: &'a mut [u32; 128],
    late: &'a mut [u32; 128],
    head: Head,
    n: u32,
    token: u32,
    rise: u64,
    since: u64,
)
    requires { Movable n token rise since }
    ensures { TimersMoved head n token rise since trt.old late.old trt.new late.new }
{
    if head.mode == numbers::FDDI {
        move_fddi(&mut *trt, &mut *late, n, token, rise, head.ttrt);
        return;
    }
    move_timely(&mut *trt, n, token, rise, since);
}

// ---- sound

// Timely-token: no TRT exceeds TTRT, and u is the sum of S − s.
fn timely_sound(ring: &Ring) -> bool
    ensures { result ≡ (all_below (min ring.now.set.n 128) (λ i. leb (at ring.now.trt i) ring.now.set.head.ttrt) && eqb ring.now.unused (sum_below (min ring.now.set.n 128) (λ i. at ring.now.alloc.s i - at ring.now.sent i))) }
{
    let n = ring.set.n;
    let trts = arrays::none_above(&ring.trt, ring.set.head.ttrt, n);
    let sum = arrays::room_first(&ring.alloc.s, &ring.sent, n);
    trts & (ring.unused == sum)
}

// FDDI: the timers are below TTRT, and the late counts at most 3.
fn fddi_sound(ring: &Ring) -> bool
    ensures { result ≡ (all_below (min ring.now.set.n 128) (λ i. ltb (at ring.now.trt i) ring.now.set.head.ttrt) && all_below (min ring.now.set.n 128) (λ i. leb (at ring.now.late i) most_late)) }
{
    let n = ring.set.n;
    let below = arrays::none_reaching(&ring.trt, ring.set.head.ttrt, n);
    let few = arrays::none_above(&ring.late, MOST_LATE, n);
    below & few
}

// The timers are sound.
pub(crate) fn timers_sound(ring: &Ring) -> bool
    requires { ring.now.set.n ≤ 128 }
    ensures { result ≡ timers_sound ring.now }
{
    if ring.set.head.mode == numbers::FDDI {
        return fddi_sound(ring);
    }
    timely_sound(ring)
}
