// The test of soundness (8), of a lent ring.
ghost use Rattle.std.specs.Prelude.{◌≡◌, ◌&&◌, min, leb, ltb};
ghost use Rattle.units.specs.Numbers.{most_clock};
ghost use Rattle.units.specs.Places.{at, all_below};
ghost use Rattle.rings.specs.Sound.{is_sound, most_ring_clock, visits_end};

use super::{Ring, timing};
use units::numbers;

// The highest clock of a sound ring.
const MOST_RING_CLOCK: u64 = 1_000_002_000_000;

// The number of visits that no sound ring has reached: 2^62.
const VISITS_END: u64 = 4_611_686_018_427_387_904;

// The clock is not above its top, and the visit count has not reached its end.
fn counts_sound(clock: u64, visits: u64) -> bool
    ensures { result ≡ (leb clock most_ring_clock && ltb visits visits_end) }
{
    (clock <= MOST_RING_CLOCK) & (visits < VISITS_END)
}

// No held remainder is above C, and no stored arrival is out of range.
fn messages_sound<'a>(
    n: u32,
    c: &'a [u32; 128],
    rest: &'a [u32; 128],
    arrival: &'a [u64; 128],
) -> bool
    ensures { result ≡ (all_below (min n 128) (λ i. leb (at rest.now i) (at c.now i)) && all_below (min n 128) (λ i. leb (at arrival.now i) most_clock)) }
{
    let within = arrays::each_within(rest, c, n);
    let in_range = arrays::none_later(arrival, numbers::MOST_CLOCK, n);
    within & in_range
}

// The ring's state is sound: none of the lines of 8 holds. Arrivals are looked at, but whether there ever was one, the marks and the last starts are not.
pub(crate) fn sound_lent(ring: &Ring) -> bool
    ensures { result ≡ is_sound ring.now }
{
    let head = ring.set.head;
    let n = ring.set.n;
    let judged = plans::judge_plan_lent(
        head,
        n,
        &ring.set.w,
        &ring.set.c,
        &ring.set.d,
        &ring.set.p,
        &ring.alloc.s,
    );
    if judged.is_err() {
        return false;
    }
    let timers = timing::timers_sound(ring);
    let shares = arrays::each_within(&ring.sent, &ring.alloc.s, n);
    let messages = messages_sound(n, &ring.set.c, &ring.rest, &ring.arrival);
    let counts = counts_sound(ring.clock, ring.visits);
    (ring.token < n) & timers & shares & messages & counts
}
