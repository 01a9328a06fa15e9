// Handing in: what each of the numbers 9 to 12 and 15 asks, and the arrays that hold the message.
ghost use Rattle.std.specs.Prelude.{◌≡◌, ◌||◌, ◌≤◌, ◌<◌, leb, ltb, set};
ghost use Rattle.units.specs.Numbers.{most_clock};
ghost use Rattle.units.specs.Places.{at};
ghost use Rattle.rings.specs.Bounds.{Holdable};
ghost use Rattle.rings.specs.HandingIn.{arrival_allowed, message_number};
ghost use Rattle.rings.specs.Lent.{ArrivalsFit};

use super::{Message, Ring};
use units::numbers;

// The arrival is later than the start of the station's last synchronous part; before its first visit any arrival is.
fn later_than_start(visits: u64, station: u64, start: u64, arrival: u64) -> bool
    ensures { result ≡ (leb visits station || ltb start arrival) }
{
    (visits <= station) | (start < arrival)
}

// The arrival time is allowed (12).
fn arrival_allowed(ring: &Ring, m: Message) -> bool
    requires { (m.station.0 < 128) × (at ring.now.arrival m.station.0 ≤ most_clock) }
    ensures { result ≡ arrival_allowed ring.now m }
{
    let i = m.station.0 as usize;
    let a = m.arrival.0;
    let in_range = a <= numbers::MOST_CLOCK;
    let later = later_than_start(ring.visits, m.station.0, ring.last[i], a);
    let next = ring.arrival[i] + u64::from(ring.set.p[i]);
    let gap = (ring.had[i] == 0) | (next <= a);
    in_range & later & gap
}

// The first of 9, 10, 11, 15 and 12 that applies to a sound ring, or 0.
pub(crate) fn message_number(ring: &Ring, m: Message) -> u8
    requires { ArrivalsFit ring.now.set.n ring.now.arrival }
    ensures { result ≡ message_number ring.now m }
{
    if u64::from(ring.set.n) <= m.station.0 {
        return numbers::NO_SUCH_STATION;
    }
    let i = m.station.0 as usize;
    let free = (ring.rest[i] == 0) & (ring.mark[i] == 0);
    let fits = (1 <= m.length.0) & (m.length.0 <= u64::from(ring.set.c[i]));
    if !fits {
        return numbers::BAD_LENGTH;
    }
    if !free {
        return numbers::STILL_HELD;
    }
    if ring.clock < m.arrival.0 {
        return numbers::NOT_ARRIVED;
    }
    if !arrival_allowed(ring, m) {
        return numbers::BAD_ARRIVAL;
    }
    numbers::ACCEPTED
}

// The message is held.
pub(crate) fn hold<'a>(
    rest: &'a mut [u32; 128],
    arrival: &'a mut [u64; 128],
    had: &'a mut [u8; 128],
    m: Message,
)
    requires { Holdable m }
    ensures { (rest.new ≡ set rest.old m.station.0 m.length.0) × ((arrival.new ≡ set arrival.old m.station.0 m.arrival.0) × (had.new ≡ set had.old m.station.0 1)) }
{
    let i = m.station.0 as usize;
    let length = m.length.0 as u32;
    rest[i] = length;
    arrival[i] = m.arrival.0;
    had[i] = 1;
}
