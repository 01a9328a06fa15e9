// Stations switched through and in again: the number of both calls, what a marking takes back, and the arrays then.
ghost use Rattle.std.specs.Prelude.{◌≡◌, ◌<◌, ltb, set};
ghost use Rattle.units.specs.Judging.{or_else};
ghost use Rattle.rings.specs.Marking.{none_withdrawn, withdrawal, marked_ring};

use super::{MarkAnswer, Ring};
use units::{Station, Ticks, numbers};

// 8 for an unsound ring, then 9 for a station number that is not below N.
pub(crate) fn mark_number(sound: bool, n: u32, station: Station) -> u8
    ensures { result ≡ or_else sound 8 (or_else (ltb station.0 n) 9 0) }
{
    if !sound {
        return numbers::UNSOUND;
    }
    if u64::from(n) <= station.0 {
        return numbers::NO_SUCH_STATION;
    }
    numbers::ACCEPTED
}

// Nothing was withdrawn.
pub(crate) fn none_withdrawn(number: u8) -> MarkAnswer
    ensures { result ≡ none_withdrawn number }
{
    MarkAnswer {
        rest: Ticks(0),
        arrival: Ticks(0),
        withdrawn: 0,
        number,
    }
}

// What a marking takes back of a message, where the station is not marked yet.
pub(crate) fn withdrawal_of(ring: &Ring, station: Station) -> MarkAnswer
    requires { station.0 < 128 }
    ensures { result ≡ withdrawal ring.now station.0 }
{
    let i = station.0 as usize;
    let held = (ring.mark[i] == 0) & (0 < ring.rest[i]);
    if held {
        return MarkAnswer {
            rest: Ticks(u64::from(ring.rest[i])),
            arrival: Ticks(ring.arrival[i]),
            withdrawn: 1,
            number: numbers::ACCEPTED,
        };
    }
    none_withdrawn(numbers::ACCEPTED)
}

// This station is switched through; one that is marked already stays as it is.
pub(crate) fn switch_through(ring: &mut Ring, station: Station)
    requires { station.0 < 128 }
    ensures { ring.new ≡ marked_ring ring.old station.0 }
{
    let i = station.0 as usize;
    if 0 < ring.mark[i] {
        return;
    }
    ring.rest[i] = 0;
    ring.mark[i] = 1;
}

// This station is not marked.
pub(crate) fn switch_in(mark: &mut [u8; 128], station: Station)
    requires { station.0 < 128 }
    ensures { mark.new ≡ set mark.old station.0 0 }
{
    let i = station.0 as usize;
    mark[i] = 0;
}
