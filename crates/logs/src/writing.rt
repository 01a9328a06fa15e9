// Writing: what a visit's record gives for a log.
ghost use Rattle.std.specs.Prelude.{◌≡◌};
ghost use Rattle.logs.specs.Writing.{low, counter_at, visit_by};

use crate::Recorder;
use log_records::VisitEntry;
use rings::VisitRecord;

// The low 32 bits of a number.
fn low_bits(x: u64) -> u32
    ensures { result ≡ low x }
{
    let bits = x % 4_294_967_296;
    bits as u32
}

// The recorder's counter at a clock: it moves on by what the clock rose, and runs past its top to 0.
fn counter_at(recorder: Recorder, clock: u64) -> u32
    ensures { result ≡ counter_at recorder.counter recorder.clock clock }
{
    let rise = std::num::wrapping_sub_u32(low_bits(clock), low_bits(recorder.clock));
    std::num::wrapping_add_u32(recorder.counter, rise)
}

// The visit that a log has for a visit's record.
pub(crate) fn visit_of(recorder: Recorder, visit: VisitRecord) -> VisitEntry
    ensures { result ≡ visit_by recorder visit }
{
    let short = visit.station.0 % 256;
    let station = short as u32;
    VisitEntry {
        station,
        start: counter_at(recorder, visit.start.0),
        limit: low_bits(visit.limit.0),
        synchronous: low_bits(visit.synchronous.0),
        asynchronous: low_bits(visit.asynchronous.0),
    }
}

// The same recorder with a number.
pub(crate) fn stopped(recorder: Recorder, number: u8) -> Recorder
    ensures { result ≡ record { at = recorder.at; clock = recorder.clock; counter = recorder.counter; number = number } }
{
    Recorder {
        number: u32::from(number),
        ..recorder
    }
}
