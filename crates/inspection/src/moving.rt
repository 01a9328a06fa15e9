// What becomes of an inspection with a record that keeps every rule: a visit moves it on, a mark changes a mark.
ghost use Rattle.std.specs.Prelude.{◌≡◌, ◌<◌};
ghost use Rattle.rings.specs.State.{following};
ghost use Rattle.inspection.specs.Records.{LeadIn, base_with, unused_with, span_with, course_with, mark_of};

use super::{Course, counter};
use log_records::VisitEntry;
use sets::Head;
use units::numbers;

// Of the asynchronous amount, what comes before the synchronous part: all of it in the 2002 edition, else nothing.
pub(crate) fn lead_of(head: Head, asynchronous: u32) -> u32
    ensures { LeadIn head asynchronous result }
{
    if head.mode == numbers::EARLIER {
        return asynchronous;
    }
    0
}

// Where the clock stands when the token station's timer is at 0, now that the token has come: when its synchronous part starts, but an FDDI timer that has run for TTRT or longer loses just that.
pub(crate) fn base_after(head: Head, clock: u32, base: u32, lead: u32) -> u32
    ensures { result ≡ base_with head clock base lead }
{
    if head.mode == numbers::FDDI {
        if head.ttrt <= counter::between(base, clock) {
            return counter::later(base, head.ttrt);
        }
        return clock;
    }
    counter::later(clock, lead)
}

// u falls by S − s of before and rises by S − s of now.
fn unused_after(unused: u32, share: u32, before: u32, now: u32) -> u32
    ensures { result ≡ unused_with unused share before now }
{
    let fallen = unused.saturating_sub(share.saturating_sub(before));
    counter::later(fallen, share.saturating_sub(now))
}

// The ticks that a visit takes: synchronous, asynchronous, and the walk to the next station.
fn span_of(synchronous: u32, asynchronous: u32, walk: u32) -> u32
    ensures { result ≡ span_with synchronous asynchronous walk }
{
    let sent = counter::later(synchronous, asynchronous);
    counter::later(sent, walk)
}

// The station after this one, after the last one station 0.
fn next_station(n: u32, station: u32) -> u32
    requires { station < 128 }
    ensures { result ≡ following n station }
{
    let next = station + 1;
    if next < n { next } else { 0 }
}

// The ring as a whole behind a visit that keeps every rule, with S, s of before and w of its station.
pub(crate) fn course_after(
    course: Course,
    n: u32,
    share: u32,
    before: u32,
    walk: u32,
    visit: VisitEntry,
) -> Course
    ensures { result ≡ course_with course n share before walk visit }
{
    let span = span_of(visit.synchronous, visit.asynchronous, walk);
    Course {
        token: next_station(n, course.token % 128),
        clock: counter::later(course.clock, span),
        unused: unused_after(course.unused, share, before, visit.synchronous),
        first: false,
        start: visit.start,
        span,
    }
}

// The mark that is kept of a mark's record: 0 is no, anything else yes.
#[tactic(auto, unfolding(crate::specs::Records::mark_of))]
pub(crate) fn mark_of(mark: u32) -> u8
    ensures { result ≡ mark_of mark }
{
    u8::from(mark != 0)
}
