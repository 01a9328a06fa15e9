// The five rules: station, start, limit, synchronous, asynchronous. A mark has the first alone.
ghost use Rattle.std.specs.Prelude.{◌≡◌};
ghost use Rattle.log_records.specs.declared.Entry.TheVariants.{Visit};
ghost use Rattle.inspection.specs.Rules.{place_of, limit_with, unless_marked, due_with, asynchronous_kept, MarkRule, broken_rule};

use super::{Course, Expected, counter, frames};
use log_records::{Entry, MarkEntry, VisitEntry};
use sets::Head;
use units::numbers;

// The place of the token's station in the arrays: a station below 128 is its own place.
pub(crate) fn place(token: u32) -> usize
    ensures { result ≡ place_of token }
{
    (token % 128) as usize
}

// The limit, for a timer that has run so long: FDDI what it leaves of TTRT, timely-token what F − 1, u and it leave.
fn limit_at(head: Head, unused: u32, run: u32) -> u32
    ensures { result ≡ limit_with head unused run }
{
    if head.mode == numbers::FDDI {
        return head.ttrt.saturating_sub(run);
    }
    let whole = head.ttrt.saturating_sub(head.frame.saturating_sub(1));
    whole.saturating_sub(unused).saturating_sub(run)
}

// A marked station is offered 0 and sends nothing: of what would else be allowed, 0.
fn unless_marked(mark: u8, allowed: u32) -> u32
    ensures { result ≡ unless_marked mark allowed }
{
    if 0 < mark { 0 } else { allowed }
}

// What the next record must say: with the mark, the moment and S of the token's station.
pub(crate) fn due(course: Course, head: Head, n: u32, mark: u8, base: u32, share: u32) -> Expected
    ensures { result ≡ due_with course head n mark base share }
{
    let run = counter::between(base, course.clock);
    let offered = limit_at(head, course.unused, run);
    Expected {
        station: course.token % 128,
        first: course.first,
        last: course.start,
        span: course.span,
        limit: unless_marked(mark, offered),
        share: unless_marked(mark, share),
        longest: head.frame,
        count: n,
    }
}

// The first rule that a visit breaks, 0 if none; whether frames give its asynchronous amount is told.
pub(crate) fn visit_rule(due: Expected, visit: VisitEntry, fits: bool) -> u8
    requires { fits ≡ asynchronous_kept due visit }
    ensures { result ≡ broken_rule due (Visit visit) }
{
    if visit.station != due.station {
        return 1;
    }
    let started = due.first | (counter::between(due.last, visit.start) == due.span);
    if !started {
        return 2;
    }
    if visit.limit != due.limit {
        return 3;
    }
    if due.share < visit.synchronous {
        return 4;
    }
    if fits { 0 } else { 5 }
}

// The one rule of a mark, with N: 1 if it is broken, else 0.
pub(crate) fn mark_rule(count: u32, mark: MarkEntry) -> u8
    ensures { MarkRule count mark result }
{
    let kept = (mark.station < count) & (mark.mark < 2);
    if kept { 0 } else { 1 }
}

// The first rule that the record breaks, 0 if none.
pub(crate) fn broken_rule(due: Expected, entry: Entry) -> u8
    ensures { result ≡ broken_rule due entry }
{
    match entry {
        Entry::Visit(visit) => {
            let fits = frames::frames_fit(due.limit, due.longest, visit.asynchronous);
            visit_rule(due, visit, fits)
        }
        Entry::Mark(mark) => mark_rule(due.count, mark),
    }
}
