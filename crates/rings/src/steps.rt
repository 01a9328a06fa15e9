// The steps of a visit: its numbers, the moved ring, and the record.
ghost use Rattle.std.specs.Prelude.{◌≡◌, ◌+◌, ◌-◌, ◌≤◌, ◌<◌, ◌^◌, set};
ghost use Rattle.std.proofs.Math.IntN.{sub_ℕ};
ghost use Rattle.units.specs.Places.{at};
ghost use Rattle.units.specs.Small.{UpTo};
ghost use Rattle.rings.specs.State.{following};
ghost use Rattle.rings.specs.Steps.{LengthNamed, sync_start, most_sent, completes, deadline, blank_record, first_refusal};
ghost use Rattle.rings.specs.Bounds.{Safe, SafeTimers, Sendable, Sent};
ghost use Rattle.rings.specs.Views.{point_of, record_at, MovesOf};

use super::view::View;
use super::{Ask, VisitAnswer, VisitRecord, frames, timing};
use units::{Station, Ticks, numbers};

// What a visit does to the ring's numbers: what is sent of the held message, what the clock and every timer rise by, and this station's from the start of its synchronous part on; that start, u, and the record.
#[derive(Clone, Copy)]
pub(crate) struct Moves {
    pub(crate) sync: u64,
    pub(crate) rise: u64,
    pub(crate) since: u64,
    pub(crate) start: u64,
    pub(crate) unused: u64,
    pub(crate) told: VisitRecord,
}

// The number of a visit, by its three tests in their order.
pub(crate) fn first_refusal(sound: bool, named: bool, clock: u64) -> u8
    ensures { result ≡ first_refusal sound named clock }
{
    if !sound {
        return numbers::UNSOUND;
    }
    if !named {
        return numbers::BAD_LENGTH;
    }
    if numbers::MOST_CLOCK < clock {
        return numbers::CLOCK_TOO_HIGH;
    }
    numbers::ACCEPTED
}

// When the synchronous part starts: at the visit's start, in the 2002 edition after the asynchronous part.
fn sync_start(v: View, asynchronous: u64) -> u64
    requires { v.clock + asynchronous < 2 ^ 64 }
    ensures { result ≡ sync_start (point_of v) asynchronous }
{
    let lead = timing::lead_of(v, asynchronous);
    v.clock + lead
}

// The most that the station may send of it: S, and 0 where it is marked.
fn most_sent(v: View) -> u64
    ensures { UpTo v.share (most_sent (point_of v)) result }
{
    if 0 < v.mark {
        return 0;
    }
    u64::from(v.share)
}

// Step 3: what is sent of the held message.
fn sync_sent(v: View, asynchronous: u64) -> u64
    requires { v.clock + asynchronous < 2 ^ 64 }
    ensures { Sent (point_of v) asynchronous result }
{
    let start = sync_start(v, asynchronous);
    let held = 0 < v.rest;
    let arrived = v.arrival <= start;
    if held & arrived {
        return most_sent(v).min(u64::from(v.rest));
    }
    0
}

// Step 5: the station that the token moves on to.
pub(crate) fn next_token(token: u32, n: u32) -> u32
    requires { token < n }
    ensures { result ≡ following n token }
{
    let next = token + 1;
    if next < n { next } else { 0 }
}

// The deadline less the finish, negative when late.
fn margin_of(deadline: Ticks, finish: Ticks) -> i64
    requires { (deadline.0 < 2 ^ 62) × (finish.0 < 2 ^ 62) }
    ensures { result ≡ sub_ℕ deadline.0 finish.0 }
{
    let due = deadline.0 as i64;
    let done = finish.0 as i64;
    due - done
}

// A message is held, and this amount is all that remains of it.
fn completes_with(v: View, sync: u64) -> bool
    ensures { result ≡ completes (point_of v) sync }
{
    let rest = u64::from(v.rest);
    let held = 0 < rest;
    let left = rest.saturating_sub(sync);
    held & (left == 0)
}

// The deadline of the held message.
fn deadline_of(v: View) -> u64
    requires { Safe (point_of v) }
    ensures { result ≡ deadline (point_of v) }
{
    v.arrival + u64::from(v.deadline)
}

// The record of a visit at this station that sent these two amounts.
fn record_of(v: View, token: u32, sync: u64, asynchronous: u64) -> VisitRecord
    requires { Safe (point_of v) × Sendable (point_of v) sync asynchronous }
    ensures { result ≡ record_at v token sync asynchronous }
{
    let station = u64::from(token);
    let trt = u64::from(v.trt);
    let limit = timing::limit_of(v);
    let mut finish: u64 = 0;
    let mut margin: i64 = 0;
    let mut completed: u8 = 0;
    if completes_with(v, sync) {
        let start = sync_start(v, asynchronous);
        finish = start + sync;
        margin = margin_of(Ticks(deadline_of(v)), Ticks(finish));
        completed = 1;
    }
    VisitRecord {
        station: Station(station),
        start: Ticks(v.clock),
        trt: Ticks(trt),
        limit: Ticks(limit),
        synchronous: Ticks(sync),
        asynchronous: Ticks(asynchronous),
        finish: Ticks(finish),
        margin,
        completed,
    }
}

// What a visit at this station does to the ring's numbers.
pub(crate) fn moves_of(v: View, token: u32, ask: Ask) -> Moves
    requires { Safe (point_of v) × SafeTimers (point_of v) × LengthNamed (point_of v) ask }
    ensures { MovesOf v token ask result }
{
    let limit = timing::limit_of(v);
    let asynchronous = frames::time_sent(limit, ask);
    let sync = sync_sent(v, asynchronous);
    let told = record_of(v, token, sync, asynchronous);
    let rise = timing::rise_of(v, sync, asynchronous);
    let lead = timing::lead_of(v, asynchronous);
    let start = sync_start(v, asynchronous);
    let unused = timing::unused_next(v, sync);
    Moves {
        sync,
        rise,
        since: rise - lead,
        start,
        unused,
        told,
    }
}

// What was sent is stored, comes off the remainder, and began at this time.
pub(crate) fn store<'a>(
    sent: &'a mut [u32; 128],
    rest: &'a mut [u32; 128],
    last: &'a mut [u64; 128],
    token: u32,
    sync: u64,
    start: u64,
)
    requires { (token < 128) × ((sync < 2 ^ 32) × (sync ≤ at rest.old token)) }
    ensures { (sent.new ≡ set sent.old token sync) × ((rest.new ≡ set rest.old token (at rest.old token - sync)) × (last.new ≡ set last.old token start)) }
{
    let i = token as usize;
    let amount = sync as u32;
    sent[i] = amount;
    rest[i] -= amount;
    last[i] = start;
}

// The blank record: every number 0, and none was completed.
pub(crate) fn blank_record() -> VisitRecord
    ensures { result ≡ blank_record }
{
    VisitRecord {
        station: Station(0),
        start: Ticks(0),
        trt: Ticks(0),
        limit: Ticks(0),
        synchronous: Ticks(0),
        asynchronous: Ticks(0),
        finish: Ticks(0),
        margin: 0,
        completed: 0,
    }
}

// A refused visit's answer: the number, and the blank record.
pub(crate) fn refused(number: u8) -> VisitAnswer
    ensures { result ≡ record { «record» = blank_record; number = number } }
{
    let record = blank_record();
    VisitAnswer { record, number }
}
