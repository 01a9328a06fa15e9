// A ring's calls on a lent ring: it is changed where it stands, and at a refusal it is not.
ghost use Rattle.rings.specs.Lent.{VisitedOn, HandedInOn, MarkedOn, UnmarkedOn};

use super::{
    Ask, MarkAnswer, Message, Ring, VisitAnswer, frames, marking, messages, soundness, steps,
    timing, view,
};
use units::{Station, numbers};

// A visit at the station that has the token, with these asynchronous frames asked for.
pub fn visit_on(ring: &mut Ring, ask: Ask) -> VisitAnswer
    ensures { VisitedOn ring.old ask ring.new result }
{
    let head = ring.set.head;
    let n = ring.set.n;
    let token = ring.token;
    let steady = soundness::sound_lent(&*ring);
    let named = frames::length_fits(ask.length, head.frame);
    let number = steps::first_refusal(steady, named, ring.clock);
    if number != numbers::ACCEPTED {
        return steps::refused(number);
    }
    let view = view::view_of(&*ring);
    let moves = steps::moves_of(view, token, ask);
    timing::move_timers(
        &mut ring.trt,
        &mut ring.late,
        head,
        n,
        token,
        moves.rise,
        moves.since,
    );
    steps::store(
        &mut ring.sent,
        &mut ring.rest,
        &mut ring.last,
        token,
        moves.sync,
        moves.start,
    );
    ring.token = steps::next_token(token, n);
    ring.clock += moves.rise;
    ring.visits += 1;
    ring.unused = moves.unused;
    let record = moves.told;
    VisitAnswer { record, number }
}

// Handing in a message.
pub fn hand_in_on(ring: &mut Ring, message: Message) -> u8
    ensures { HandedInOn ring.old message ring.new result }
{
    let steady = soundness::sound_lent(&*ring);
    if !steady {
        return numbers::UNSOUND;
    }
    let number = messages::message_number(&*ring, message);
    if number != numbers::ACCEPTED {
        return number;
    }
    messages::hold(&mut ring.rest, &mut ring.arrival, &mut ring.had, message);
    number
}

// Switching a station through: its mark is set, and the message that it holds is withdrawn.
pub fn mark_on(ring: &mut Ring, station: Station) -> MarkAnswer
    ensures { MarkedOn ring.old station ring.new result }
{
    let steady = soundness::sound_lent(&*ring);
    let number = marking::mark_number(steady, ring.set.n, station);
    if number != numbers::ACCEPTED {
        return marking::none_withdrawn(number);
    }
    let answer = marking::withdrawal_of(&*ring, station);
    marking::switch_through(&mut *ring, station);
    answer
}

// Switching a station in again: its mark is taken off.
pub fn unmark_on(ring: &mut Ring, station: Station) -> u8
    ensures { UnmarkedOn ring.old station ring.new result }
{
    let steady = soundness::sound_lent(&*ring);
    let number = marking::mark_number(steady, ring.set.n, station);
    if number != numbers::ACCEPTED {
        return number;
    }
    marking::switch_in(&mut ring.mark, station);
    number
}
