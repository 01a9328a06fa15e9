// The phrases behind the stations': the sum of S and what there is for it, why the grid is the cause, what can be done with an FDDI sheet, and what the mode promises.
ghost use Rattle.std.specs.Prelude.{◌≡◌};
ghost use Rattle.command_explain.specs.Sheet.{back_within, account_of, sums_with};
ghost use Rattle.command_explain.specs.Ends.{sum_phrase, against_phrase, retired_phrase, burst_promise, offered_promise, promise_phrase, behind_sum, account_phrase, last_phrase};

use crate::{Explained, Form, Sums};
use faults::Token;
use plans::Alloc;
use sets::Set;
use text::phrases::Phrase;
use units::numbers;

// ---- the numbers

// Within how many ticks the token is back, where S make such a sum.
#[tactic(auto, unfolding(crate::specs::Sheet::back_within))]
fn back_within(t: Set, a: Alloc) -> u64
    ensures { result ≡ back_within t a }
{
    let ttrt = u64::from(t.head.ttrt);
    if t.head.mode == numbers::FDDI {
        let more = u64::from(t.head.frame).saturating_sub(1);
        return ttrt + units::sum_first(a.s, t.n) + more;
    }
    ttrt
}

// The sum of S, what there is for it, and what is missing: of a plan sheet with its S, of a request sheet with the smallest.
#[tactic(auto, unfolding(crate::specs::Sheet::account_of))]
pub(crate) fn account_of(plan: bool, t: Set, a: Alloc) -> Token
    ensures { result ≡ account_of plan t a }
{
    if plan {
        return faults::token_of(t, a);
    }
    let short = reasons::shortage_of(t);
    Token {
        sum: short.sum,
        available: short.available,
        over: short.missing,
    }
}

// That, with what follows of it.
pub(crate) fn sums_of(account: Token, t: Set, a: Alloc) -> Sums
    ensures { result ≡ sums_with account t a }
{
    let tau = sets::walk_time(t);
    let more = u64::from(t.head.frame).saturating_sub(1);
    let spare = plans::spare(t, a);
    Sums {
        sum: account.sum,
        tau,
        more,
        available: account.available,
        missing: account.over,
        spare,
        back: back_within(t, a),
        burst: spare + more,
    }
}

// ---- the phrases

// The sum of S, τ, F − 1 and TTRT.
fn sum(e: Explained) -> Phrase<Form>
    ensures { result ≡ sum_phrase e }
{
    let ttrt = u64::from(e.set.head.ttrt);
    Phrase::four(Form::Sum, e.sums.sum, e.sums.tau, e.sums.more, ttrt)
}

// What there is, and A* or what is missing.
#[tactic(auto, unfolding(crate::specs::Ends::against_phrase))]
fn against(e: Explained) -> Phrase<Form>
    ensures { result ≡ against_phrase e }
{
    if e.number == numbers::ACCEPTED {
        return Phrase::two(Form::Spare, e.sums.available, e.sums.spare);
    }
    Phrase::two(Form::Missing, e.sums.available, e.sums.missing)
}

// 16: what can still be done with the sheet.
fn retired(j: usize) -> Option<Phrase<Form>>
    ensures { result ≡ retired_phrase j }
{
    match j {
        0 => Some(Phrase::bare(Form::Retired)),
        1 => Some(Phrase::bare(Form::Readable)),
        2 => Some(Phrase::bare(Form::Again)),
        _ => None,
    }
}

// How much N visits send asynchronously at most, in a ring of one station each; FDDI does not promise it.
#[tactic(auto, unfolding(crate::specs::Ends::burst_promise))]
fn burst(e: Explained) -> Option<Phrase<Form>>
    ensures { result ≡ burst_promise e }
{
    if e.set.head.mode == numbers::FDDI {
        return None;
    }
    let n = u64::from(e.set.n);
    if n == 1 {
        return Some(Phrase::one(Form::OwnBurst, e.sums.burst));
    }
    Some(Phrase::two(Form::Burst, n, e.sums.burst))
}

// Whether every station is offered asynchronous time: in the 2003 edition, where A* is above 0.
#[tactic(auto, unfolding(crate::specs::Ends::offered_promise))]
fn offered(mode: u32, spare: u64) -> Option<Phrase<Form>>
    ensures { result ≡ offered_promise mode spare }
{
    if mode == numbers::EARLIER {
        return Some(Phrase::bare(Form::NotOffered));
    }
    let all = (mode == numbers::TIMELY) & (1 <= spare);
    if all {
        return Some(Phrase::bare(Form::Offered));
    }
    None
}

// Promise j of the mode; FDDI promises no deadline.
#[tactic(auto, unfolding(crate::specs::Ends::promise_phrase))]
fn promise(e: Explained, j: usize) -> Option<Phrase<Form>>
    ensures { result ≡ promise_phrase e j }
{
    match j {
        0 => Some(Phrase::one(Form::Back, e.sums.back)),
        1 => Some(Phrase::bare(Form::OnlyShare)),
        2 => Some(Phrase::either(
            e.set.head.mode == numbers::FDDI,
            Form::NoDeadline,
            Form::InTime,
        )),
        3 => burst(e),
        4 => offered(e.set.head.mode, e.sums.spare),
        _ => None,
    }
}

// Phrase j behind the sum: what is promised of an accepted sheet, and of 6 whether the grid is the cause.
#[tactic(auto, unfolding(crate::specs::Ends::behind_sum))]
fn behind_sum(e: Explained, j: usize) -> Option<Phrase<Form>>
    ensures { result ≡ behind_sum e j }
{
    if e.number == numbers::ACCEPTED {
        return promise(e, j);
    }
    let cause = (e.number == numbers::NO_ALLOCATION) & e.grid_cause;
    let said = cause & (j == 0);
    if said {
        return Some(Phrase::bare(Form::GridCause));
    }
    None
}

// Phrase j of a sheet whose S are summed up.
#[tactic(auto, unfolding(crate::specs::Ends::account_phrase))]
fn account(e: Explained, j: usize) -> Option<Phrase<Form>>
    ensures { result ≡ account_phrase e j }
{
    match j {
        0 => Some(sum(e)),
        1 => Some(against(e)),
        _ => behind_sum(e, j - 2),
    }
}

// Phrase j behind the stations'. Of a first fault, of numbers out of range and of a bad walk time there is none.
#[tactic(auto, unfolding(crate::specs::Ends::last_phrase))]
pub(crate) fn phrase(e: Explained, j: usize) -> Option<Phrase<Form>>
    ensures { result ≡ last_phrase e j }
{
    if e.number == numbers::RETIRED {
        return retired(j);
    }
    let early = (1 <= e.number) & (e.number <= numbers::BAD_WALK_TIME);
    if early {
        return None;
    }
    account(e, j)
}
