// The parts of the plan: the header's numbers, τ, the sum of S, A*, a row for each station, and what its mode promises.
ghost use Rattle.std.specs.Prelude.{◌≡◌, ◌<◌};
ghost use Rattle.command_page.specs.Plan.{mode_part, sum_part, plan_part, station_part, burst_part, offered_part, mode_promise, promise_part};

use crate::{Account, Form, Sums};
use plans::Alloc;
use sets::Set;
use text::phrases::Phrase;
use units::numbers;

// The mode in words.
#[tactic(auto, unfolding(crate::specs::Plan::mode_part))]
fn mode(mode: u32) -> Phrase<Form>
    ensures { result ≡ mode_part mode }
{
    if mode == numbers::FDDI {
        return Phrase::bare(Form::FddiMode);
    }
    if mode == numbers::EARLIER {
        return Phrase::bare(Form::EarlierMode);
    }
    Phrase::bare(Form::TimelyMode)
}

// What is lost and what is left: τ, the sum of S, A*.
#[tactic(auto, unfolding(crate::specs::Plan::sum_part))]
fn sum(s: Sums, k: usize) -> Phrase<Form>
    ensures { result ≡ sum_part s k }
{
    match k {
        5 => Phrase::one(Form::Tau, s.tau),
        6 => Phrase::one(Form::Sum, s.sum),
        7 => Phrase::one(Form::Spare, s.spare),
        _ => Phrase::bare(Form::StationsBegin),
    }
}

// Part k of the plan as a whole, from 0 to 8.
#[tactic(auto, unfolding(crate::specs::Plan::plan_part))]
pub(crate) fn whole(a: Account, k: usize) -> Phrase<Form>
    ensures { result ≡ plan_part a k }
{
    let head = a.set.head;
    match k {
        0 => Phrase::bare(Form::PlanBegin),
        1 => Phrase::one(Form::Ttrt, u64::from(head.ttrt)),
        2 => mode(head.mode),
        3 => Phrase::one(Form::LongestFrame, u64::from(head.frame)),
        4 => Phrase::one(Form::Grid, u64::from(head.grid)),
        _ => sum(a.sums, k),
    }
}

// A station: w, C, D, P and S.
pub(crate) fn station(t: Set, a: Alloc, i: usize) -> Phrase<Form>
    requires { i < 128 }
    ensures { result ≡ station_part t a i }
{
    let number = i as u64;
    let w = u64::from(t.w[i]);
    let c = u64::from(t.c[i]);
    let d = u64::from(t.d[i]);
    let p = u64::from(t.p[i]);
    let s = u64::from(a.s[i]);
    Phrase {
        form: Form::Station,
        numbers: [number, w, c, d, p, s],
    }
}

// ---- what the mode promises

// How much N visits send asynchronously at most, which FDDI does not promise.
#[tactic(auto, unfolding(crate::specs::Plan::burst_part))]
fn burst(mode: u32, n: u32, most: u64) -> Option<Phrase<Form>>
    ensures { result ≡ burst_part mode n most }
{
    if mode == numbers::FDDI {
        return None;
    }
    Some(Phrase::two(Form::Burst, u64::from(n), most))
}

// Whether every station is offered asynchronous time: in the 2003 edition, where A* is above 0.
#[tactic(auto, unfolding(crate::specs::Plan::offered_part))]
fn offered(mode: u32, spare: u64) -> Option<Phrase<Form>>
    ensures { result ≡ offered_part mode spare }
{
    if mode == numbers::EARLIER {
        return Some(Phrase::bare(Form::NotOffered));
    }
    let all = (mode == numbers::TIMELY) & (1 <= spare);
    if all {
        return Some(Phrase::bare(Form::Offered));
    }
    None
}

// What is promised by the mode: that every accepted message is sent in time, which FDDI does not promise, bursts, and asynchronous time.
#[tactic(auto, unfolding(crate::specs::Plan::mode_promise))]
fn by_mode(a: Account, k: usize) -> Option<Phrase<Form>>
    ensures { result ≡ mode_promise a k }
{
    let mode = a.set.head.mode;
    match k {
        3 => Some(Phrase::either(mode == numbers::FDDI, Form::NoDeadline, Form::InTime)),
        4 => burst(mode, a.set.n, a.sums.burst),
        5 => offered(mode, a.sums.spare),
        _ => Some(Phrase::bare(Form::PromisesEnd)),
    }
}

// Part k behind the stations, from 0 to 6.
#[tactic(auto, unfolding(crate::specs::Plan::promise_part))]
pub(crate) fn promise(a: Account, k: usize) -> Option<Phrase<Form>>
    ensures { result ≡ promise_part a k }
{
    match k {
        0 => Some(Phrase::bare(Form::StationsEnd)),
        1 => Some(Phrase::one(Form::Back, u64::from(a.sums.bound))),
        2 => Some(Phrase::bare(Form::OnlyShare)),
        _ => by_mode(a, k),
    }
}
