// The parts of what each station did, in all records or in those before the named one; and which rotations are drawn.
ghost use Rattle.std.specs.Prelude.{◌≡◌, ◌<◌};
ghost use Rattle.command_page.specs.Did.{did_begin, longest_part, did_part, rotations_part, last_part};

use crate::{Account, Form};
use picture_stream::Window;
use text::phrases::Phrase;

// Over which records.
#[tactic(auto, unfolding(crate::specs::Did::did_begin))]
pub(crate) fn begin(rule: u8, records: u64, named: u64) -> Phrase<Form>
    ensures { result ≡ did_begin rule records named }
{
    if rule == 0 {
        return Phrase::one(Form::DidAll, records);
    }
    Phrase::two(Form::DidBefore, records, named)
}

// The longest time between two visits beside its bound; a station with one visit or none has none.
#[tactic(auto, unfolding(crate::specs::Did::longest_part))]
fn longest(visits: u64, longest: u64, bound: u64) -> Phrase<Form>
    ensures { result ≡ longest_part visits longest bound }
{
    if visits < 2 {
        return Phrase::one(Form::DidNoTwo, bound);
    }
    Phrase::two(Form::DidLongest, longest, bound)
}

// What a station did: its visits, and those while it was switched through; the longest time; the most synchronous time in a visit beside S, and all that it sent.
#[tactic(auto, unfolding(crate::specs::Did::did_part))]
pub(crate) fn station(a: Account, i: usize, j: usize) -> Phrase<Form>
    requires { i < 128 }
    ensures { result ≡ did_part a i j }
{
    let numbers = a.numbers;
    match j {
        0 => Phrase::three(
            Form::DidVisits,
            i as u64,
            numbers[tallies::VISITS + i],
            numbers[tallies::THROUGH + i],
        ),
        1 => longest(
            numbers[tallies::VISITS + i],
            numbers[tallies::LONGEST + i],
            u64::from(a.sums.bound),
        ),
        _ => Phrase::four(
            Form::DidSent,
            numbers[tallies::MOST + i],
            u64::from(a.alloc.s[i]),
            numbers[tallies::SYNCHRONOUS + i],
            numbers[tallies::ASYNCHRONOUS + i],
        ),
    }
}

// The rotations that are drawn, from 1, of how many.
#[tactic(auto, unfolding(crate::specs::Did::rotations_part))]
fn rotations(window: Window, lines: u64) -> Phrase<Form>
    ensures { result ≡ rotations_part window lines }
{
    if lines == 0 {
        return Phrase::bare(Form::NoRotation);
    }
    let first = window.first.wrapping_add(1);
    Phrase::three(Form::Rotations, first, window.end, lines)
}

// Part k behind the stations, if there is one.
#[tactic(auto, unfolding(crate::specs::Did::last_part))]
pub(crate) fn last(a: Account, k: usize) -> Option<Phrase<Form>>
    ensures { result ≡ last_part a k }
{
    match k {
        0 => Some(Phrase::bare(Form::DidEnd)),
        1 => Some(rotations(a.window, a.lines)),
        _ => None,
    }
}
