// The parts in their order: the finding and the plan as a whole, the plan's stations, what is promised, what each station did, and what is drawn.
ghost use Rattle.std.specs.Prelude.{◌≡◌};
ghost use Rattle.command_page.specs.Parts.{middle_part, did_or_last, behind_stations, part_behind, judged_part};

use crate::{Account, DID_COUNT, Form, MIDDLE_COUNT, PLAN_COUNT, did, planned};
use text::phrases::Phrase;

// Behind the plan's stations: what is promised, and over which records what follows is.
#[tactic(auto, unfolding(crate::specs::Parts::middle_part))]
fn middle(a: Account, k: usize) -> Option<Phrase<Form>>
    ensures { result ≡ middle_part a k }
{
    if k < 7 {
        return planned::promise(a, k);
    }
    Some(did::begin(a.rule, a.records, a.named))
}

// What each station did, three parts for each; and what stands behind these.
#[tactic(auto, unfolding(crate::specs::Parts::did_or_last))]
fn did_or_last(a: Account, k: usize) -> Option<Phrase<Form>>
    ensures { result ≡ did_or_last a k }
{
    let n = units::places(a.set.n);
    let i = k / DID_COUNT;
    if i < n {
        return Some(did::station(a, i, k % DID_COUNT));
    }
    did::last(a, k - DID_COUNT * n)
}

// Part k behind the plan's stations.
#[tactic(auto, unfolding(crate::specs::Parts::behind_stations))]
fn behind_stations(a: Account, k: usize) -> Option<Phrase<Form>>
    ensures { result ≡ behind_stations a k }
{
    if k < MIDDLE_COUNT {
        return middle(a, k);
    }
    did_or_last(a, k - MIDDLE_COUNT)
}

// Part k behind the plan as a whole.
#[tactic(auto, unfolding(crate::specs::Parts::part_behind))]
fn behind(a: Account, k: usize) -> Option<Phrase<Form>>
    ensures { result ≡ part_behind a k }
{
    let n = units::places(a.set.n);
    if k < n {
        return Some(planned::station(a.set, a.alloc, k));
    }
    behind_stations(a, k - n)
}

// Part k behind the finding: the plan as a whole, and what stands behind it.
#[tactic(auto, unfolding(crate::specs::Parts::judged_part))]
pub(crate) fn judged(a: Account, k: usize) -> Option<Phrase<Form>>
    ensures { result ≡ judged_part a k }
{
    if k < PLAN_COUNT {
        return Some(planned::whole(a, k));
    }
    behind(a, k - PLAN_COUNT)
}
