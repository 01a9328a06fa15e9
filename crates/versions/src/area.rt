// Judging an area: the versions that stand in it one after another, the end behind them, and zeros.
ghost use Rattle.std.specs.Prelude.{◌≡◌, ◌+◌, ◌-◌, ◌≤◌, false, length, take, drop, MatchOption};
ghost use Rattle.fields.specs.Bounds.{Short};
ghost use Rattle.versions.specs.Area.{version_fits, is_plan, version_stands, place_of, before_in, count_in, zeros_from, ends_at, is_store};
ghost use Rattle.versions.specs.Answers.{Held};
ghost use Rattle.versions.specs.Bounds.{walked_to, TurnOf};

use crate::{
    FoundVersion, Holding, MOST_KEPT, STORE_SIZE, VERSION_TAG, VersionsIn, VersionsWalked,
};
use sheets::records;
use units::numbers;

// How many bytes the field at the place says that its body has.
pub(crate) fn size_at(bs: &[u8], at: usize) -> usize
    requires { at + 3 ≤ length bs.now }
    ensures { Short bs.now (at + 1) result }
{
    usize::from(bs[at + 1]) * 256 + usize::from(bs[at + 2])
}

// A whole field of a version stands at the place.
fn version_fits(area: &[u8], at: usize) -> bool
    ensures { result ≡ version_fits area.now at }
{
    let left = area.len().saturating_sub(at);
    if left < 7 {
        return false;
    }
    let size = size_at(area, at);
    (area[at] == VERSION_TAG) & (4 <= size) & (size + 3 <= left)
}

// Plan reading accepts the bytes from one place up to another.
fn is_plan(area: &[u8], from: usize, end: usize) -> bool
    requires { (from ≤ end) × (end ≤ length area.now) }
    ensures { result ≡ is_plan (take (end - from) (drop from area.now)) }
{
    sheets::plan_number(&area[from..end]) == numbers::ACCEPTED
}

// A version with this number stands at the place, and its plan is accepted.
fn version_stands(area: &[u8], at: usize, number: u64) -> bool
    ensures { result ≡ version_stands area.now at number }
{
    if !version_fits(area, at) {
        return false;
    }
    let there = records::number_from(area, at + 3);
    if u64::from(there) != number {
        return false;
    }
    let size = size_at(area, at);
    is_plan(area, at + 7, at + 3 + size)
}

// One turn of the walk: where all versions before it stand, and this one does, it is counted.
fn walk_on(area: &[u8], before: u32, walked: VersionsWalked, k: u32) -> VersionsWalked
    requires { TurnOf area.now before walked k }
    ensures { result ≡ walked_to area.now (k + 1) }
{
    let at = walked.at;
    if walked.count != k {
        return walked;
    }
    let number = u64::from(before) + u64::from(k) + 1;
    if !version_stands(area, at, number) {
        return walked;
    }
    VersionsWalked {
        count: k + 1,
        at: at + 3 + size_at(area, at),
    }
}

// The walk over the versions, at most sixteen.
fn walk_versions(area: &[u8], before: u32) -> VersionsWalked
    requires { before ≡ before_in area.now }
    ensures { result ≡ walked_to area.now 16 }
{
    let mut walked = VersionsWalked { count: 0, at: 0 };
    for k in 0..MOST_KEPT {
        walked = walk_on(area, before, walked, k);
    }
    walked
}

// How many numbers were given before the oldest version.
fn before_in(area: &[u8]) -> u32
    requires { 7 ≤ length area.now }
    ensures { result ≡ before_in area.now }
{
    records::number_from(area, 3).saturating_sub(1)
}

// Nothing but zeros stands from the place on.
fn zeros_from(area: &[u8], from: usize) -> bool
    requires { from ≤ length area.now }
    ensures { result ≡ zeros_from area.now from }
{
    let mut all = true;
    for &byte in &area[from..] {
        all &= byte == 0;
    }
    all
}

// The end field stands at the place, and zeros behind it.
fn ends_at(area: &[u8], at: usize) -> bool
    ensures { result ≡ ends_at area.now at }
{
    if area.len().saturating_sub(at) < 3 {
        return false;
    }
    let size = size_at(area, at);
    if (area[at] != fields::END_TAG) | (size != fields::END_SIZE) {
        return false;
    }
    zeros_from(area, at + 3)
}

// What an area holds; nothing if it is no store.
pub(crate) fn judge_area(area: &[u8]) -> Option<Holding>
    ensures { MatchOption result (is_store area.now ≡ false) (Held area.now) }
{
    if fields::count_bytes(area) != STORE_SIZE {
        return None;
    }
    let before = before_in(area);
    let walked = walk_versions(area, before);
    if (before != 0) & (walked.count != MOST_KEPT) {
        return None;
    }
    if !ends_at(area, walked.at) {
        return None;
    }
    Some(Holding {
        before,
        count: walked.count,
        end: walked.at,
    })
}

// The place of version k, from 0 on.
pub(crate) fn place_of(area: &[u8], k: u32) -> usize
    requires { k ≤ count_in area.now }
    ensures { result ≡ place_of area.now k }
{
    let mut at: usize = 0;
    for _ in 0..k {
        at = at + 3 + size_at(area, at);
    }
    at
}

// A version that is not found.
pub(crate) fn not_found(number: u8) -> FoundVersion
    ensures { result ≡ record { place = 0; length = 0; number = number } }
{
    FoundVersion {
        place: 0,
        length: 0,
        number,
    }
}

// No version is kept.
pub(crate) fn none_kept(number: u8) -> VersionsIn
    ensures { result ≡ record { oldest = 0; newest = 0; number = number } }
{
    VersionsIn {
        oldest: 0,
        newest: 0,
        number,
    }
}
