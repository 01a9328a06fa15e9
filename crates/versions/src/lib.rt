// Plan versions of a set: numbered plan sheets in a lent area of 65,536 bytes, oldest first; the 16 newest are kept.
#![tactic(auto)]

mod area;
mod storing;

ghost use Rattle.std.specs.Prelude.{◌≡◌};
ghost use Rattle.versions.specs.Answers.{Emptied, Stored, found_version, versions_in};

use units::numbers;

// How many bytes an area has.
pub const STORE_SIZE: usize = 65_536;

// How many versions are kept at most.
pub const MOST_KEPT: u32 = 16;

// The last number that a version is given.
pub const LAST_VERSION: u32 = 4_294_967_295;

pub const VERSION_TAG: u8 = 32;

// What a store holds: how many numbers were given before the oldest version, how many versions are kept and the place behind them.
#[derive(Clone, Copy)]
pub struct Holding {
    pub before: u32,
    pub count: u32,
    pub end: usize,
}

// How far a walk over the versions came: how many stand, and the place behind them.
#[derive(Clone, Copy)]
pub struct VersionsWalked {
    pub count: u32,
    pub at: usize,
}

// What storing answers: the number, 0 with the number of the version, or a refusal with version 0.
#[repr(C)]
#[derive(Clone, Copy)]
pub struct StoredPlan {
    pub version: u32,
    pub number: u8,
}

// What finding answers: the number, 0 with the place of the plan's first byte in the area and its length, or a refusal with zeros.
#[repr(C)]
#[derive(Clone, Copy)]
pub struct FoundVersion {
    pub place: usize,
    pub length: usize,
    pub number: u8,
}

// Which versions an area keeps: the number, 0 with the oldest and the newest version, zeros where there is none; or 2 with zeros.
#[repr(C)]
#[derive(Clone, Copy)]
pub struct VersionsIn {
    pub oldest: u32,
    pub newest: u32,
    pub number: u8,
}

// Makes an area of 65,536 bytes a store without a version, whatever it held; 2 for another length, and nothing is written.
pub fn empty_store(area: &mut [u8]) -> u8
    ensures { Emptied area.old area.new result }
{
    if area.len() != STORE_SIZE {
        return numbers::WRONG_SHAPE;
    }
    sheets::records::put_end(area, 0);
    storing::clear(area, 3, STORE_SIZE - 3);
    numbers::ACCEPTED
}

// Stores a plan sheet as the next version: 2 for an area that is no store; then 1, 2, 3, 4, 5, 7 as reading the sheet gives them; then 18 where the numbers are used up. Of sixteen the oldest goes.
pub fn store_plan(area: &mut [u8], sheet: &[u8]) -> StoredPlan
    ensures { Stored sheet.now area.old area.new result }
{
    let Some(held) = area::judge_area(area) else {
        return storing::refused(numbers::WRONG_SHAPE);
    };
    let number = storing::plan_number(sheet);
    if number != numbers::ACCEPTED {
        return storing::refused(number);
    }
    let newest = held.before + held.count;
    if newest == LAST_VERSION {
        return storing::refused(numbers::VERSIONS_USED);
    }
    let at = storing::make_room(area, held.count, held.end);
    storing::put_version(area, at, newest + 1, sheet);
    StoredPlan {
        version: newest + 1,
        number: numbers::ACCEPTED,
    }
}

// Finds a version by its number: 2 for an area that is no store; then 17 where that version is not kept; else where its plan sheet stands in the area.
pub fn find_version(area: &[u8], version: u32) -> FoundVersion
    ensures { result ≡ found_version area.now version }
{
    let Some(held) = area::judge_area(area) else {
        return area::not_found(numbers::WRONG_SHAPE);
    };
    let newest = held.before + held.count;
    if (version <= held.before) | (newest < version) {
        return area::not_found(numbers::NO_VERSION);
    }
    let at = area::place_of(area, version - held.before - 1);
    FoundVersion {
        place: at + 7,
        length: area::size_at(area, at) - 4,
        number: numbers::ACCEPTED,
    }
}

// The oldest and the newest kept version; 2 for an area that is no store.
pub fn versions_in(area: &[u8]) -> VersionsIn
    ensures { result ≡ versions_in area.now }
{
    let Some(held) = area::judge_area(area) else {
        return area::none_kept(numbers::WRONG_SHAPE);
    };
    if held.count == 0 {
        return area::none_kept(numbers::ACCEPTED);
    }
    VersionsIn {
        oldest: held.before + 1,
        newest: held.before + held.count,
        number: numbers::ACCEPTED,
    }
}
