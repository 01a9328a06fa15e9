// What `explain` says of a sheet's bytes, as a list of phrases: each is a form of words, by its name, and the numbers that stand in it. The words of the forms are the program's.
#![tactic(auto)]

mod ends;
mod first;
mod sheet;
mod stations;

ghost use Rattle.std.specs.Prelude.{◌≡◌, ◌+◌, ◌<◌};
ghost use Rattle.command_explain.specs.Sheet.{explained};
ghost use Rattle.command_explain.specs.Phrases.{phrase_at, phrase_count};

use fields::Passed;
use plans::Alloc;
use reasons::Rooms;
use sets::{Head, Set};
use text::phrases::Phrase;

// The forms of words. What each of them says stands in `adviser`.
#[derive(Clone, Copy)]
pub enum Form {
    // The verdict.
    Refused,
    Planned,
    Accepted,
    // The header's numbers.
    Header,
    // 1, 2 and 3: as what the bytes were read, what stands at the place of the fault, and what may stand there.
    AsRequest,
    AsPlan,
    Start,
    Left,
    MayTtrt,
    MayStation,
    MayShare,
    MayMode,
    MayFrame,
    MayGrid,
    MayEnd,
    MayNothing,
    // 4: a number that is out of its range; a field that says 1 is to be left out.
    TtrtOut,
    ModeOut,
    FrameOut,
    GridOut,
    ModeOne,
    FrameOne,
    GridOne,
    WalkOut,
    LongestOut,
    DeadlineOut,
    GapOut,
    ShareOut,
    // 5: τ, and a station's walk time.
    TauOut,
    Walk,
    // A station, what its S rests on, and what it holds.
    Grounds,
    FddiGrounds,
    End,
    TooMuch,
    Times,
    FirstTime,
    Held,
    HeldMore,
    HeldShort,
    HeldOff,
    HeldShortOff,
    // The sum of S, and what there is for it.
    Sum,
    Missing,
    Spare,
    GridCause,
    // 16.
    Retired,
    Readable,
    Again,
    // What the mode promises.
    Back,
    OnlyShare,
    InTime,
    Burst,
    OwnBurst,
    Offered,
    NotOffered,
    NoDeadline,
}

// Where the walk over the bytes stopped: the byte, of 3 the one behind the end field; how many bytes there are from it on; the tag and the length there, if three bytes are left; and the fields that passed.
#[derive(Clone, Copy)]
pub struct Place {
    pub byte: u64,
    pub left: u64,
    pub tag: u64,
    pub size: u64,
    pub passed: Passed,
}

// The sum of S with what it is held against, and what follows of it.
#[derive(Clone, Copy)]
pub struct Sums {
    pub sum: u64,
    pub tau: u64,
    // F − 1.
    pub more: u64,
    // TTRT − τ − (F − 1), held at 0.
    pub available: u64,
    // The sum, τ and F − 1 less TTRT, held at 0.
    pub missing: u64,
    // A*.
    pub spare: u64,
    // Within how many ticks the token is back.
    pub back: u64,
    // How much N visits send asynchronously at most: A* and F − 1.
    pub burst: u64,
}

// All that the phrases are made of.
#[derive(Clone, Copy)]
pub struct Explained {
    // The bytes are explained as a plan sheet, not as a request sheet.
    pub plan: bool,
    // 0, or the refusal.
    pub number: u8,
    pub place: Place,
    pub set: Set,
    // S: of a plan sheet as it is given, of a request sheet as it is planned.
    pub alloc: Alloc,
    // The header's numbers as they stand in the fields.
    pub said: Head,
    pub sums: Sums,
    pub rooms: Rooms,
    pub grid_cause: bool,
}

// How many phrases stand before the stations', at each station, and behind them; the places that have none among them.
pub const FIRST_COUNT: usize = 10;

pub const STATION_COUNT: usize = 5;

pub const LAST_COUNT: usize = 8;

// Looks at a sheet's bytes.
pub fn explain(bytes: &[u8]) -> Explained
    ensures { result ≡ explained bytes.now }
{
    let plan = sheet::is_plan(bytes);
    let given = sheets::read_given(bytes, plan);
    let judged = sheet::judged(plan, given);
    let place = sheet::place_of(bytes, plan);
    let set = judged.set;
    let alloc = judged.alloc;
    let said = sheet::said_head(bytes, judged.set.head);
    let sums = ends::sums_of(ends::account_of(plan, set, alloc), set, alloc);
    let rooms = reasons::rooms_of(set);
    Explained {
        plan,
        number: judged.number,
        place,
        set,
        alloc,
        said,
        sums,
        rooms,
        grid_cause: reasons::grid_is_cause(set),
    }
}

// How many phrases there are.
pub fn phrase_count(e: Explained) -> usize
    ensures { result ≡ phrase_count e }
{
    let n = units::places(e.set.n);
    FIRST_COUNT + STATION_COUNT * n + LAST_COUNT
}

// Phrase k, if there is one at this place.
#[tactic(auto, unfolding(crate::specs::Phrases::phrase_at, crate::specs::Phrases::phrase_behind))]
pub fn phrase_at(e: Explained, k: usize) -> Option<Phrase<Form>>
    ensures { result ≡ phrase_at e k }
{
    if k < FIRST_COUNT {
        return first::phrase(e, k);
    }
    let behind = k - FIRST_COUNT;
    let station = behind / STATION_COUNT;
    let n = units::places(e.set.n);
    if station < n {
        let j = (behind % STATION_COUNT) as u8;
        return stations::phrase(e, station, j);
    }
    ends::phrase(e, behind - STATION_COUNT * n)
}
