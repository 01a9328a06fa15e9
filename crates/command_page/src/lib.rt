// What `page` says of a log around its picture, as a list of parts: each is a form of words, by its name, and the numbers that stand in it. The words of the forms are the program's.
#![tactic(auto)]

mod answer;
mod did;
mod named;
mod order;
mod planned;

ghost use Rattle.std.specs.Prelude.{◌≡◌};
ghost use Rattle.sheets.specs.Reading.{read_plan};
ghost use Rattle.command_page.specs.Account.{account_of, scene_of};
ghost use Rattle.command_page.specs.Parts.{part_at, part_count};

use inspection::Expected;
use log_records::Entry;
use picture_stream::{Watching, Window};
use pictures::Scene;
use plans::Alloc;
use sets::Set;
use text::phrases::Phrase;
use units::numbers;

// What is answered, the first of these that applies.
#[derive(Clone, Copy)]
pub enum Outcome {
    // The plan sheet in PLAN is refused.
    PlanRefused,
    // The log is refused.
    Refused,
    // The log's plan is another one.
    Another,
    // A record breaks a rule.
    Broken,
    Accepted,
}

// The forms of words. What each of them says stands in the program.
#[derive(Clone, Copy)]
pub enum Form {
    // The word above the finding.
    WordPlanRefused,
    WordRefused,
    WordAnother,
    WordBroken,
    WordAccepted,
    // What it means: a number's sentence; that the plan is another one; that a record breaks a rule; that all are kept; and the five rules.
    Sentence,
    MeansAnother,
    MeansBroken,
    MeansAccepted,
    Rules,
    // The named record, a visit or a mark, and a row for each rule: kept, broken, or not looked at.
    NamedVisit,
    NamedMark,
    Kept,
    Broken,
    Behind,
    StationRule,
    FirstStart,
    StartRule,
    LimitRule,
    TimelyLimit,
    FddiLimit,
    ThroughLimit,
    SynchronousRule,
    Share,
    ThroughShare,
    TickRule,
    FrameRule,
    MarkRule,
    NamedEnd,
    // The plan: the header's numbers, τ, the sum of S, A*, and the stations.
    PlanBegin,
    Ttrt,
    TimelyMode,
    FddiMode,
    EarlierMode,
    LongestFrame,
    Grid,
    Tau,
    Sum,
    Spare,
    StationsBegin,
    Station,
    StationsEnd,
    // What the mode promises.
    Back,
    OnlyShare,
    InTime,
    NoDeadline,
    Burst,
    Offered,
    NotOffered,
    PromisesEnd,
    // What each station did, in all records or in those before the named one.
    DidAll,
    DidBefore,
    DidVisits,
    DidLongest,
    DidNoTwo,
    DidSent,
    DidEnd,
    // Which rotations of how many are drawn; or that there is no visit.
    Rotations,
    NoRotation,
}

// What the named record must have, and where it comes from.
#[derive(Clone, Copy)]
pub struct Due {
    pub expected: Expected,
    // The start of a visit that is not the first: that of the visit before, and what it took.
    pub start: u32,
    // u, and how long the station's timer has run: TRT; an FDDI timer counts with TTRT for each time that it is late.
    pub unused: u32,
    pub run: u32,
    // The station is switched through.
    pub through: bool,
}

// The plan as a whole.
#[derive(Clone, Copy)]
pub struct Sums {
    pub sum: u64,
    pub tau: u64,
    // A*.
    pub spare: u64,
    // How much N visits send asynchronously at most: A* and F − 1.
    pub burst: u64,
    // Within how many ticks the token is back.
    pub bound: u32,
}

// All that the parts are made of.
#[derive(Clone, Copy)]
pub struct Account {
    pub outcome: Outcome,
    // The refusal, of the plan sheet or of the log; 0 where neither is refused.
    pub number: u8,
    pub set: Set,
    pub alloc: Alloc,
    pub sums: Sums,
    // The named record's number, from 1, the rule that it breaks, the record, and what it must have; 0 and 0 where none is named.
    pub named: u64,
    pub rule: u8,
    pub last: Entry,
    pub due: Due,
    // How many records keep every rule.
    pub records: u64,
    // What each station did in them.
    pub numbers: [u64; 896],
    // Which rotations are drawn, and how many there are.
    pub window: Window,
    pub lines: u64,
}

// How many parts the finding has, with the named record's.
const FINDING_COUNT: usize = 20;

// How many parts the plan has as a whole.
const PLAN_COUNT: usize = 9;

// How many parts stand before the plan's stations, behind them, at each station for what it did, and behind these; the places that have none among them.
pub const FIRST_COUNT: usize = 29;

pub const MIDDLE_COUNT: usize = 8;

pub const DID_COUNT: usize = 3;

pub const LAST_COUNT: usize = 2;

// What is said of a log that was read whole; `given` says whether it is held to the plan sheet in these bytes.
pub fn account_of(given: bool, plan: &[u8], watching: Watching) -> Account
    ensures { result ≡ account_of given (read_plan plan.now) watching }
{
    let read = sheets::read_plan(plan);
    let inspecting = watching.inspecting;
    let set = inspecting.start.set;
    let alloc = inspecting.start.alloc;
    let looked = inspecting.looked;
    let state = looked.inspection;
    let outcome = answer::outcome_of(given, read, inspecting);
    let number = answer::refusal_of(given, read, inspecting);
    let sums = answer::sums_of(set, alloc);
    let finding = inspection::found(state, 0);
    let due = answer::due_of(state, set, alloc);
    let last = looked.last;
    let numbers = watching.seen.numbers;
    let window = picture_stream::window_of(watching);
    let lines = picture_stream::lines_of(watching);
    Account {
        outcome,
        number,
        set,
        alloc,
        sums,
        named: finding.record,
        rule: state.rule,
        last,
        due,
        records: state.records,
        numbers,
        window,
        lines,
    }
}

// How many parts there are.
pub fn part_count(a: Account) -> usize
    ensures { result ≡ part_count a }
{
    let n = units::places(a.set.n);
    FIRST_COUNT + n + MIDDLE_COUNT + DID_COUNT * n + LAST_COUNT
}

// Part k, if there is one at this place. The finding's own words come behind part 0.
#[tactic(auto, unfolding(crate::specs::Parts::part_at))]
pub fn part_at(a: Account, k: usize) -> Option<Phrase<Form>>
    ensures { result ≡ part_at a k }
{
    if k < FINDING_COUNT {
        return named::finding(a, k);
    }
    if named::is_judged(a.outcome) {
        return order::judged(a, k - FINDING_COUNT);
    }
    None
}

// What the picture is drawn by.
pub fn scene_of(a: Account) -> Scene
    ensures { result ≡ scene_of a }
{
    let set = a.set;
    let w = set.w;
    Scene {
        bound: a.sums.bound,
        earlier: set.head.mode == numbers::EARLIER,
        n: set.n,
        w,
        named: a.named,
    }
}
