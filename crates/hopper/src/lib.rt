// The hopper set: a list of wagons becomes a request, is planned, and a change that is refused leaves the old list and plan in force.
#![tactic(auto)]

mod requests;
mod trains;
mod wagons;

ghost use Rattle.std.specs.Prelude.{◌≡◌};
ghost use Rattle.hopper.specs.Wagons.{Placed, judged_list, blank_list, with_more, without_last};
ghost use Rattle.hopper.specs.Requests.{list_request, list_planned, WroteSheet};
ghost use Rattle.hopper.specs.Trains.{coupled, changed_train, changed_wagon};

use plans::{Alloc, Planned};
use sheets::{ReadRequest, Written};
use units::{Station, numbers};

// How many wagons a list may have, and how many axle boxes a wagon.
pub const MOST_WAGONS: u32 = 12;

pub const MOST_BOXES: u32 = 8;

// A wagon: how many axle boxes it has, and whether a brake unit and a door unit are fitted, 1 or 0.
#[repr(C)]
#[derive(Clone, Copy)]
pub struct Wagon {
    pub boxes: u32,
    pub brake: u32,
    pub door: u32,
}

// The wagons of a train from its head on, one place of each array for each. Only the first n places are ever looked at.
#[repr(C)]
#[derive(Clone, Copy)]
pub struct WagonList {
    pub n: u32,
    pub boxes: [u32; 12],
    pub brake: [u32; 12],
    pub door: [u32; 12],
}

// A train: the list of its wagons and the plan that is in force.
#[repr(C)]
#[derive(Clone, Copy)]
pub struct Train {
    pub list: WagonList,
    pub plan: Alloc,
}

// What coupling or changing a train answers: the number, 0 with the new train, or a refusal with the train as it was.
#[repr(C)]
#[derive(Clone, Copy)]
pub struct Coupled {
    pub train: Train,
    pub number: u8,
}

// ---- lists

// The list with no wagon.
pub fn blank_list() -> WagonList
    ensures { result ≡ blank_list }
{
    WagonList {
        n: 0,
        boxes: [0; 12],
        brake: [0; 12],
        door: [0; 12],
    }
}

// How many places each array of a list has, whatever numbers stand there.
pub fn count_places(list: WagonList) -> u32
    ensures { Placed list result }
{
    MOST_WAGONS
}

// The list with one wagon more at its end. Where there are twelve already only the count rises, to thirteen, so that the list is refused.
pub fn with_more(list: WagonList, wagon: Wagon) -> WagonList
    ensures { result ≡ with_more list wagon }
{
    if MOST_WAGONS <= list.n {
        return WagonList {
            n: MOST_WAGONS + 1,
            ..list
        };
    }
    let longer = wagons::with_wagon(list, Station(u64::from(list.n)), wagon);
    WagonList {
        n: list.n + 1,
        ..longer
    }
}

// The list without its last wagon.
pub fn without_last(list: WagonList) -> WagonList
    ensures { result ≡ without_last list }
{
    WagonList {
        n: list.n.saturating_sub(1),
        ..list
    }
}

// The judgement of a list: 2 for a count that is not 1 to 12, 4 for a wagon out of its ranges, or 0.
pub fn judge_list(list: WagonList) -> u8
    ensures { result ≡ judged_list list }
{
    let count_fits = (1 <= list.n) & (list.n <= MOST_WAGONS);
    if !count_fits {
        return numbers::WRONG_SHAPE;
    }
    if !wagons::wagons_fit(list) {
        return numbers::OUT_OF_RANGE;
    }
    numbers::ACCEPTED
}

// ---- the request of a list, and its plan

// The request of a list: one station for each wagon in the list's order, or a refusal with the blank set.
pub fn request_of(list: WagonList) -> ReadRequest
    ensures { result ≡ list_request list }
{
    let judged = judge_list(list);
    if judged != numbers::ACCEPTED {
        return ReadRequest {
            set: sets::blank_set(),
            number: judged,
        };
    }
    let set = requests::set_of(list);
    ReadRequest {
        set,
        number: numbers::ACCEPTED,
    }
}

// Writes the request sheet of a list into the first bytes of a lent buffer; refused, no byte of it changes.
pub fn write_sheet(list: WagonList, out: &mut [u8]) -> Written
    ensures { WroteSheet list out.old out.new result }
{
    let asked = request_of(list);
    if asked.number != numbers::ACCEPTED {
        return Written {
            length: 0,
            number: asked.number,
        };
    }
    let set = asked.set;
    sheets::write_request(set, out)
}

// The plan of a list: its own refusal, or what the planner answers to its request.
pub fn plan_list(list: WagonList) -> Planned
    ensures { result ≡ list_planned list }
{
    let request = request_of(list);
    if request.number != numbers::ACCEPTED {
        return Planned {
            alloc: plans::blank_alloc(),
            number: request.number,
        };
    }
    let set = request.set;
    plans::plan(set)
}

// ---- trains

// The train of a list with its plan, or a refusal with the blank train.
pub fn couple_train(list: WagonList) -> Coupled
    ensures { result ≡ coupled list }
{
    change_train(trains::blank_train(), list)
}

// The train with another list and its plan, or a refusal with the train as it was.
pub fn change_train(train: Train, list: WagonList) -> Coupled
    ensures { result ≡ changed_train train list }
{
    let planned = plan_list(list);
    let refusal = planned.number;
    if refusal != numbers::ACCEPTED {
        return Coupled {
            train,
            number: refusal,
        };
    }
    let plan = planned.alloc;
    Coupled {
        train: Train { list, plan },
        number: numbers::ACCEPTED,
    }
}

// The train with another wagon at a place and the plan of that, or a refusal with the train as it was.
pub fn change_wagon(train: Train, place: Station, wagon: Wagon) -> Coupled
    ensures { result ≡ changed_wagon train place wagon }
{
    let old = train.list;
    let list = wagons::with_wagon(old, place, wagon);
    let number = trains::place_number(list, place, wagon);
    if number != numbers::ACCEPTED {
        return Coupled { train, number };
    }
    change_train(train, list)
}

// The train with one wagon more at its end and the plan of that, or a refusal with the train as it was.
pub fn couple_wagon(train: Train, wagon: Wagon) -> Coupled
    ensures { result ≡ changed_train train (with_more train.list wagon) }
{
    let old = train.list;
    change_train(train, with_more(old, wagon))
}

// The train without its last wagon and the plan of that, or a refusal with the train as it was.
pub fn uncouple_wagon(train: Train) -> Coupled
    ensures { result ≡ changed_train train (without_last train.list) }
{
    let old = train.list;
    change_train(train, without_last(old))
}
