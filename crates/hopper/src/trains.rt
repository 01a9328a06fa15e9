// A train before it is coupled, and what is refused of a change before the planner is asked.
ghost use Rattle.std.specs.Prelude.{◌≡◌};
ghost use Rattle.hopper.specs.Trains.{blank_train, place_number};

use crate::{Train, Wagon, WagonList, wagons};
use units::{Station, numbers};

// The train with no wagon and the blank plan.
pub(crate) fn blank_train() -> Train
    ensures { result ≡ blank_train }
{
    Train {
        list: crate::blank_list(),
        plan: plans::blank_alloc(),
    }
}

// 2 and 4 of the changed list, 4 of the wagon, then 9 for a place that is not below the count.
pub(crate) fn place_number(list: WagonList, place: Station, wagon: Wagon) -> u8
    ensures { result ≡ place_number list place.0 wagon }
{
    let number = crate::judge_list(list);
    if number != numbers::ACCEPTED {
        return number;
    }
    if !wagons::wagon_fits(wagon.boxes, wagon.brake, wagon.door) {
        return numbers::OUT_OF_RANGE;
    }
    if u64::from(list.n) <= place.0 {
        return numbers::NO_SUCH_STATION;
    }
    numbers::ACCEPTED
}
