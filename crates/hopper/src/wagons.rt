// One wagon of a list: its ranges, and another put in its place.
ghost use Rattle.std.specs.Prelude.{◌≡◌, ◌≤◌};
ghost use Rattle.hopper.specs.Wagons.{wagon_fits, wagons_fit, with_wagon};

use crate::{MOST_BOXES, Wagon, WagonList};
use units::Station;

// The numbers of one wagon are in range.
pub(crate) fn wagon_fits(boxes: u32, brake: u32, door: u32) -> bool
    ensures { result ≡ wagon_fits boxes brake door }
{
    let axles = boxes <= MOST_BOXES;
    let braked = brake <= 1;
    let doored = door <= 1;
    axles & braked & doored
}

// The numbers of all wagons of the list are in range.
pub(crate) fn wagons_fit(list: WagonList) -> bool
    requires { list.n ≤ 12 }
    ensures { result ≡ wagons_fit list }
{
    let end = units::places(list.n);
    let mut all = true;
    for i in 0..end {
        all &= wagon_fits(list.boxes[i], list.brake[i], list.door[i]);
    }
    all
}

// The list with this wagon at a place; where there is no such place, the list as it was.
pub(crate) fn with_wagon(mut list: WagonList, place: Station, wagon: Wagon) -> WagonList
    ensures { result ≡ with_wagon list place.0 wagon }
{
    if 12 <= place.0 {
        return list;
    }
    let i = place.0 as usize;
    list.boxes[i] = wagon.boxes;
    list.brake[i] = wagon.brake;
    list.door[i] = wagon.door;
    list
}
