// The request of a list of wagons, its numbers as the product has them.
ghost use Rattle.std.specs.Prelude.{◌≡◌, ◌≤◌};
ghost use Rattle.units.specs.Places.{fill, zeros};
ghost use Rattle.hopper.specs.Wagons.{WagonFits, ListFits};
ghost use Rattle.hopper.specs.Requests.{longest_of, longest_at, set_of};

use crate::WagonList;
use sets::Set;

// The longest message of a wagon.
fn longest(boxes: u32, brake: u32, door: u32) -> u32
    requires { WagonFits boxes brake door }
    ensures { result ≡ longest_of boxes brake door }
{
    4 * boxes + 6 * brake + 2 * door
}

// One number at each of the first n places, 0 past them.
fn filled(n: u32, x: u32) -> [u32; 128]
    requires { n ≤ 12 }
    ensures { result ≡ fill n (λ i. x) zeros }
{
    let end = units::places(n);
    let mut xs: [u32; 128] = [0; 128];
    xs[..end].fill(x);
    xs
}

// The longest message of each wagon, 0 past them.
fn messages(list: WagonList) -> [u32; 128]
    requires { ListFits list }
    ensures { result ≡ fill list.n (longest_at list) zeros }
{
    let end = units::places(list.n);
    let mut c: [u32; 128] = [0; 128];
    for i in 0..end {
        c[i] = longest(list.boxes[i], list.brake[i], list.door[i]);
    }
    c
}

// The set of a list: TTRT 250, and for each wagon w 1, its longest message, D and P 500.
pub(crate) fn set_of(list: WagonList) -> Set
    requires { ListFits list }
    ensures { result ≡ set_of list }
{
    let w = filled(list.n, 1);
    let c = messages(list);
    let d = filled(list.n, 500);
    let p = filled(list.n, 500);
    Set {
        head: sets::head_of(250),
        n: list.n,
        w,
        c,
        d,
        p,
    }
}
