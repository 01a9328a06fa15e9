// Whether two plans differ. The list of their differences is a definition: no code hands it out.
#![tactic(auto)]

ghost use Rattle.std.specs.Prelude.{◌≡◌, ◌≤◌, ◌<◌};
ghost use Rattle.differences.specs.Views.{header_of, number_of};
ghost use Rattle.differences.specs.Differences.{gathered, headers_changed, station_changed, is_none, is_same_plan};

use plans::Alloc;
use sets::{Head, Set};
use units::numbers;

// Two headers have the same numbers, asked number by number: `Head` derives no `==`.
fn same_header(h: Head, k: Head) -> bool
    ensures { result ≡ is_none (headers_changed (header_of h) (header_of k)) }
{
    let rotation = h.ttrt == k.ttrt;
    let mode = h.mode == k.mode;
    let frame = h.frame == k.frame;
    let grid = h.grid == k.grid;
    rotation & ((mode & frame) & grid)
}

// A station that both plans have has the same w, C, D, P and S in both.
fn same_station(t: Set, a: Alloc, u: Set, b: Alloc, i: usize) -> bool
    requires { i < 128 }
    ensures { result ≡ is_none (station_changed (number_of t a) (number_of u b) i) }
{
    let walk = t.w[i] == u.w[i];
    let longest = t.c[i] == u.c[i];
    let deadline = t.d[i] == u.d[i];
    let gap = t.p[i] == u.p[i];
    let share = a.s[i] == b.s[i];
    (((walk & longest) & deadline) & gap) & share
}

// So do the first n of them.
fn same_stations(t: Set, a: Alloc, u: Set, b: Alloc, n: usize) -> bool
    requires { n ≤ 128 }
    ensures { result ≡ is_none (gathered n (station_changed (number_of t a) (number_of u b))) }
{
    let mut all = true;
    for i in 0..n {
        all &= same_station(t, a, u, b, i);
    }
    all
}

// Two plans do not differ. A plan with more stations than there can be is the same as no plan, not even as itself.
pub fn same_plan(t: Set, a: Alloc, u: Set, b: Alloc) -> bool
    ensures { result ≡ is_same_plan t a u b }
{
    if t.n > numbers::MOST_STATIONS {
        return false;
    }
    let n = units::places(t.n);
    let header = same_header(t.head, u.head);
    let stations = same_stations(t, a, u, b, n);
    header & ((t.n == u.n) & stations)
}
