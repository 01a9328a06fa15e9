// The phrases of a station: its numbers that are out of their ranges, its walk time, what its S rests on, or what it holds.
ghost use Rattle.std.specs.Prelude.{◌≡◌, ◌<◌};
ghost use Rattle.command_explain.specs.Stations.{out_form, station_out, walk_phrase, grounds, too_much_phrase, times, behind_smallest, smallest_phrase, held_form, held, given_phrase, in_range_phrase, station_phrase};

use crate::{Explained, Form};
use faults::Holding;
use reasons::Grounds;
use sets::Head;
use text::phrases::Phrase;
use units::numbers;

// ---- 4

// The form of number j of a station, where it is out of its range.
fn out_form(j: u8) -> Form
    ensures { result ≡ out_form j }
{
    match j {
        0 => Form::WalkOut,
        1 => Form::LongestOut,
        2 => Form::DeadlineOut,
        3 => Form::GapOut,
        _ => Form::ShareOut,
    }
}

// ---- the smallest S of a station

// 6: whether S alone is more than there is.
fn too_much(available: u64, s: u32) -> Phrase<Form>
    ensures { result ≡ too_much_phrase available s }
{
    let above = reasons::too_much(available, u64::from(s));
    Phrase::either(above, Form::TooMuch, Form::End)
}

// X at S, X at the next smaller S, and the largest C.
#[tactic(auto, unfolding(crate::specs::Stations::times))]
fn times(rests: Grounds, largest: u32) -> Phrase<Form>
    ensures { result ≡ times rests largest }
{
    let room = u64::from(largest);
    if rests.smallest == 0 {
        return Phrase::two(Form::FirstTime, rests.time, room);
    }
    Phrase::three(Form::Times, rests.time, rests.below, room)
}

// What is said behind the smallest S.
#[tactic(auto, unfolding(crate::specs::Stations::behind_smallest))]
fn behind_smallest(e: Explained, rests: Grounds, largest: u32) -> Phrase<Form>
    ensures { result ≡ behind_smallest e rests largest }
{
    if e.number == numbers::NO_ALLOCATION {
        return too_much(e.sums.available, rests.smallest);
    }
    times(rests, largest)
}

// ---- what a station of a given plan holds

// The form of what it holds.
#[tactic(auto, unfolding(crate::specs::Stations::held_form))]
fn held_form(holding: Holding) -> Form
    ensures { result ≡ held_form holding }
{
    if holding.short {
        if holding.off_grid {
            return Form::HeldShortOff;
        }
        return Form::HeldShort;
    }
    if holding.off_grid {
        return Form::HeldOff;
    }
    if holding.excess != 0 {
        return Form::HeldMore;
    }
    Form::Held
}

// X, and what is wrong with it or more than need be.
fn held(holding: Holding) -> Phrase<Form>
    ensures { result ≡ held holding }
{
    Phrase::two(held_form(holding), holding.time, holding.excess)
}

// ---- a station, and all that is said of it

// A station's own numbers.
#[derive(Clone, Copy)]
pub(crate) struct Station {
    // Which it is.
    number: u32,
    w: u32,
    c: u32,
    d: u32,
    p: u32,
    s: u32,
    // The largest C with which there is still a plan.
    largest: u32,
}

impl Station {
    // Number j, if it is out of its range: the number, and the range.
    #[tactic(auto, unfolding(crate::specs::Stations::ranged_out))]
    fn out(self, j: u8) -> Option<Phrase<Form>>
        ensures { result ≡ station_out self j }
    {
        let range = faults::station_range(self.w, self.c, self.d, self.p, self.s, j);
        if !range.out {
            return None;
        }
        let station = u64::from(self.number);
        let value = u64::from(range.value);
        let low = u64::from(range.low);
        let high = u64::from(range.high);
        Some(Phrase::four(out_form(j), station, value, low, high))
    }

    // The walk time, if it is above 0.
    #[tactic(auto, unfolding(crate::specs::Stations::walk_phrase))]
    fn walk(self, j: u8) -> Option<Phrase<Form>>
        ensures { result ≡ walk_phrase self.number self.w j }
    {
        let said = (j == 0) & (self.w != 0);
        if !said {
            return None;
        }
        let station = u64::from(self.number);
        let time = u64::from(self.w);
        Some(Phrase::two(Form::Walk, station, time))
    }

    // What this S rests on: C, D, m, α and S; in FDDI q and the rest r in place of m and α.
    #[tactic(auto, unfolding(crate::specs::Stations::grounds_phrase))]
    fn grounds(self, h: Head, s: u32) -> Phrase<Form>
        ensures { result ≡ grounds h self.number self.c self.d s }
    {
        let rests = reasons::grounds_of(h.grid, h.ttrt, self.c, self.d);
        let station = u64::from(self.number);
        let longest = u64::from(self.c);
        let deadline = u64::from(self.d);
        let whole = u64::from(rests.whole);
        let share = u64::from(s);
        if h.mode == numbers::FDDI {
            let rest = u64::from(h.ttrt).saturating_sub(rests.alpha);
            return Phrase {
                form: Form::FddiGrounds,
                numbers: [station, longest, deadline, whole, rest, share],
            };
        }
        Phrase {
            form: Form::Grounds,
            numbers: [station, longest, deadline, whole, rests.alpha, share],
        }
    }

    // Phrase j with the smallest S: of a request that is accepted, or refused with 6.
    #[tactic(auto, unfolding(crate::specs::Stations::smallest_phrase))]
    fn smallest(self, e: Explained, j: u8) -> Option<Phrase<Form>>
        ensures { result ≡ smallest_phrase e self j }
    {
        let h = e.set.head;
        let rests = reasons::grounds_of(h.grid, h.ttrt, self.c, self.d);
        match j {
            0 => Some(self.grounds(h, rests.smallest)),
            1 => Some(behind_smallest(e, rests, self.largest)),
            _ => None,
        }
    }

    // Phrase j with the given S. Of a plan that is refused only the stations that have a fault are named.
    #[tactic(auto, unfolding(crate::specs::Stations::given_by))]
    fn given(self, e: Explained, j: u8) -> Option<Phrase<Form>>
        ensures { result ≡ given_phrase e self j }
    {
        let holding = faults::holding_at(e.set, e.alloc, self.number);
        let faulty = holding.short | holding.off_grid;
        let named = (e.number == numbers::ACCEPTED) | faulty;
        if !named {
            return None;
        }
        match j {
            0 => Some(self.grounds(e.set.head, self.s)),
            1 => Some(held(holding)),
            _ => None,
        }
    }

    // Phrase j where the numbers are in range.
    #[tactic(auto, unfolding(crate::specs::Stations::in_range_phrase))]
    fn in_range(self, e: Explained, j: u8) -> Option<Phrase<Form>>
        ensures { result ≡ in_range_phrase e self j }
    {
        if e.number == numbers::RETIRED {
            return None;
        }
        if e.plan {
            return self.given(e, j);
        }
        self.smallest(e, j)
    }
}

// Phrase j of station i.
#[tactic(auto, unfolding(crate::specs::Stations::station_phrase))]
pub(crate) fn phrase(e: Explained, i: usize, j: u8) -> Option<Phrase<Form>>
    requires { i < 128 }
    ensures { result ≡ station_phrase e i j }
{
    let station = Station {
        number: i as u32,
        w: e.set.w[i],
        c: e.set.c[i],
        d: e.set.d[i],
        p: e.set.p[i],
        s: e.alloc.s[i],
        largest: e.rooms.c[i],
    };
    match e.number {
        numbers::OUT_OF_RANGE => station.out(j),
        numbers::BAD_WALK_TIME => station.walk(j),
        _ => station.in_range(e, j),
    }
}
