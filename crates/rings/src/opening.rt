// Opening's number, and the blank ring.
ghost use Rattle.std.specs.Prelude.{◌≡◌};
ghost use Rattle.sets.specs.Lent.{set_of};
ghost use Rattle.plans.specs.Lent.{alloc_of};
ghost use Rattle.rings.specs.State.{blank_ring};
ghost use Rattle.rings.specs.Opening.{opening_number};

use super::Ring;
use sets::Head;
use units::numbers;
use units::refusals::answer_number;

// The first of 2, 4, 5, 16 and 7 that applies to what is lent: 2, 4 and 5 as the plan is judged, 16 where the mode is FDDI, and else 7 or 0 as it is judged.
pub(crate) fn opening_number<'a>(
    head: Head,
    n: u32,
    w: &'a [u32; 128],
    c: &'a [u32; 128],
    d: &'a [u32; 128],
    p: &'a [u32; 128],
    s: &'a [u32; 128],
) -> u8
    ensures { result ≡ opening_number (set_of head n w.now c.now d.now p.now) (alloc_of s.now) }
{
    let judged = answer_number(plans::judge_plan_lent(head, n, w, c, d, p, s));
    let before = (judged != numbers::ACCEPTED) & (judged != numbers::RULES_BROKEN);
    if before {
        return judged;
    }
    if head.mode == numbers::FDDI {
        return numbers::RETIRED;
    }
    judged
}

// The blank ring: every number in it 0.
pub(crate) fn blank_ring() -> Ring
    ensures { result ≡ blank_ring }
{
    let set = sets::blank_set();
    let alloc = plans::blank_alloc();
    Ring {
        set,
        alloc,
        trt: [0; 128],
        late: [0; 128],
        sent: [0; 128],
        rest: [0; 128],
        token: 0,
        arrival: [0; 128],
        had: [0; 128],
        mark: [0; 128],
        last: [0; 128],
        clock: 0,
        visits: 0,
        unused: 0,
    }
}
