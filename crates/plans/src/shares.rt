// The quotients of planning: how many whole rotations fit into a deadline, and what the next one lacks. Nothing divides.
ghost use Rattle.plans.specs.Bounds.{Rotated};

// m and α of a deadline.
#[derive(Clone, Copy)]
pub(crate) struct Turns {
    pub(crate) whole: u64,
    pub(crate) alpha: u64,
}

// m = D / TTRT rounded down, and α = (m + 1)·TTRT − D, which is TTRT less the remainder; both 0 at TTRT 0.
pub(crate) fn rotations(ttrt: u32, d: u32) -> Turns
    ensures { Rotated ttrt d result }
{
    let both = quotients::divide_narrow(d, ttrt);
    let alpha = u64::from(ttrt.saturating_sub(both.remainder));
    Turns {
        whole: u64::from(both.quotient),
        alpha,
    }
}
