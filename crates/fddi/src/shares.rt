// The whole quotient of X. Nothing divides.
ghost use Rattle.fddi.specs.Bounds.{Whole};

// a / b rounded down, by shifting and subtracting; 0 at b = 0.
pub(crate) fn whole(a: u64, b: u64) -> u64
    ensures { Whole a b result }
{
    let both = quotients::divide(a, b);
    both.quotient
}
