// The asynchronous amount of a record: whole frames of one length, the last one begun below the limit.
ghost use Rattle.std.specs.Prelude.{◌≡◌, ◌<◌, ◌≤◌};
ghost use Rattle.units.specs.Judging.{between};
ghost use Rattle.inspection.specs.Frames.{divided_between, frames_fit};

// A number lies in the range from low to high.
fn in_range(low: u32, high: u32, x: u32) -> bool
    ensures { result ≡ between low high x }
{
    (low <= x) & (x <= high)
}

// Some number from low to high divides the amount. Divisors come in pairs, d and amount / d, and the smaller of a pair is tried.
fn divided_between(amount: u32, low: u32, high: u32) -> bool
    requires { (0 < amount) × (1 ≤ low) }
    ensures { result ≡ divided_between amount low high }
{
    let mut d: u32 = 1;
    loop {
        let both = quotients::divide_narrow(amount, d);
        if both.quotient < d {
            return false;
        }
        let whole = both.remainder == 0;
        let fits = in_range(low, high, d) | in_range(low, high, both.quotient);
        if whole & fits {
            return true;
        }
        d += 1;
    }
}

// The amount is nothing, or frames of some length from 1 to the longest give it at this limit.
pub(crate) fn frames_fit(limit: u32, longest: u32, amount: u32) -> bool
    ensures { result ≡ frames_fit limit longest amount }
{
    if amount <= limit {
        return (amount == 0) | (1 <= longest);
    }
    let over = amount - limit;
    if longest <= over {
        return false;
    }
    divided_between(amount, over + 1, longest)
}
