// Quotients by shifting and subtracting: the whole quotient with its remainder, the share rounded up, and multiples of a grid. No function here divides.
#![tactic(auto)]

ghost use Rattle.std.specs.Prelude.{◌≡◌, ◌<◌, ◌≤◌, min};
ghost use Rattle.units.specs.Grid.{on_grid, all_on_grid};
ghost use Rattle.units.specs.Places.{at};
ghost use Rattle.quotients.specs.Division.{Divided, Share};
ghost use Rattle.quotients.specs.Steps.{Stepped};
ghost use Rattle.quotients.specs.Turns.{Raised};

// A whole quotient, and what is left over.
#[derive(Clone, Copy)]
pub struct Division<T> {
    pub quotient: T,
    pub remainder: T,
}

// The divisor doubled as often as it stays at most the dividend: one turn for each bit of the quotient below its highest.
fn raised(dividend: u64, divisor: u64) -> u64
    requires { (0 < divisor) × (divisor ≤ dividend) }
    ensures { Raised dividend divisor result }
{
    let mut part = divisor;
    while part <= dividend - part {
        part += part;
    }
    part
}

// Back down from the raised divisor: it is halved turn by turn, and taken off the rest wherever it fits.
fn lowered(dividend: u64, divisor: u64, highest: u64) -> Division<u64>
    requires { (0 < divisor) × Raised dividend divisor highest }
    ensures { Divided dividend divisor result.quotient result.remainder }
{
    let mut part = highest;
    let mut quotient: u64 = 1;
    let mut rest = dividend - highest;
    while divisor < part {
        part = part >> 1;
        quotient += quotient;
        if part <= rest {
            rest -= part;
            quotient += 1;
        }
    }
    Division {
        quotient,
        remainder: rest,
    }
}

// The whole quotient and the remainder. A divisor of 0, or above the dividend, is never taken off: the quotient is 0, and all is left over.
pub fn divide(dividend: u64, divisor: u64) -> Division<u64>
    ensures { Divided dividend divisor result.quotient result.remainder }
{
    if 0 < divisor && divisor <= dividend {
        return lowered(dividend, divisor, raised(dividend, divisor));
    }
    Division {
        quotient: 0,
        remainder: dividend,
    }
}

// The quotient rounded up. By 0 it is 0.
pub fn rounded_up(dividend: u64, divisor: u64) -> u64
    ensures { Share dividend divisor result }
{
    if divisor == 0 {
        return 0;
    }
    let both = divide(dividend, divisor);
    if both.remainder == 0 {
        both.quotient
    } else {
        both.quotient + 1
    }
}

// The whole quotient and the remainder of 32-bit numbers.
pub fn divide_narrow(dividend: u32, divisor: u32) -> Division<u32>
    ensures { Divided dividend divisor result.quotient result.remainder }
{
    let both = divide(u64::from(dividend), u64::from(divisor));
    let quotient = both.quotient as u32;
    let remainder = both.remainder as u32;
    Division {
        quotient,
        remainder,
    }
}

// ---- multiples of a grid

// The most shares, and what they must be enough for, that leave room to multiply.
const MOST_SHARES: u64 = 4_294_967_296;

const MOST_NEED: u64 = 4_611_686_018_427_387_904;

// The smallest multiple of the grid of which so many shares are enough. 0 in steps of 0 or shared among nobody, and where the numbers are too large to multiply.
pub fn stepped(grid: u32, shares: u64, need: u64) -> u64
    ensures { Stepped grid shares need result }
{
    if MOST_SHARES < shares || MOST_NEED < need {
        return 0;
    }
    let step = u64::from(grid);
    rounded_up(need, shares * step) * step
}

// The number is a multiple of the grid; on a grid of 1 nothing is divided.
fn on_grid(grid: u32, number: u32) -> bool
    ensures { result ≡ on_grid grid number }
{
    if grid == 1 {
        return true;
    }
    let both = divide(u64::from(number), u64::from(grid));
    both.remainder == 0
}

// Each of the first n numbers, of which there are 128, is a multiple of the grid.
pub fn all_on_grid(grid: u32, n: u32, numbers: &[u32; 128]) -> bool
    ensures { result ≡ all_on_grid grid (min n 128) (at numbers.now) }
{
    let mut all = true;
    for number in &numbers[..units::places(n)] {
        all &= on_grid(grid, *number);
    }
    all
}
