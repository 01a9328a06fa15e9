// Why a call is refused: each refusal of the build definition, with its number. specs/Refusals.antt has the numbers for the statements.

ghost use Rattle.std.specs.Prelude.{◌≡◌};
ghost use Rattle.units.specs.Refusals.{refusal_number, answer_number};

// A refusal, with the number that a host and a sheet's reader are told.
#[derive(Clone, Copy, PartialEq, Eq)]
pub enum Refusal {
    // The sheet ends inside a field, or before the end field.
    CutShort = 1,
    // Wrong tag, wrong length, wrong count of stations or allocations.
    WrongShape = 2,
    // A byte follows the end field.
    RunsOn = 3,
    // A number outside the ranges for w, C, D, P, TTRT, S, the mode, F or g.
    OutOfRange = 4,
    // τ is 0 or above TTRT.
    BadWalkTime = 5,
    // Planning: no allocation exists.
    NoAllocation = 6,
    // A given allocation breaks the token or deadline rule, or is off the grid.
    RulesBroken = 7,
    // Ring state unsound.
    Unsound = 8,
    // Station number not below N.
    NoSuchStation = 9,
    // Message length 0 or above C.
    BadLength = 10,
    // That station still holds an unsent message.
    StillHeld = 11,
    // Arrival time not allowed.
    BadArrival = 12,
    // Visit: the clock is above 1,000,000,000,000.
    ClockTooHigh = 13,
    // Output buffer too short.
    BufferTooShort = 14,
    // The arrival is later than the ring's clock.
    NotArrived = 15,
    // Planning or opening: FDDI is retired.
    Retired = 16,
    // No such version: it was dropped, or never given.
    NoVersion = 17,
    // The version numbers are used up.
    VersionsUsed = 18,
}

impl Refusal {
    // Its number.
    pub fn number(self) -> u8
        ensures { result ≡ refusal_number self }
    {
        self as u8
    }
}

// 0 where a call was accepted, else the number of its refusal.
pub fn answer_number<T: Drop>(answer: Result<T, Refusal>) -> u8
    ensures { result ≡ answer_number answer }
{
    match answer {
        Ok(_) => 0,
        Err(refusal) => refusal.number(),
    }
}
