// The asynchronous part: frames of one length, each begun while the time used is below the limit.
ghost use Rattle.std.specs.Prelude.{◌≡◌};
ghost use Rattle.units.specs.Judging.{between};
ghost use Rattle.rings.specs.Bounds.{Offer, FramesSent};

use super::Ask;

// A frame's length is 1 to F.
pub(crate) fn length_fits(length: u32, longest: u32) -> bool
    ensures { result ≡ between 1 longest length }
{
    (1 <= length) & (length <= longest)
}

// Step 4: what the frames take that are sent, at this limit. Of frames of one tick no quotient is asked for.
pub(crate) fn time_sent(limit: u64, ask: Ask) -> u64
    requires { Offer limit ask }
    ensures { FramesSent limit ask result }
{
    if ask.length == 1 {
        return u64::from(ask.frames).min(limit);
    }
    let length = u64::from(ask.length);
    let most = quotients::rounded_up(limit, length);
    let frames = u64::from(ask.frames).min(most);
    frames * length
}
