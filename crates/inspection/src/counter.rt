// A 32-bit counter, which runs past its top to 0.
ghost use Rattle.std.specs.Prelude.{◌≡◌};
ghost use Rattle.inspection.specs.Counter.{ticks_later, ticks_between};

// What it shows this many ticks later.
pub(crate) fn later(shown: u32, ticks: u32) -> u32
    ensures { result ≡ ticks_later shown ticks }
{
    shown.wrapping_add(ticks)
}

// The ticks from one showing to a later one.
pub(crate) fn between(earlier: u32, later: u32) -> u32
    ensures { result ≡ ticks_between earlier later }
{
    later.wrapping_sub(earlier)
}
