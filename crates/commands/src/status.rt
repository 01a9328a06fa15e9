// The status that a command ends with.
ghost use Rattle.std.specs.Prelude.{◌≡◌};
ghost use Rattle.commands.specs.Status.{status_of};

// What was asked for was done.
pub const DONE: u8 = 0;

// It was refused, and a number was said.
pub const REFUSED: u8 = 1;

// The words asked for no command, or something could not be read or written.
pub const FAILED: u8 = 2;

// The status of an answer with this number, 0 where nothing is refused.
pub fn status_of(number: u8) -> u8
    ensures { result ≡ status_of number }
{
    if number == 0 {
        return DONE;
    }
    REFUSED
}
