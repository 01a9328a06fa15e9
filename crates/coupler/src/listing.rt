// A wagon list read from an open file, piece by piece to its end.
use command_hopper::Listing;
use std::io::{Error, Read};
use streams::hearing;
use streams::hearing::{Cut, Take};

// The system's number for a file that is too large.
const TOO_LARGE: i32 = 27;

// The list behind what was read.
#[derive(Clone, Copy)]
struct Listed {
    listing: Listing,
}

impl Take<(), Error> for Listed {
    fn take(self, _: &(), text: &[u8]) -> Result<Listed, Error> {
        Ok(Listed {
            listing: command_hopper::list_bytes(self.listing, text),
        })
    }
}

// The wagon list in an open file; its last line may lack its newline. Where reading fails, or the list does not end, the caller says so.
pub(crate) fn read(from: &mut impl Read) -> Result<Listing, Error> {
    let mut text: [u8; 256] = [0; 256];
    let begun = Listed {
        listing: command_hopper::begin_list(),
    };
    match hearing::take_all(&(), from, &mut text, begun) {
        Ok(listed) => Ok(command_hopper::list_byte(listed.listing, b'\n')),
        Err(Cut::Taking(error)) => Err(error),
        Err(Cut::Reading(error)) => Err(error),
        Err(Cut::Endless) => Err(Error::from_raw_os_error(TOO_LARGE)),
    }
}
