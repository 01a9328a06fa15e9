// The words of each form. `#` stands for the next of its numbers.
use command_explain::Form;

// What the mode promises.
fn promise(form: Form) -> &'static [u8] {
    match form {
        Form::Back => b"the token is back within #\n",
        Form::OnlyShare => b"no station sends more than its S synchronously in a visit\n",
        Form::InTime => b"every accepted message that is not withdrawn is sent by its deadline\n",
        Form::Burst => b"any # visits send asynchronously at most #\n",
        Form::OwnBurst => b"any visit sends asynchronously at most #\n",
        Form::Offered =>
            b"every station that is not switched through is offered asynchronous time\n",
        Form::NotOffered => b"it is not promised that every station is offered asynchronous time\n",
        Form::NoDeadline =>
            b"it meets the rules of FDDI, which is retired and promises no deadline\n",
        _ => b"",
    }
}

// The sum of S, and FDDI.
fn sum(form: Form) -> &'static [u8] {
    match form {
        Form::Sum => b"sum of S # tau # F-1 # TTRT #\n",
        Form::Missing => b"available # missing #\n",
        Form::Spare => b"available # A* #\n",
        Form::GridCause => b"the grid is the cause: without it there is a plan\n",
        Form::Retired => b"mode 2 is FDDI, which is retired: no plan is made with it\n",
        Form::Readable => b"show prints this sheet, and compose writes it again\n",
        Form::Again => b"without its mode it is a request for timely-token\n",
        _ => promise(form),
    }
}

// What a station of a given plan holds.
fn held(form: Form) -> &'static [u8] {
    match form {
        Form::Held => b" X(S) #\n",
        Form::HeldMore => b" X(S) #, more than need be by #\n",
        Form::HeldShort => b" X(S) #, below C\n",
        Form::HeldOff => b" X(S) #, off the grid\n",
        Form::HeldShortOff => b" X(S) #, below C, off the grid\n",
        _ => sum(form),
    }
}

// What the S of a station rests on.
fn station(form: Form) -> &'static [u8] {
    match form {
        Form::Grounds => b"station # C # D # m # alpha # S #",
        Form::FddiGrounds => b"station # C # D # q # r # S #",
        Form::End => b"\n",
        Form::TooMuch => b", more than there is\n",
        Form::Times => b" X(S) # X(S-g) # largest C #\n",
        Form::FirstTime => b" X(S) # X(S-g) - largest C #\n",
        _ => held(form),
    }
}

// Numbers of a station that are out of their ranges, and walk times.
fn station_range(form: Form) -> &'static [u8] {
    match form {
        Form::WalkOut => b"station # w # is not in # to #\n",
        Form::LongestOut => b"station # C # is not in # to #\n",
        Form::DeadlineOut => b"station # D # is not in # to #\n",
        Form::GapOut => b"station # P # is not in # to #\n",
        Form::ShareOut => b"station # S # is not in # to #\n",
        Form::TauOut => b"tau # is not in # to TTRT #\n",
        Form::Walk => b"station # w #\n",
        _ => station(form),
    }
}

// Numbers of the header that are out of their ranges.
fn header_range(form: Form) -> &'static [u8] {
    match form {
        Form::TtrtOut => b"TTRT # is not in # to #\n",
        Form::ModeOut => b"mode # is not in # to #\n",
        Form::FrameOut => b"F # is not in # to #\n",
        Form::GridOut => b"g # is not in # to #\n",
        Form::ModeOne => b"mode # is not in # to #, leave the field out\n",
        Form::FrameOne => b"F # is not in # to #, leave the field out\n",
        Form::GridOne => b"g # is not in # to #, leave the field out\n",
        _ => station_range(form),
    }
}

// What may stand there.
fn kind(form: Form) -> &'static [u8] {
    match form {
        Form::MayTtrt => b"may stand: tag # length #, TTRT\n",
        Form::MayStation => b"may stand: tag # length #, station\n",
        Form::MayShare => b"may stand: tag # length #, S\n",
        Form::MayMode => b"may stand: tag # length #, mode\n",
        Form::MayFrame => b"may stand: tag # length #, F\n",
        Form::MayGrid => b"may stand: tag # length #, g\n",
        Form::MayEnd => b"may stand: tag # length #, end\n",
        Form::MayNothing => b"may stand: nothing\n",
        _ => header_range(form),
    }
}

// The verdict, the header, and what stands at a first fault.
pub(crate) fn words(form: Form) -> &'static [u8] {
    match form {
        Form::Refused => b"refused #\n",
        Form::Planned => b"plan # # # #\n",
        Form::Accepted => b"accepted # # # #\n",
        Form::Header => b"TTRT # mode # F # g #\n",
        Form::AsRequest => b"read as a request\n",
        Form::AsPlan => b"read as a plan\n",
        Form::Start => b"byte # tag # length # left #\n",
        Form::Left => b"byte # left #\n",
        _ => kind(form),
    }
}
