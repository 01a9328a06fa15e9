// How a command is used, and what is said on standard error where the words ask for nothing that can be done.
ghost use Rattle.std.specs.Prelude.{◌≡◌};
ghost use Rattle.streams.specs.Ends.{failed};

use crate::complaints::Complain;
use crate::ending;
use commands::{Command, status, words};
use std::io::Write;

// A command's line: how it is called, and what it does. `commands.txt` has the same, and `tests/table` holds the two together.
pub fn line_of(command: Command) -> &'static [u8] {
    match command {
        Command::Plan =>
            b"olivastrum plan < REQUEST         print the plan of a request sheet, or `refused` and a number\n",
        Command::PlanSheet =>
            b"olivastrum plan-sheet < REQUEST   write the plan sheet of a request sheet\n",
        Command::Explain =>
            b"olivastrum explain < SHEET        say why a request sheet or plan sheet is accepted or refused, in numbers that can be checked by hand\n",
        Command::Tune =>
            b"olivastrum tune [FROM TO] < REQUEST plan the set of a request sheet at every TTRT from FROM to TO, or at all: how many have a plan, and which leaves the largest part of the rotation for asynchronous traffic\n",
        Command::Compose =>
            b"olivastrum compose < TEXT         write the request sheet, plan sheet or log of a text\n",
        Command::Show =>
            b"olivastrum show < SHEET           print a request sheet, plan sheet or log as text\n",
        Command::Run =>
            b"olivastrum run PLAN < CALLS       open the ring of the plan sheet in the file PLAN, and answer each call\n",
        Command::Log =>
            b"olivastrum log PLAN < CALLS       write the log of that run: what a recorder would write\n",
        Command::Inspect =>
            b"olivastrum inspect [PLAN] < LOG   say whether a run could have given the log's records, or the first that breaks a rule; with the plan sheet in the file PLAN, first what differs from that plan\n",
        Command::Page =>
            b"olivastrum page LOG [PLAN]        write a page about the log in the file LOG, for a browser or for paper: the finding, the plan, what each station did, and a picture of the rotations; with PLAN as `inspect`\n",
        Command::Diff =>
            b"olivastrum diff OLD NEW           print the differences of two plan sheets, or `same`\n",
        Command::Hopper =>
            b"olivastrum hopper < LIST          print the plan of a wagon list, or `refused` and a number\n",
        Command::HopperSheet =>
            b"olivastrum hopper-sheet < LIST    write the request sheet of a wagon list\n",
        Command::Refit =>
            b"olivastrum refit LIST < CHANGES   couple the train of the wagon list in the file LIST, and answer each change with the plan in force\n",
        Command::EmptyStore =>
            b"olivastrum empty-store STORE      make the file STORE, a store of plan versions without one\n",
        Command::Keep =>
            b"olivastrum keep STORE < PLAN      keep a plan sheet in STORE as its next version, and print its number\n",
        Command::Kept => b"olivastrum kept STORE N           write the plan sheet of version N\n",
        Command::Versions =>
            b"olivastrum versions STORE         print the kept versions: number, and the first line of the plan\n",
        Command::Version => b"olivastrum version                print the version\n",
        Command::Help => b"olivastrum help                   print this\n",
    }
}

// Writes a command's line, and answers whether all could be written.
pub fn put_line(to: &mut impl Write, command: Command) -> bool {
    to.write_all(line_of(command)).is_ok()
}

// A word that is no command: it is named, and `help` is pointed to.
pub(crate) fn no_command(rt: &impl Complain, word: &[u8]) {
    let name = words::name_of(word);
    rt.complain(b"olivastrum: no command ");
    rt.complain(&name.bytes[..name.length]);
    rt.complain(b"\nolivastrum: `olivastrum help` lists the commands\n");
}

// A word too many or too few: the command's own line.
pub(crate) fn miscounted(rt: &impl Complain, command: Command) {
    rt.complain(b"usage: ");
    rt.complain(line_of(command));
}

// A word that is none of those that the command takes: the command's own line.
pub fn misused(rt: &impl Complain, command: Command) -> u8
    ensures { result ≡ failed }
{
    miscounted(rt, command);
    status::FAILED
}

// A command that this program does not have; the script `olivastrum` knows which one does.
pub fn elsewhere(rt: &impl Complain) -> u8
    ensures { result ≡ failed }
{
    ending::complain(
        rt,
        b"olivastrum: another program of Olivastrum has this command\n",
    )
}
