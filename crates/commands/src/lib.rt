// The commands of Olivastrum: their words, what a caller's words ask for, and the status that a command ends with. `commands.txt` has the same table for the script, and `tests/table` holds the two together.
#![tactic(auto)]

pub mod status;
pub mod words;

ghost use Rattle.std.specs.Prelude.{◌≡◌, false};
ghost use Rattle.std.specs.Range.{range_inclusive_start, range_inclusive_end, range_inclusive_exhausted};
ghost use Rattle.commands.specs.Table.{command_at, word_of, Follows};
ghost use Rattle.commands.specs.Words.{same_bytes};
ghost use Rattle.commands.specs.Asked.{command_of, counted_for, asked_for};

use std::ops::RangeInclusive;

// A command for each row of the table.
#[derive(Clone, Copy, PartialEq, Eq)]
pub enum Command {
    Plan,
    PlanSheet,
    Explain,
    Tune,
    Compose,
    Show,
    Run,
    Log,
    Inspect,
    Page,
    Diff,
    Hopper,
    HopperSheet,
    Refit,
    EmptyStore,
    Keep,
    Kept,
    Versions,
    Version,
    Help,
}

// How many commands there are.
pub const COUNT: usize = 20;

// The commands in the order of the table.
const COMMANDS: [Command; COUNT] = [
    Command::Plan,
    Command::PlanSheet,
    Command::Explain,
    Command::Tune,
    Command::Compose,
    Command::Show,
    Command::Run,
    Command::Log,
    Command::Inspect,
    Command::Page,
    Command::Diff,
    Command::Hopper,
    Command::HopperSheet,
    Command::Refit,
    Command::EmptyStore,
    Command::Keep,
    Command::Kept,
    Command::Versions,
    Command::Version,
    Command::Help,
];

// The command at a place of the table; behind the last of them there is none.
pub fn command_at(place: usize) -> Option<Command>
    ensures { result ≡ command_at place }
{
    COMMANDS.get(place).copied()
}

// The command's word.
fn word_of(command: Command) -> &'static [u8]
    ensures { result.now ≡ word_of command }
{
    match command {
        Command::Plan => b"plan",
        Command::PlanSheet => b"plan-sheet",
        Command::Explain => b"explain",
        Command::Tune => b"tune",
        Command::Compose => b"compose",
        Command::Show => b"show",
        Command::Run => b"run",
        Command::Log => b"log",
        Command::Inspect => b"inspect",
        Command::Page => b"page",
        Command::Diff => b"diff",
        Command::Hopper => b"hopper",
        Command::HopperSheet => b"hopper-sheet",
        Command::Refit => b"refit",
        Command::EmptyStore => b"empty-store",
        Command::Keep => b"keep",
        Command::Kept => b"kept",
        Command::Versions => b"versions",
        Command::Version => b"version",
        Command::Help => b"help",
    }
}

// The word is this command's.
fn has_word(command: Command, word: &[u8]) -> bool
    ensures { result ≡ same_bytes word.now (word_of command) }
{
    word == word_of(command)
}

// How many words may follow this one.
fn following(command: Command) -> RangeInclusive<usize>
    ensures ends { Follows command (range_inclusive_start result) (range_inclusive_end result) }
    ensures whole { range_inclusive_exhausted result ≡ false }
{
    match command {
        Command::Plan => 0..=0,
        Command::PlanSheet => 0..=0,
        Command::Explain => 0..=0,
        Command::Tune => 0..=2,
        Command::Compose => 0..=0,
        Command::Show => 0..=0,
        Command::Run => 1..=1,
        Command::Log => 1..=1,
        Command::Inspect => 0..=1,
        Command::Page => 1..=2,
        Command::Diff => 2..=2,
        Command::Hopper => 0..=0,
        Command::HopperSheet => 0..=0,
        Command::Refit => 1..=1,
        Command::EmptyStore => 1..=1,
        Command::Keep => 1..=1,
        Command::Kept => 2..=2,
        Command::Versions => 1..=1,
        Command::Version => 0..=0,
        Command::Help => 0..=0,
    }
}

// The command whose word it is.
fn command_of(word: &[u8]) -> Option<Command>
    ensures { result ≡ command_of word.now }
{
    COMMANDS
        .iter()
        .copied()
        .find(|command| has_word(*command, word))
}

// What a caller's words ask for, where the first of them is a command.
#[derive(Clone, Copy)]
pub enum Asked {
    // A command with as many words as it takes.
    Do(Command),
    // A word too many or too few for this one.
    Miscounted(Command),
}

// The command with so many words behind it.
#[tactic(auto, unfolding(crate::specs::Asked::counted_for))]
fn counted(command: Command, more: usize) -> Asked
    ensures { result ≡ counted_for command more }
{
    if following(command).contains(&more) {
        return Asked::Do(command);
    }
    Asked::Miscounted(command)
}

// What so many words ask for, the first of which is this one, if that is a command; no word at all asks for `plan`.
#[tactic(auto, unfolding(crate::specs::Asked::asked_for))]
pub fn asked_for(word: &[u8], given: usize) -> Option<Asked>
    ensures { result ≡ asked_for word.now given }
{
    if given == 0 {
        return Some(Asked::Do(Command::Plan));
    }
    let command = command_of(word)?;
    Some(counted(command, given - 1))
}
