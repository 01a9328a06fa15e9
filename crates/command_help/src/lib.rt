// What `help` prints: `commands.txt` has the same, and `tests/table` holds the two together.
#![tactic(auto)]

ghost use Rattle.streams.specs.Ends.{Ends};

use commands::status;
use std::io::{Error, Print};
use streams::complaints::Complain;
use streams::{ending, usage};

// A line for each command.
fn put_commands(rt: &impl Print) -> Result<(), Error> {
    for place in 0..commands::COUNT {
        if let Some(command) = commands::command_at(place) {
            rt.write_all(b"  ")?;
            rt.write_all(usage::line_of(command))?;
        }
    }
    Ok(())
}

// What stands before the commands.
fn put_head(rt: &impl Print) -> Result<(), Error> {
    rt.write_all(
        b"olivastrum: plans timely-token rings of both editions, runs them one visit at a time, and inspects their logs and those of FDDI rings

",
    )
}

// An example of each command on a sheet.
fn put_examples(rt: &impl Print) -> Result<(), Error> {
    rt.write_all(
        b"
With no command it is `plan`. For example:

  olivastrum plan < examples/four-stations.request
  olivastrum plan-sheet < examples/four-stations.request > four.plan
  olivastrum explain < examples/one-tick-short.request
  olivastrum tune 450 550 < examples/hopper-full.request
  olivastrum compose < examples/four-stations.txt > four.request
  olivastrum show < four.plan
  olivastrum run four.plan < examples/worked-run.calls
  olivastrum log four.plan < examples/worked-run.calls > worked.log
  olivastrum inspect < worked.log
  olivastrum inspect four.plan < worked.log
  olivastrum page worked.log > page.html
  olivastrum diff examples/left.plan examples/came-back.plan
  olivastrum hopper < examples/hopper-twelve.wagons
  olivastrum hopper-sheet < examples/hopper-twelve.wagons > twelve.request
  olivastrum refit examples/hopper-twelve.wagons < examples/hopper-refit.changes
  olivastrum empty-store yard.store
  olivastrum keep yard.store < examples/left.plan
  olivastrum versions yard.store
  olivastrum kept yard.store 1 > left.plan

",
    )
}

// The calls and the lines of texts.
fn put_lines(rt: &impl Print) -> Result<(), Error> {
    rt.write_all(
        b"The calls are lines `visit FRAMES`, `visit FRAMES LENGTH`, `message STATION LENGTH ARRIVAL`, `mark STATION` and `unmark STATION`.
A text has, in this order, lines `ttrt TTRT`, `mode M`, `frame F`, `grid G`, `station W C D P` or `station W C D P S`, and behind them `visit STATION START LIMIT SYNC ASYNC` and `mark STATION MARK`, one for each record of a log.
A mode is 3, the 2002 edition of timely-token, or 2, FDDI, which is retired: it is still read, compared, kept and inspected, but `plan`, `plan-sheet`, `run` and `log` refuse it with 16. Without that line it is the 2003 edition.
A wagon list has lines `wagon BOXES BRAKE DOOR`; changes are lines `change PLACE BOXES BRAKE DOOR`, `couple BOXES BRAKE DOOR` and `uncouple`.
README.md and docs/ say what the letters, the numbers of the refusals and the exit statuses mean.
",
    )
}

// All of it, up to what cannot be written.
fn put(rt: &impl Print) -> Result<(), Error> {
    put_head(rt)?;
    put_commands(rt)?;
    put_examples(rt)?;
    put_lines(rt)
}

// All of it.
pub fn print(rt: &(impl Print + Complain)) -> u8
    ensures { Ends 0 result }
{
    if let Err(error) = put(rt) {
        return ending::unwritten_output(rt, error);
    }
    status::DONE
}
