// `tune`: the request sheet on standard input, planned at every TTRT of a range.
ghost use Rattle.command_tune.specs.Tune.{TriedAll};

use crate::lines;
use command_tune::Tune;
use commands::{Command, status};
use std::env::Env;
use std::io::{Input, Print};
use std::time::Clock;
use streams::complaints::Complain;
use streams::{ending, hearing, usage, words};
use text::Page;

// The second by the clock that was seen last, and how often it was another one, up to two: then more than a second has passed.
#[derive(Clone, Copy)]
struct Watch {
    second: u64,
    changes: u8,
}

// The second by the clock; 0 where it cannot be read.
fn second_of(rt: &impl Clock) -> u64 {
    rt.since_1970().map_or(0, |now| now.as_secs())
}

// Looks at the clock again.
fn watched(rt: &impl Clock, watch: Watch) -> Watch {
    let now = second_of(rt);
    if now == watch.second {
        return watch;
    }
    Watch {
        second: now,
        changes: watch.changes.saturating_add(1).min(2),
    }
}

// Says how far it is.
fn say_progress(rt: &impl Complain, k: Tune) {
    let mut buffer = io::buffer();
    let mut page = Page::new(&mut buffer);
    let from = u64::from(k.from);
    let tried = k.next.saturating_sub(from);
    let all = (u64::from(k.to) + 1).saturating_sub(from);
    page.put_filled(b"\rolivastrum: tried # of #", [tried, all, 0, 0, 0, 0]);
    let put = page.length();
    ending::warn_put(rt, &buffer, put);
}

// Where it is shown how far it is, and from the second second on, says that once for each.
fn show(rt: &impl Complain, shown: bool, before: Watch, later: Watch, k: Tune) {
    let due = shown & (later.changes == 2) & (later.second != before.second);
    if due {
        say_progress(rt, k);
    }
}

// Tries every TTRT. Where standard error is a terminal, it says from the second second on how far it is.
fn try_all(rt: &(impl Clock + Complain), first: Tune) -> Tune
    ensures { TriedAll first result }
{
    let shown = rt.is_watched();
    let mut watch = Watch {
        second: second_of(rt),
        changes: 0,
    };
    let mut k = first;
    while !command_tune::is_done(k) {
        k = command_tune::go_on(k);
        let later = watched(rt, watch);
        show(rt, shown, watch, later, k);
        watch = later;
    }
    if shown & (watch.changes == 2) {
        rt.complain(b"\r\x1b[K");
    }
    k
}

// The whole number that the word at this place writes, if it is one.
fn number_at(rt: &impl Env, place: usize) -> Option<u64> {
    let mut buffer = io::buffer();
    let length = words::whole_word(rt, place, &mut buffer).ok()?;
    let word = &buffer[..length];
    if number_words::is_whole(word) {
        return Some(number_words::value_of(word));
    }
    None
}

// The same of the request sheet on standard input, from FROM to TO.
fn tune_from(rt: &(impl Clock + Input + Print + Complain), from: u64, to: u64) -> u8 {
    let mut sheet: [u8; sheets::REQUEST_READ] = [0; sheets::REQUEST_READ];
    let Ok(length) = hearing::fill(rt, &mut rt.reader(), &mut sheet) else {
        return status::FAILED;
    };
    let k = try_all(rt, command_tune::begin(&sheet[..length], from, to));
    let said = (0..command_tune::line_count(k))
        .filter_map(|i| command_tune::line_at(k, i))
        .all(|line| ending::say_filled(rt, lines::words(line.form), line.numbers));
    if !said {
        return status::FAILED;
    }
    status::status_of(command_tune::number_of(k))
}

// `tune`: FROM and TO are the words at these places; without words all TTRT are tried.
pub(crate) fn tune(
    rt: &(impl Env + Clock + Input + Print + Complain),
    second: usize,
    third: usize,
) -> u8 {
    if !words::is_given(rt, second) {
        return tune_from(rt, 1, 1_000_000);
    }
    let (Some(from), Some(to)) = (number_at(rt, second), number_at(rt, third)) else {
        return usage::misused(rt, Command::Tune);
    };
    tune_from(rt, from, to)
}
