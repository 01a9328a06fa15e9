// A line of a text of changes.
ghost use Rattle.std.specs.Prelude.{◌≡◌, ◌≤◌, length};
ghost use Rattle.text.specs.Text.{unread_line, page_size, Printed};
ghost use Rattle.command_hopper.specs.Refits.{told_of, line_changed, answered_text, change_text, EndedLine};

use crate::{Change, Changed, Refit, Refitted, wagon_lines};
use hopper::{Coupled, Train};
use line_reader::Scan;
use text::Page;
use units::{Station, numbers};

// The letters of `change`, `couple` and `uncouple`, each as one number to base 256.
const CHANGE: u64 = 109_299_962_373_989;

const COUPLE: u64 = 109_330_362_821_733;

const UNCOUPLE: u64 = 8_461_810_080_238_562_405;

// A change was asked for: the train then, and the number.
fn told_of(answer: Coupled) -> Changed
    ensures { result ≡ told_of answer }
{
    Changed {
        train: answer.train,
        change: Change::Answered(answer.number),
    }
}

// What a line asks for, and the train then.
fn line_changed(train: Train, s: Scan) -> Changed
    ensures { result ≡ line_changed train s }
{
    if line_reader::is_empty_line(s) {
        return Changed {
            train,
            change: Change::Nothing,
        };
    }
    if command_compose::is_line(s, CHANGE, 4) {
        let place = Station(s.values[0]);
        let wagon = wagon_lines::wagon_in(s, 1);
        return told_of(hopper::change_wagon(train, place, wagon));
    }
    if command_compose::is_line(s, COUPLE, 3) {
        let wagon = wagon_lines::wagon_in(s, 0);
        return told_of(hopper::couple_wagon(train, wagon));
    }
    if command_compose::is_line(s, UNCOUPLE, 0) {
        return told_of(hopper::uncouple_wagon(train));
    }
    Changed {
        train,
        change: Change::Unread,
    }
}

// The plan now in force, or the refusal.
fn put_answered(page: &mut [u8], number: u8, train: Train) -> usize
    requires { page_size ≤ length page.old }
    ensures { Printed (answered_text number train) page.old page.new result }
{
    if number != numbers::ACCEPTED {
        let mut page = Page::new(page);
        page.put_refused(number);
        return page.length();
    }
    let said = crate::hopper_text(train.list, page);
    said.length
}

// The line that cannot be read.
fn put_unread(page: &mut [u8], line: u64) -> usize
    requires { page_size ≤ length page.old }
    ensures { Printed (unread_line line) page.old page.new result }
{
    let mut page = Page::new(page);
    page.put_unread(line);
    page.length()
}

// What is printed of a line; one that cannot be read is named.
fn put_change(page: &mut [u8], change: Change, train: Train, line: u64) -> usize
    requires { page_size ≤ length page.old }
    ensures { Printed (change_text change train line) page.old page.new result }
{
    match change {
        Change::Nothing => 0,
        Change::Answered(number) => put_answered(page, number, train),
        Change::Unread => put_unread(page, line),
    }
}

// A line ends: what it asked for is done, and the answer is put at the start of the page.
pub(crate) fn end_line(refit: Refit, page: &mut [u8]) -> Refitted
    requires { page_size ≤ length page.old }
    ensures { EndedLine refit page.old page.new result }
{
    let done = line_changed(refit.train, refit.scan);
    let length = put_change(page, done.change, done.train, refit.line);
    Refitted {
        refit: Refit {
            train: done.train,
            scan: line_reader::fresh(),
            line: line_reader::next_line(refit.line),
        },
        length,
        unread: done.change.is_unread(),
    }
}
