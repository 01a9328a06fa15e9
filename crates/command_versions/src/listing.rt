// The lines of `versions`: one for each kept version, oldest first.
ghost use Rattle.std.specs.Prelude.{◌≡◌, ◌+◌, ◌-◌, ◌*◌, ◌≤◌, length, take, drop};
ghost use Rattle.text.specs.Pages.{HasRoom, Puts};
ghost use Rattle.sheets.specs.Reading.{read_plan};
ghost use Rattle.versions.specs.Answers.{versions_in};
ghost use Rattle.command_versions.specs.VersionsText.{plan_in, line_words, version_line, line_in, count_from, version_lines};

use plans::Alloc;
use sets::Set;
use sheets::ReadPlan;
use text::Page;
use versions::VersionsIn;

// The words of a version's line: its number, `plan`, N, TTRT, τ, A*.
fn put_words(page: &mut Page, version: u64, n: u64, ttrt: u64, tau: u64, spare: u64)
    requires { HasRoom 125 page.old }
    ensures { Puts 125 page.old (line_words version n ttrt tau spare) page.new }
{
    page.put_number(version);
    page.put_line(b" plan", &[n, ttrt, tau, spare]);
}

// The line of a version: its number, and the first line of its plan.
fn put_line(page: &mut Page, version: u32, t: Set, a: Alloc)
    requires { HasRoom 125 page.old }
    ensures { Puts 125 page.old (version_line version t a) page.new }
{
    let number = u64::from(version);
    let n = u64::from(t.n);
    let ttrt = u64::from(t.head.ttrt);
    let tau = sets::walk_time(t);
    let spare = plans::spare(t, a);
    put_words(page, number, n, ttrt, tau, spare);
}

// The plan that stands from one place up to another, read.
fn read_from(area: &[u8], from: usize, end: usize) -> ReadPlan
    requires { (from ≤ end) × (end ≤ length area.now) }
    ensures { result ≡ read_plan (take (end - from) (drop from area.now)) }
{
    sheets::read_plan(&area[from..end])
}

// The plan of a kept version, read.
fn plan_in(area: &[u8], version: u32) -> ReadPlan
    ensures { result ≡ plan_in area.now version }
{
    let found = versions::find_version(area, version);
    let from = found.place;
    let end = from + found.length;
    read_from(area, from, end)
}

// How many versions are kept.
fn count_from(oldest: u32, newest: u32) -> u32
    requires { oldest ≤ newest }
    ensures { result ≡ count_from oldest newest }
{
    if oldest == 0 {
        return 0;
    }
    newest - oldest + 1
}

// The line of a kept version.
fn put_version(page: &mut Page, area: &[u8], version: u32)
    requires { HasRoom 125 page.old }
    ensures { Puts 125 page.old (line_in area.now version) page.new }
{
    let plan = plan_in(area, version);
    put_line(page, version, plan.set, plan.alloc);
}

// A line for each kept version.
pub(crate) fn put_versions(page: &mut Page, area: &[u8], kept: VersionsIn)
    requires { (kept ≡ versions_in area.now) × HasRoom (125 * 16) page.old }
    ensures { Puts (125 * 16) page.old (version_lines area.now) page.new }
{
    let oldest = kept.oldest;
    let n = count_from(oldest, kept.newest);
    for i in 0..n {
        put_version(page, area, oldest + i);
    }
}
