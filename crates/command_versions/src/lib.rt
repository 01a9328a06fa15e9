// What the commands on a store put out, as functions on bytes: the line of `keep`, the lines of `versions`, and for `kept` where a version's plan stands.
#![tactic(auto)]

mod listing;
mod saying;
mod words;

ghost use Rattle.std.specs.Prelude.{◌≡◌, ◌*◌};
ghost use Rattle.text.specs.Text.{Says};
ghost use Rattle.text.specs.Pages.{HasRoom, Puts};
ghost use Rattle.versions.specs.Answers.{versions_in};
ghost use Rattle.command_versions.specs.VersionsText.{versions_printed};
ghost use Rattle.command_versions.specs.KeepText.{keep_printed};
ghost use Rattle.command_versions.specs.Kept.{KeptAt};

use text::{PAGE_SIZE, Page, Said};
use units::numbers;
use versions::StoredPlan;

// A version's plan in a store: from one place up to another, and 0; or the refusal, with no byte.
#[derive(Clone, Copy)]
pub struct KeptPlan {
    pub from: usize,
    pub end: usize,
    pub number: u8,
}

// The line of a plan that was stored, or the refusal.
fn put_kept(page: &mut Page, stored: StoredPlan)
    requires { HasRoom 42 page.old }
    ensures { Puts 42 page.old (keep_printed stored) page.new }
{
    let number = stored.number;
    if number != numbers::ACCEPTED {
        page.put_refused(number);
        return;
    }
    saying::put_stored(page, stored.version);
}

// What `keep` prints of what storing answered, put at the start of the page, and its number.
pub fn keep_text(stored: StoredPlan, page: &mut [u8]) -> Said
    ensures { Says (keep_printed stored) stored.number page.old page.new result }
{
    if page.len() < PAGE_SIZE {
        return Said {
            length: 0,
            number: numbers::BUFFER_TOO_SHORT,
        };
    }
    let mut page = Page::new(page);
    put_kept(&mut page, stored);
    Said {
        length: page.length(),
        number: stored.number,
    }
}

// The lines of the kept versions, or the refusal, and its number.
fn put_listed(page: &mut Page, area: &[u8]) -> u8
    requires { HasRoom (125 * 16) page.old }
    ensures text { Puts (125 * 16) page.old (versions_printed area.now) page.new }
    ensures number { result ≡ (versions_in area.now).number }
{
    let kept = versions::versions_in(area);
    let number = kept.number;
    if number != numbers::ACCEPTED {
        page.put_refused(number);
        return number;
    }
    listing::put_versions(page, area, kept);
    number
}

// What `versions` prints of a store's bytes, put at the start of the page, and its number.
pub fn versions_text(area: &[u8], page: &mut [u8]) -> Said
    ensures { Says (versions_printed area.now) (versions_in area.now).number page.old page.new result }
{
    if page.len() < PAGE_SIZE {
        return Said {
            length: 0,
            number: numbers::BUFFER_TOO_SHORT,
        };
    }
    let mut page = Page::new(page);
    let number = put_listed(&mut page, area);
    Said {
        length: page.length(),
        number,
    }
}

// Where the plan stands of the version that a whole number asks for.
pub fn find_kept(area: &[u8], word: &[u8]) -> KeptPlan
    ensures { KeptAt area.now word.now result }
{
    let version = words::version_asked(word);
    let found = versions::find_version(area, version);
    if found.number != numbers::ACCEPTED {
        return KeptPlan {
            from: 0,
            end: 0,
            number: found.number,
        };
    }
    let from = found.place;
    let end = from + found.length;
    KeptPlan {
        from,
        end,
        number: numbers::ACCEPTED,
    }
}
