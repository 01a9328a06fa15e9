// The line of `keep`: `version`, and the number.
ghost use Rattle.text.specs.Pages.{HasRoom, Puts};
ghost use Rattle.command_versions.specs.KeepText.{stored_line};

use text::Page;

pub(crate) fn put_stored(page: &mut Page, version: u32)
    requires { HasRoom 42 page.old }
    ensures { Puts 42 page.old (stored_line version) page.new }
{
    page.put_line(b"version", &[u64::from(version)]);
}
