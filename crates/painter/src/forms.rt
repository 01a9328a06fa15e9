// The words of the page's forms. `tests/page` holds the numbers in them to the log.
use crate::texts;
use command_page::Form;
use std::io::Print;
use streams::complaints::Complain;
use streams::ending::say_filled;
use text::phrases::Phrase;

// What each station did.
fn did(form: Form) -> &'static [u8] {
    match form {
        Form::DidVisits => b"<tr><td>#</td><td>#</td><td>#</td>",
        Form::DidLongest => b"<td>#</td><td>#</td>",
        Form::DidNoTwo => b"<td>-</td><td>#</td>",
        Form::DidSent => b"<td>#</td><td>#</td><td>#</td><td>#</td></tr>\n",
        Form::DidEnd => b"</table>\n",
        _ => b"",
    }
}

// What the mode promises.
fn promise(form: Form) -> &'static [u8] {
    match form {
        Form::Back => b"<li>The token is back at every station within # ticks.</li>\n",
        Form::OnlyShare => b"<li>No station sends more than its S synchronously in a visit.</li>\n",
        Form::InTime =>
            b"<li>Every accepted message that is not withdrawn is sent by its deadline.</li>\n",
        Form::NoDeadline => b"<li>FDDI is retired and promises no deadline.</li>\n",
        Form::Burst =>
            b"<li>As many visits as there are stations, #, send asynchronously at most # ticks.</li>\n",
        Form::Offered =>
            b"<li>Every station that is not switched through is offered asynchronous time.</li>\n",
        Form::NotOffered =>
            b"<li>It is not promised that every station is offered asynchronous time.</li>\n",
        Form::PromisesEnd => b"</ul>\n",
        _ => did(form),
    }
}

// The plan's header, its sums and stations.
fn plan(form: Form) -> &'static [u8] {
    match form {
        Form::PlanBegin => b"<h2>The plan</h2>\n<table>\n",
        Form::Ttrt => b"<tr><td>TTRT, the target time of a rotation</td><td>#</td></tr>\n",
        Form::TimelyMode => b"<tr><td>mode</td><td>1, timely-token, 2003 edition</td></tr>\n",
        Form::FddiMode => b"<tr><td>mode</td><td>2, FDDI, which is retired</td></tr>\n",
        Form::EarlierMode => b"<tr><td>mode</td><td>3, timely-token, 2002 edition</td></tr>\n",
        Form::LongestFrame => b"<tr><td>F, the longest asynchronous frame</td><td>#</td></tr>\n",
        Form::Grid => b"<tr><td>g, the step in which S is held</td><td>#</td></tr>\n",
        Form::Tau => b"<tr><td>tau, all walk times together</td><td>#</td></tr>\n",
        Form::Sum => b"<tr><td>the sum of all S</td><td>#</td></tr>\n",
        Form::Spare => b"<tr><td>A*, the spare time</td><td>#</td></tr>\n",
        Form::Station => b"<tr><td>#</td><td>#</td><td>#</td><td>#</td><td>#</td><td>#</td></tr>\n",
        Form::StationsEnd =>
            b"</table>\n<p>What is promised of a ring that keeps the steps, not read from the log:</p>\n<ul>\n",
        _ => promise(form),
    }
}

// What was expected of a synchronous or an asynchronous amount, and of a mark.
fn source(form: Form) -> &'static [u8] {
    match form {
        Form::SynchronousRule => b"<td>synchronous</td><td>at most #</td><td>#</td>",
        Form::Share => b"<td>S of the station</td></tr>\n",
        Form::ThroughShare => b"<td>the station is switched through</td></tr>\n",
        Form::TickRule =>
            b"<td>asynchronous</td><td>at most #</td><td>#</td><td>the limit</td></tr>\n",
        Form::MarkRule =>
            b"<td>station</td><td>below #, mark 0 or 1</td><td>#, mark #</td><td>N of the plan</td></tr>\n",
        _ => plan(form),
    }
}

// What was expected of a station, a start and a limit.
fn row(form: Form) -> &'static [u8] {
    match form {
        Form::StationRule =>
            b"<td>station</td><td>#</td><td>#</td><td>the station whose turn it is</td></tr>\n",
        Form::FirstStart =>
            b"<td>start</td><td>any</td><td>#</td><td>the first visit may start at any moment</td></tr>\n",
        Form::StartRule =>
            b"<td>start</td><td>#</td><td>#</td><td>start of the visit before #, and what it took, #</td></tr>\n",
        Form::LimitRule => b"<td>limit</td><td>#</td><td>#</td>",
        Form::TimelyLimit => b"<td>TTRT # - (F - 1) # - u # - TRT #, held at 0</td></tr>\n",
        Form::FddiLimit => b"<td>TTRT # - timer #, held at 0</td></tr>\n",
        Form::ThroughLimit => b"<td>the station is switched through</td></tr>\n",
        _ => source(form),
    }
}

// A rule's verdict.
fn verdict(form: Form) -> &'static [u8] {
    match form {
        Form::Kept => b"<tr><td>kept</td>",
        Form::Broken => b"<tr class=\"bad\"><td>broken</td>",
        Form::Behind => b"<tr><td>not judged</td>",
        _ => row(form),
    }
}

// The words of a form that is one piece of text.
fn words(form: Form) -> &'static [u8] {
    match form {
        Form::WordPlanRefused | Form::WordRefused =>
            b"<div class=\"bad\">\n<p class=\"word\">NOT JUDGED</p>\n<pre class=\"finding\">",
        Form::WordAnother =>
            b"<div class=\"bad\">\n<p class=\"word\">ANOTHER PLAN</p>\n<pre class=\"finding\">",
        Form::WordBroken =>
            b"<div class=\"bad\">\n<p class=\"word\">A RULE IS BROKEN</p>\n<pre class=\"finding\">",
        Form::WordAccepted =>
            b"<div class=\"good\">\n<p class=\"word\">ACCEPTED</p>\n<pre class=\"finding\">",
        _ => verdict(form),
    }
}

// What was expected of whole frames.
fn say_frames(rt: &(impl Print + Complain), numbers: [u64; 6]) -> bool {
    let longest = [numbers[2], 0, 0, 0, 0, 0];
    say_filled(
        rt,
        b"<td>asynchronous</td><td>begun below #</td><td>#</td>",
        numbers,
    ) && say_filled(
        rt,
        b"<td>the limit; whole frames of one length up to F #</td></tr>\n",
        longest,
    )
}

// What the finding means, and the named record.
fn say_meaning(rt: &(impl Print + Complain), form: Form, numbers: [u64; 6]) -> bool {
    match form {
        Form::Sentence => texts::sentence(rt, numbers[0]) && texts::not_judged(rt),
        Form::MeansAnother => texts::means(rt) && texts::another(rt),
        Form::MeansBroken => texts::means(rt)
            && say_filled(rt, b"<p>Record # is the first that breaks a rule.", numbers)
            && texts::broken(rt),
        Form::MeansAccepted => texts::means(rt) && texts::accepted(rt),
        Form::Rules => texts::rules(rt),
        Form::NamedVisit => say_filled(rt, b"<h3>Record #, a visit</h3>\n", numbers)
            && texts::named(rt),
        Form::NamedMark => say_filled(rt, b"<h3>Record #, a mark</h3>\n", numbers)
            && texts::named(rt),
        Form::FrameRule => say_frames(rt, numbers),
        Form::NamedEnd => texts::end_named(rt),
        _ => say_filled(rt, words(form), numbers),
    }
}

// A form in its words, with a number in the place of each `#`. F and g are 1 where the plan names none.
fn say_form(rt: &(impl Print + Complain), form: Form, numbers: [u64; 6]) -> bool {
    match form {
        Form::LongestFrame if numbers[0] == 1 => texts::no_frame(rt),
        Form::Grid if numbers[0] == 1 => texts::no_grid(rt),
        Form::StationsBegin => texts::stations(rt),
        Form::DidAll => texts::did(rt)
            && say_filled(rt, b"<p>Records counted: #, all of the log.</p>\n", numbers)
            && texts::did_rows(rt),
        Form::DidBefore => texts::did(rt)
            && say_filled(
                rt,
                b"<p>Records counted: #, those before record #.</p>\n",
                numbers,
            )
            && texts::did_rows(rt),
        Form::Rotations => texts::picture(rt)
            && say_filled(rt, b"<p>Rotations # to # of #.</p>\n", numbers)
            && texts::key(rt),
        Form::NoRotation => texts::picture(rt)
            && say_filled(rt, b"<p>The log has no visit.</p>\n", numbers),
        _ => say_meaning(rt, form, numbers),
    }
}

// Says a part, if there is one.
pub(crate) fn say_part(rt: &(impl Print + Complain), part: Option<Phrase<Form>>) -> bool {
    let Some(part) = part else {
        return true;
    };
    say_form(rt, part.form, part.numbers)
}
