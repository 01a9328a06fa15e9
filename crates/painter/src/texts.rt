// The fixed texts of a page.
use std::io::Print;
use streams::complaints::Complain;
use streams::ending;

// The beginning of a page: its head, with the styles.
pub(crate) fn begin(rt: &(impl Print + Complain)) -> bool {
    ending::say(
        rt,
        b"<!DOCTYPE html>
<html xmlns=\"http://www.w3.org/1999/xhtml\" lang=\"en\">
<head>
<title>Olivastrum: what a log says</title>
<style>
body{font:15px/1.45 sans-serif;color:#111;background:#fff;max-width:62em;margin:1.5em auto;padding:0 1em}
h1{font-size:1em;font-weight:normal;color:#444;margin:0 0 .8em}
h2{font-size:1.2em;margin:1.6em 0 .4em}
h3{font-size:1em;margin:1em 0 .3em}
.word{display:inline-block;font-size:1.1em;font-weight:bold;margin:0;padding:.15em .6em;color:#fff;background:#a11}
.good .word{background:#176b2c}
.finding{font:bold 1.7em/1.3 monospace;white-space:pre-wrap;margin:.3em 0;padding:.3em .5em;border-left:.3em solid #a11;background:#fbeeee}
.good .finding{border-color:#176b2c;background:#eef7f0}
table{border-collapse:collapse;margin:.5em 0}
th,td{border:1px solid #999;padding:.15em .5em;text-align:left;vertical-align:top}
.n td,.n th{text-align:right}
.bad td{background:#fbeeee;font-weight:bold}
figure{margin:0 0 .35em}
figcaption{font-size:.8em;color:#333}
svg{display:block;width:100%;height:auto;background:#f4f4f4}
svg *{vector-effect:non-scaling-stroke}
text{font-family:sans-serif;fill:#111;transform-box:fill-box;transform-origin:0 100%;transform:translateX(.3em) scale(1.25)}
.t{display:none}
g:hover .t{display:block}
.s{fill:#1f4e9c;stroke:#fff;stroke-width:.5px}
.a{fill:#f6b73c;stroke:#8a5a00;stroke-width:1px}
.v{stroke:#888;stroke-width:1px}
.m{stroke:#a11;stroke-width:2px;stroke-dasharray:3 3}
.w{stroke:#777;stroke-width:2px}
.l{stroke:#111;stroke-width:1.5px}
.b{stroke:#a11;stroke-width:5px}
.c{fill:#a11}
.f{fill:none;stroke:#a11;stroke-width:3px}
.key span{padding:0 .5em;margin-right:.2em}
.ks{background:#1f4e9c;color:#fff}
.ka{background:#f6b73c}
.kl{border-bottom:2px solid #111}
.kw{border-bottom:2px solid #777}
.km{border-left:2px dashed #a11}
.kb{border-right:4px solid #a11}
.kf{border:2px solid #a11}
footer{margin-top:2em;border-top:1px solid #999;font-size:.85em;color:#333}
@media screen and (max-width:52em){.n{display:block;overflow-x:auto}figure{overflow-x:auto}svg{min-width:44em}}
@page{size:A4;margin:14mm}
@media print{body{font-size:11px;max-width:none;margin:0;padding:0 1px}tr,figure{break-inside:avoid}h2,h3{break-after:avoid}*{print-color-adjust:exact;-webkit-print-color-adjust:exact}}
</style>
</head>
<body>
<h1>Olivastrum: what a log of a token ring says</h1>
",
    )
}

// Behind the finding's own words.
pub(crate) fn end_finding(rt: &(impl Print + Complain)) -> bool {
    ending::say(
        rt,
        b"</pre>
</div>
",
    )
}

// What follows says what the finding means.
pub(crate) fn means(rt: &(impl Print + Complain)) -> bool {
    ending::say(
        rt,
        b"<h2>What that means</h2>
",
    )
}

// Another plan.
pub(crate) fn another(rt: &(impl Print + Complain)) -> bool {
    ending::say(
        rt,
        b"<p>The log was made with another plan than the one that it is held to, so its records were not judged.</p>
<p>A line with three numbers is one of the whole plan: 1 is TTRT, 4 the mode, 5 F, 6 g; then what the plan sheet has, and what the log has. A line with a letter is one of a station: its number, w, C, D, P or S, and both again. A line with old is a station that the plan sheet alone has, one with new a station that the log alone has: w, C, D, P, S.</p>
",
    )
}

// Behind the record that breaks a rule.
pub(crate) fn broken(rt: &(impl Print + Complain)) -> bool {
    ending::say(
        rt,
        b" All records before it keep every rule. What comes behind it was not judged.</p>
",
    )
}

// Every rule is kept.
pub(crate) fn accepted(rt: &(impl Print + Complain)) -> bool {
    ending::say(
        rt,
        b"<p>A ring that was opened with this plan and keeps the published steps could have written just these records: every station had the token in time, none sent more than its S synchronously, and no frame was begun behind a limit.</p>
<p>It does not say that messages met their deadlines, that every station is switched in again when the log ends (see below what each station did), or that the recorder is honest.</p>
",
    )
}

// Every rule is kept, and there is no visit.
pub(crate) fn no_visit(rt: &(impl Print + Complain)) -> bool {
    ending::say(
        rt,
        b"<p>There is no visit in this log, so nothing that a station did was held to the rules. Accepted says only that the log and its plan can be read, and that its marks, if it has any, are 0 or 1 and of stations of the plan. It shows nothing of a trip, and the set must not leave on it.</p>
",
    )
}

// The five rules.
pub(crate) fn rules(rt: &(impl Print + Complain)) -> bool {
    ending::say(
        rt,
        b"<table>
<tr><th>rule</th><th>what a record must have</th><th>what may be wrong where it has not</th></tr>
<tr><td>station</td><td>the station whose turn it is; of a mark a station of the plan, and 0 or 1</td><td>records are missing, doubled or out of order, or the log does not begin where the ring was opened</td></tr>
<tr><td>start</td><td>the start of the visit before and what that one took; the first visit is free; the counter runs past its top to 0</td><td>the counter went wrong, whole rotations are missing or doubled, the walk is not that of the plan, or something was sent that was not written down</td></tr>
<tr><td>limit</td><td>TTRT less F - 1, u and TRT, held at 0; FDDI: TTRT less its timer, held at 0; 0 where the station is switched through</td><td>the station keeps other steps, or another plan, or a mark is missing</td></tr>
<tr><td>synchronous</td><td>at most S; nothing where the station is switched through</td><td>the station sent longer than its share, or the mark that switched it in is missing</td></tr>
<tr><td>asynchronous</td><td>whole frames of one length up to F, each begun below the limit; nothing where the station is switched through</td><td>the station began a frame too late, or a frame too long</td></tr>
</table>
",
    )
}

// The head of the named record's rows.
pub(crate) fn named(rt: &(impl Print + Complain)) -> bool {
    ending::say(
        rt,
        b"<table>
<tr><th></th><th>rule</th><th>expected</th><th>found</th><th>where that comes from</th></tr>
",
    )
}

// Behind the named record's rows.
pub(crate) fn end_named(rt: &(impl Print + Complain)) -> bool {
    ending::say(
        rt,
        b"</table>
<p>u is the sum over all stations of S less what the station last sent of it. TRT is the time since the token was last there, in the 2002 edition since the station's last synchronous part began. An FDDI timer counts with TTRT for each time that it is late. All rows are those of the station whose turn it was.</p>
",
    )
}

// The head of the plan's stations.
pub(crate) fn stations(rt: &(impl Print + Complain)) -> bool {
    ending::say(
        rt,
        b"</table>
<table class=\"n\">
<thead>
<tr><th>station</th><th>w</th><th>C</th><th>D</th><th>P</th><th>S</th></tr>
</thead>
",
    )
}

// What each station did.
pub(crate) fn did(rt: &(impl Print + Complain)) -> bool {
    ending::say(
        rt,
        b"<h2>What each station did</h2>
",
    )
}

// The head of what each station did.
pub(crate) fn did_rows(rt: &(impl Print + Complain)) -> bool {
    ending::say(
        rt,
        b"<table class=\"n\">
<thead>
<tr><th>station</th><th>visits</th><th>of them switched through</th><th>longest time between two visits</th><th>at most</th><th>most synchronous in a visit</th><th>S</th><th>synchronous in all</th><th>asynchronous in all</th></tr>
</thead>
",
    )
}

// The picture begins.
pub(crate) fn picture(rt: &(impl Print + Complain)) -> bool {
    ending::say(
        rt,
        b"<h2>The rotations</h2>
",
    )
}

// What the picture shows.
pub(crate) fn key(rt: &(impl Print + Complain)) -> bool {
    ending::say(
        rt,
        b"<p class=\"key\">A line is a rotation, as many visits as there are stations, one behind the other, and as long as the token may be away. A visit that sent nothing has no number. An arrow at the end of a line says that a visit, or its limit, goes on behind it. <span class=\"ks\">synchronous</span> <span class=\"ka\">asynchronous</span> <span class=\"kw\">walk</span> <span class=\"kl\">limit</span> <span class=\"km\">(number) switched through</span> <span class=\"kb\">bound</span> <span class=\"kf\">the named record</span></p>
",
    )
}

// The second reading was another one.
pub(crate) fn changed(rt: &(impl Print + Complain)) -> bool {
    ending::say(
        rt,
        b"<div class=\"bad\">
<p class=\"word\">THIS PAGE IS NOT VALID: THE LOG WAS CHANGED WHILE IT WAS READ, OR CANNOT BE READ TWICE</p>
</div>
",
    )
}

// A refusal's sentence.
pub(crate) fn sentence(rt: &(impl Print + Complain), number: u64) -> bool {
    match number {
        1 => ending::say(
            rt,
            b"<p>1: the bytes end inside a field, or before the end field.</p>\n",
        ),
        2 => ending::say(
            rt,
            b"<p>2: a field may not stand where it does, has a wrong length, or there are too few or too many stations or allocations.</p>\n",
        ),
        3 => ending::say(rt, b"<p>3: a byte follows the end field.</p>\n"),
        4 => ending::say(
            rt,
            b"<p>4: a number of the plan is outside its range.</p>\n",
        ),
        5 => ending::say(
            rt,
            b"<p>5: the walk times together are 0 or above TTRT.</p>\n",
        ),
        7 => ending::say(
            rt,
            b"<p>7: the allocation of the plan breaks the token rule or the deadline rule of a station, or an S is off the grid.</p>\n",
        ),
        _ => ending::say(rt, b"<p>It is refused.</p>\n"),
    }
}

// Behind the sentence of a refusal.
pub(crate) fn not_judged(rt: &(impl Print + Complain)) -> bool {
    ending::say(
        rt,
        b"<p>Nothing of this log was held to the rules, and the set must not leave on it.</p>\n",
    )
}

// A plan that names no F, and one that names no g.
pub(crate) fn no_frame(rt: &(impl Print + Complain)) -> bool {
    ending::say(
        rt,
        b"<tr><td>F, the longest asynchronous frame</td><td>1 (no frames: asynchronous traffic may stop at any tick)</td></tr>\n",
    )
}

pub(crate) fn no_grid(rt: &(impl Print + Complain)) -> bool {
    ending::say(
        rt,
        b"<tr><td>g, the step in which S is held</td><td>1 (no grid: S may be any whole number)</td></tr>\n",
    )
}

// The plan was named, and it is the log's.
pub(crate) fn plan_named(rt: &(impl Print + Complain)) -> bool {
    ending::say(
        rt,
        b"<p>The log has the plan of the plan sheet that was named.</p>\n",
    )
}

// No plan was named.
pub(crate) fn no_plan_named(rt: &(impl Print + Complain)) -> bool {
    ending::say(
        rt,
        b"<p>No plan sheet was named: whether the log's plan is the one that the set left with was not asked.</p>\n",
    )
}
