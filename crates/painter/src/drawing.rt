// The picture: each record that is drawn is put out as it comes.
use crate::shapes;
use picture_stream::{Watching, Window};
use pictures::{Drawing, Pen, Scene};
use std::io::Print;
use streams::complaints::Complain;
use streams::ending;
use text::Page;

// What a log is drawn by: what every record is, and which ones are.
#[derive(Clone, Copy)]
pub(crate) struct Easel {
    pub scene: Scene,
    pub window: Window,
}

// A log that is being read and drawn: what is kept of it, and the pen, as long as all could be written.
#[derive(Clone, Copy)]
pub(crate) struct Canvas {
    pub watching: Watching,
    pub pen: Option<Pen>,
}

// The parts of a record, one behind the other on a page. The first, where it begins a line, has the record's number in its words too, as part 3 has it.
fn put_parts(page: &mut Page, drawing: Drawing) {
    if let (Some(label), Some(record)) = (drawing.part_at(0), drawing.part_at(3)) {
        shapes::put_label(page, label, record);
    }
    for k in 1..pictures::PART_COUNT {
        if let Some(part) = drawing.part_at(k) {
            shapes::put_part(page, part);
        }
    }
}

// Draws a record: the pen behind it, if it could be written.
fn draw(rt: &(impl Print + Complain), drawing: Drawing) -> Option<Pen> {
    let mut buffer = io::large_buffer();
    let mut page = Page::new(&mut buffer);
    put_parts(&mut page, drawing);
    let put = page.length();
    if ending::say_put(rt, &buffer, put) {
        Some(drawing.pen_after())
    } else {
        None
    }
}

// Ends a line that has begun.
pub(crate) fn end(rt: &(impl Print + Complain), pen: Pen) -> bool {
    let mut buffer = io::buffer();
    let mut page = Page::new(&mut buffer);
    if let Some(part) = pictures::line_end(pen) {
        shapes::put_part(&mut page, part);
    }
    let put = page.length();
    ending::say_put(rt, &buffer, put)
}

// The bytes from this place on: each turn goes to the next record that is drawn, a byte further at least.
pub(crate) fn go_over(
    rt: &(impl Print + Complain),
    canvas: Canvas,
    easel: Easel,
    bytes: &[u8],
    from: usize,
) -> Canvas {
    let scene = easel.scene;
    let mut stands = canvas;
    let mut at = from;
    for _ in 0..bytes.len() {
        let watched = picture_stream::watch_on(stands.watching, easel.window, bytes, at);
        stands.watching = watched.watching;
        at = watched.at;
        let (Some(pen), Some(drawn)) = (stands.pen, watched.drawn) else {
            return stands;
        };
        stands.pen = draw(rt, Drawing { scene, pen, drawn });
    }
    stands
}
