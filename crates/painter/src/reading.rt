// A log in a file, read from its first byte to its last.
use crate::drawing;
use crate::drawing::{Canvas, Easel};
use picture_stream::Watching;
use std::fs;
use std::fs::Files;
use std::io::{Error, Print, Read, Seek, SeekFrom};
use streams::complaints::Complain;
use streams::reading::Filled;
use streams::{loading, reading};

// A log that was read: what was found and drawn, and how many bytes it has, if it could be read.
#[derive(Clone, Copy)]
pub(crate) struct Reading {
    pub canvas: Canvas,
    pub bytes: Option<u64>,
}

// How a file stands behind one reading more: it goes on, it has ended, or it could not be read.
#[derive(Clone, Copy)]
enum Stand {
    More,
    Ended,
    Failed(Error),
}

// The log behind one reading more: what was found and drawn, how many bytes were read, and how the file stands.
#[derive(Clone, Copy)]
struct Turn {
    canvas: Canvas,
    bytes: u64,
    stand: Stand,
}

// Where an open file ends; none where it has no places, as a pipe. It is read from its first byte on.
fn end_of(file: &mut impl Seek) -> Option<u64> {
    let end = file.seek(SeekFrom::End(0)).ok();
    let _ = file.seek(SeekFrom::Start(0));
    end
}

// Nothing is drawn yet; of the log its first bytes are read.
fn begun_with(head: &[u8]) -> Canvas {
    Canvas {
        watching: picture_stream::watch_start(head),
        pen: Some(pictures::pen_up()),
    }
}

// A log of which nothing can be read.
fn unread() -> Reading {
    Reading {
        canvas: begun_with(b""),
        bytes: None,
    }
}

// A file that cannot be opened is named, with what the system says of it.
fn unopened(rt: &impl Complain, path: &str, error: Error) -> Reading {
    loading::name(rt, b"page: ", path.as_bytes(), error);
    unread()
}

// A file that is no regular one is named too: it cannot be read twice, or has no end.
fn irregular(rt: &impl Complain, path: &str) -> Reading {
    rt.complain(b"page: ");
    rt.complain(path.as_bytes());
    rt.complain(b": not a regular file; a log is read twice\n");
    unread()
}

// How it stands behind so many bytes; a file goes on where a reading of this size was full, and all could be written.
fn behind(canvas: Canvas, bytes: u64, filled: Filled, size: usize) -> Turn {
    let more = (filled.length == size) & canvas.pen.is_some();
    let stand = match filled.failed {
        Some(error) => Stand::Failed(error),
        None if more => Stand::More,
        None => Stand::Ended,
    };
    Turn {
        canvas,
        bytes: bytes.wrapping_add(filled.length as u64),
        stand,
    }
}

// The log behind the last reading; where that failed, the file is named.
fn reading_of(rt: &impl Complain, path: &str, turn: Turn) -> Reading {
    let canvas = turn.canvas;
    if let Stand::Failed(error) = turn.stand {
        loading::name(rt, b"page: ", path.as_bytes(), error);
        return Reading {
            canvas,
            bytes: None,
        };
    }
    Reading {
        canvas,
        bytes: Some(turn.bytes),
    }
}

// The first bytes, in which the plan stands.
fn first(rt: &(impl Print + Complain), file: &mut impl Read, easel: Easel) -> Turn {
    let mut head: [u8; log_stream::FIRST_SIZE] = [0; log_stream::FIRST_SIZE];
    let filled = reading::fill(file, &mut head);
    let bytes = &head[..filled.length];
    let begun = begun_with(bytes);
    let at = begun.watching.inspecting.start.at;
    let canvas = drawing::go_over(rt, begun, easel, bytes, at);
    behind(canvas, 0, filled, log_stream::FIRST_SIZE)
}

// Some bytes more.
fn next(rt: &(impl Print + Complain), file: &mut impl Read, easel: Easel, before: Turn) -> Turn {
    let mut bytes: [u8; 4_096] = [0; 4_096];
    let filled = reading::fill(file, &mut bytes);
    let canvas = drawing::go_over(rt, before.canvas, easel, &bytes[..filled.length], 0);
    behind(canvas, before.bytes, filled, 4_096)
}

// All bytes of an open file that ends there; the turns are counted, up to a number that no log uses up. One that ends at 0 and has bytes is a device.
fn read_open(
    rt: &(impl Print + Complain),
    path: &str,
    file: &mut impl Read,
    end: u64,
    easel: Easel,
) -> Reading {
    let mut turn = first(rt, file, easel);
    if (end == 0) & (turn.bytes > 0) {
        // (where reading failed, that is said first)
        reading_of(rt, path, turn);
        return irregular(rt, path);
    }
    for _ in 0..u64::MAX {
        let Stand::More = turn.stand else {
            return reading_of(rt, path, turn);
        };
        turn = next(rt, file, easel, turn);
    }
    reading_of(rt, path, turn)
}

// The whole of an open file.
fn read_file(
    rt: &(impl Print + Complain),
    path: &str,
    file: &mut (impl Read + Seek),
    easel: Easel,
) -> Reading {
    match end_of(file) {
        Some(end) => read_open(rt, path, file, end, easel),
        None => irregular(rt, path),
    }
}

// The whole file.
pub(crate) fn read_all(rt: &(impl Files + Print + Complain), path: &str, easel: Easel) -> Reading {
    match fs::open(rt, path) {
        Ok(mut file) => read_file(rt, path, &mut file, easel),
        Err(error) => unopened(rt, path, error),
    }
}
