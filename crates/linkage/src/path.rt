// Paths: the folder in front of a name, and the file at the end of its links.
use crate::session::Session;
use out::{Page, front};
use std::str::from_utf8;
use std::{fs, io};

// The system's number for bytes that are no text, EILSEQ.
const BAD_TEXT: i32 = 84;

// A path as the library takes it. It takes text alone: a name of other bytes is refused, in the system's words for such bytes.
pub(crate) fn text_of(path: &[u8]) -> io::Result<&str> {
    from_utf8(path).map_err(|_| io::Error::from_raw_os_error(BAD_TEXT))
}

// The folder in front of a name, with the slash after it: nothing where the path has no slash.
pub(crate) fn folder_of(path: &[u8]) -> &[u8] {
    match path.iter().rposition(|byte| *byte == b'/') {
        Some(n) => &path[..=n],
        None => &[],
    }
}

// Stores bytes from a place of a buffer on; the place after them.
fn put_at(room: &mut [u8], at: usize, bytes: &[u8]) -> usize {
    let mut page = Page { buffer: room, at };
    page.put_bytes(bytes);
    page.size()
}

// What is found at a path: no link, a link, in whose place now stands a path of so many bytes where it leads, or one that leads to
// a path that is longer than a path can be.
#[derive(Clone, Copy)]
enum Followed {
    NoLink,
    To(usize),
    TooFar,
}

// Where the link at a path leads, in the place of the path, which has so many bytes.
fn follow_once(session: &Session, room: &mut [u8], size: usize) -> io::Result<Followed> {
    let path = front(room, size);
    let target = match fs::read_link(&session.rt, text_of(path)?) {
        Ok(target) => target,
        Err(e) if e.raw_os_error().is_some() => return Ok(Followed::NoLink),
        Err(e) => return Err(e),
    };
    let link = target.as_path().as_os_str().as_bytes();
    let kept = match link {
        [] => return Ok(Followed::NoLink),
        [b'/', ..] => 0,
        _ => folder_of(path).len(),
    };
    if 4095 < kept.saturating_add(link.len()) {
        return Ok(Followed::TooFar);
    }
    Ok(Followed::To(put_at(room, kept, link)))
}

// Follows the links at a path, in a buffer: the path at their end. At most forty, as the system does; none where they are more, or lead
// too far. It fails where a link leads to what is no text, or no memory is left.
pub(crate) fn follow<'a>(
    session: &Session,
    path: &[u8],
    room: &'a mut [u8],
) -> io::Result<Option<&'a [u8]>> {
    let mut size = put_at(room, 0, path);
    for _ in 0..40 {
        match follow_once(session, room, size)? {
            Followed::NoLink => return Ok(Some(front(room, size))),
            Followed::To(there) => size = there,
            Followed::TooFar => return Ok(None),
        }
    }
    Ok(None)
}
