// The output: where it goes is found out before anything is read, and nothing of an old file is touched before all of the new
// one is written beside it. A device or a pipe is written to as it is.
ghost use Rattle.linkage.specs.Made.{Made};

use crate::facts::regular_size;
use crate::path::{folder_of, follow, text_of};
use crate::say::{Told, say, say_failed};
use crate::session::Session;
use crate::source::Name;
use input::write_whole;
use out::{Page, front};
use outputs::Output;
use std::fmt::InlineText;
use std::fs::{File, Metadata, OpenOptions, Permissions};
use std::io::ErrorKind;
use std::os::fd::AsFd;
use std::os::unix::fs::{MetadataExt, PermissionsExt, fchown};
use std::rt::Stdout;
use std::{fs, io, process};

// Where the bytes go: to an open file, or into a file of its own. `force` says that a file which comes to be there in the meantime may
// go.
#[derive(Drop)]
enum Place {
    Standard(Stdout),
    Open(File),
    Beside { force: bool },
}

// Where the output goes, what that is called, and what is known of what is there already.
#[derive(Drop)]
pub(crate) struct Target<'a> {
    place: Place,
    path: &'a [u8],
    pub old: Option<Metadata>,
}

// The name by which the system tells of standard output.
const STANDARD_OUTPUT: &str = "/proc/self/fd/1";

// What is known of standard output.
fn output_facts(session: &Session) -> Option<Metadata> {
    fs::metadata(&session.rt, STANDARD_OUTPUT).ok()
}

// Standard output.
fn standard<'a>(session: &Session) -> Target<'a> {
    Target {
        place: Place::Standard(session.rt.stdout()),
        path: b"standard output",
        old: output_facts(session),
    }
}

// Whether an error says that no file can be made in a folder, and not that it could not be made just now.
fn refuses(error: io::Error) -> bool {
    matches!(
        error.kind(),
        ErrorKind::PermissionDenied
            | ErrorKind::ReadOnlyFilesystem
            | ErrorKind::NotADirectory
            | ErrorKind::FilesystemLoop
    )
}

// The folder that a path is in, by a name.
fn named_folder(path: &[u8]) -> &[u8] {
    match folder_of(path) {
        [] => b".",
        folder => folder,
    }
}

// Tries to make the file of a number beside a path, and removes it at once. The launcher hears of it first. Whether that shows that
// files can be made there, as it does not where the name was taken.
fn try_folder(session: &Session, path: &[u8], k: usize) -> Result<bool, Told> {
    let mut room = [0u8; 4096];
    let part = part_of(session, path, k, &mut room);
    session.tell(part);
    match create(session, part) {
        Ok(_) => {
            unlink(session, part);
            Ok(true)
        }
        Err(e) if e.kind() == ErrorKind::AlreadyExists => Ok(false),
        Err(e) if e.kind() == ErrorKind::NotFound => Err(say(
            session,
            &[b"no folder to write into: ", named_folder(path)],
        )),
        Err(e) if refuses(e) => Err(say_failed(
            session,
            b"cannot write into ",
            named_folder(path),
            e,
        )),
        Err(_) => Ok(true),
    }
}

// Sees that files can be made in the folder of a path, which a file shows that is made and removed at once, under the first name that is
// free.
fn see_writable(session: &Session, path: &[u8]) -> Result<(), Told> {
    for k in 0..100 {
        if try_folder(session, path, k)? {
            return Ok(());
        }
    }
    Ok(())
}

// A file of its own at the end of all links, whose folder can be written to. Its path stands in a buffer.
fn beside<'a>(
    session: &Session,
    name: &[u8],
    old: Option<Metadata>,
    force: bool,
    room: &'a mut [u8],
) -> Result<Target<'a>, Told> {
    let path = match follow(session, name, room) {
        Ok(Some(path)) => path,
        Ok(None) => {
            return Err(say(
                session,
                &[b"cannot write ", name, b": its links lead too far"],
            ));
        }
        Err(e) => return Err(say_failed(session, b"cannot write ", name, e)),
    };
    see_writable(session, path)?;
    Ok(Target {
        place: Place::Beside { force },
        path,
        old,
    })
}

// Says that a file is there, which was not to be overwritten.
fn say_there(session: &Session, name: &[u8]) -> Told {
    say(session, &[name, b" is there already: -f overwrites it"])
}

// What is there already, open for writing: a regular file is replaced where that is allowed, anything else written to.
fn onto<'a>(
    session: &Session,
    name: &'a [u8],
    file: File,
    force: bool,
    room: &'a mut [u8],
) -> Result<Target<'a>, Told> {
    let old = file.metadata().ok();
    if regular_size(&old).is_none() {
        return Ok(Target {
            place: Place::Open(file),
            path: name,
            old,
        });
    }
    drop(file);
    if !force {
        return Err(say_there(session, name));
    }
    beside(session, name, old, force, room)
}

// Opens a file that is there, to write at its end.
fn open_append(session: &Session, name: &[u8]) -> io::Result<File> {
    OpenOptions::new()
        .append(true)
        .open(&session.rt, text_of(name)?)
}

// Where an output of this name goes: into a file of its own where there is none.
pub(crate) fn aim<'a>(
    session: &Session,
    name: Name<'a>,
    force: bool,
    room: &'a mut [u8],
) -> Result<Target<'a>, Told> {
    let Name::File(name) = name else {
        return Ok(standard(session));
    };
    if name.is_empty() {
        return Err(say(session, &[b"-o wants a file's name"]));
    }
    match open_append(session, name) {
        Ok(file) => onto(session, name, file, force, room),
        Err(e) if e.kind() == ErrorKind::NotFound => beside(session, name, None, force, room),
        Err(e) if e.kind() == ErrorKind::IsADirectory => {
            Err(say(session, &[b"a folder, not a file: ", name]))
        }
        Err(e) => Err(say_failed(session, b"cannot write ", name, e)),
    }
}

// ---- writing

// The path of a file that is filled beside another, numbered so that it is new, in a buffer.
fn part_of<'a>(session: &Session, path: &[u8], k: usize, room: &'a mut [u8]) -> &'a [u8] {
    let process = process::id(session.rt.process());
    let name = InlineText::<64>::of(format_args!(".linkage-{process}-{k}"));
    let mut page = Page::over(room);
    page.put_bytes(folder_of(path));
    page.put_bytes(name.as_str().as_bytes());
    let size = page.size();
    front(room, size)
}

// Makes a new file, open for writing.
fn create(session: &Session, path: &[u8]) -> io::Result<File> {
    OpenOptions::new()
        .write(true)
        .create_new(true)
        .open(&session.rt, text_of(path)?)
}

// Removes a file. What is wrong with that nobody is told: what was wrong before it is.
fn unlink(session: &Session, path: &[u8]) {
    if let Ok(text) = text_of(path) {
        let _ = fs::remove_file(&session.rt, text);
    }
}

// A new file beside another, open for writing, and its number.
#[derive(Drop)]
struct Part {
    file: File,
    number: usize,
}

// Makes it. The launcher, which removes it if the program is ended before its time, has heard its path: of the first one when the
// folder was tried, and of any other now.
fn try_part(session: &Session, path: &[u8], number: usize) -> io::Result<Part> {
    let mut room = [0u8; 4096];
    let part = part_of(session, path, number, &mut room);
    if number != 0 {
        session.tell(part);
    }
    let file = create(session, part)?;
    Ok(Part { file, number })
}

// The same under the first name that is free, of a hundred.
fn make_part(session: &Session, path: &[u8]) -> io::Result<Part> {
    for number in 0..99 {
        match try_part(session, path, number) {
            Err(e) if e.kind() == ErrorKind::AlreadyExists => {}
            made => return made,
        }
    }
    try_part(session, path, 99)
}

// Gives a new file the owner, group and mode of the one that it is to replace, as writing into that one would have left them. A new
// file of which nothing can be learned counts as the first user's.
fn keep_mode(file: &File, old: &Option<Metadata>) -> io::Result<()> {
    let Some(old) = old else {
        return Ok(());
    };
    let (owner, group) = match file.metadata() {
        Ok(new) => (new.uid(), new.gid()),
        Err(_) => (0, 0),
    };
    if owner != old.uid() || group != old.gid() {
        fchown(file, Some(old.uid()), Some(old.gid()))?;
    }
    file.set_permissions(Permissions::from_mode(old.mode() % 4096))
}

// The system's number for what a file cannot do, EINVAL.
const NO_SUCH_THING: i32 = 22;

// Waits until a file is on its disk. A file system that has no such thing says EINVAL.
fn settle(file: &File) -> io::Result<()> {
    match file.sync_all() {
        Err(e) if e.raw_os_error() == Some(NO_SUCH_THING) => Ok(()),
        answer => answer,
    }
}

// Fills a new file: every byte written, its mode set, all of it on the disk. It is closed in any case.
fn fill_part(file: File, old: &Option<Metadata>, bytes: &[u8]) -> io::Result<()> {
    let mut to = &file;
    write_whole(&mut to, bytes)?;
    keep_mode(&file, old)?;
    settle(&file)
}

// Whether there is a file.
fn is_there(session: &Session, path: &[u8]) -> bool {
    match text_of(path) {
        Ok(text) => fs::exists(&session.rt, text).unwrap_or(false),
        Err(_) => false,
    }
}

// Gives a file another name.
fn rename(session: &Session, from: &[u8], to: &[u8]) -> io::Result<()> {
    fs::rename(&session.rt, text_of(from)?, text_of(to)?)
}

// Gives a new file the name of its place, unless a file that is not to be overwritten has come to be there.
fn put_in_place(session: &Session, part: &[u8], path: &[u8], force: bool) -> Result<(), Told> {
    if !force && is_there(session, path) {
        return Err(say_there(session, path));
    }
    rename(session, part, path).map_err(|e| say_failed(session, b"cannot write ", path, e))
}

// Fills a new file and gives it the name of its place.
fn complete(
    session: &Session,
    file: File,
    part: &[u8],
    path: &[u8],
    old: &Option<Metadata>,
    force: bool,
    bytes: &[u8],
) -> Result<(), Told> {
    fill_part(file, old, bytes).map_err(|e| say_failed(session, b"cannot write ", path, e))?;
    put_in_place(session, part, path, force)
}

// Writes a file of its own: into a new file beside it, which takes its name when it is whole. Where anything fails the new file
// goes, and the old one is as it was.
fn replace(
    session: &Session,
    path: &[u8],
    old: &Option<Metadata>,
    force: bool,
    bytes: &[u8],
) -> Result<(), Told> {
    let Part { file, number } = make_part(session, path).map_err(|e| say_failed(
        session,
        b"cannot make a new file beside ",
        path,
        e,
    ))?;
    let mut room = [0u8; 4096];
    let part = part_of(session, path, number, &mut room);
    let done = complete(session, file, part, path, old, force, bytes);
    if done.is_err() {
        unlink(session, part);
    }
    done
}

// Writes to an open file and closes it.
fn write_directly(session: &Session, name: &[u8], file: File, bytes: &[u8]) -> Result<(), Told> {
    let mut to = &file;
    let written = write_whole(&mut to, bytes);
    let settled = settle(&file);
    written
        .and(settled)
        .map_err(|e| say_failed(session, b"cannot write to ", name, e))
}

// Opens the file that standard output goes to, and waits until it is on its disk. A file that cannot be opened so is left alone.
fn settle_output(session: &Session) -> io::Result<()> {
    match OpenOptions::new()
        .append(true)
        .open(&session.rt, STANDARD_OUTPUT)
    {
        Ok(file) => settle(&file),
        Err(_) => Ok(()),
    }
}

// What closing standard output would find wrong: that it is closed, or that what was written to a regular file cannot be kept.
pub(crate) fn close_output(session: &Session) -> io::Result<()> {
    let copy = session.rt.stdout().as_fd().try_clone_to_owned()?;
    drop(copy);
    if regular_size(&output_facts(session)).is_none() {
        return Ok(());
    }
    settle_output(session)
}

// Writes to standard output and closes it.
fn write_standard(
    session: &Session,
    name: &[u8],
    stdout: Stdout,
    bytes: &[u8],
) -> Result<(), Told> {
    let mut to = stdout;
    let written = write_whole(&mut to, bytes);
    let closed = close_output(session);
    written
        .and(closed)
        .map_err(|e| say_failed(session, b"cannot write to ", name, e))
}

// Writes what was asked for to its place: all of it, or nothing where a file of its own cannot be whole.
// Its caller shows that these bytes are what was asked for, of what was read.
pub(crate) fn deliver(
    session: &Session,
    asked: Output,
    target: Target,
    bytes: &[u8],
) -> Result<(), Told>
    requires { Made asked bytes.now }
{
    let Target { place, path, old } = target;
    match place {
        Place::Standard(stdout) => write_standard(session, path, stdout, bytes),
        Place::Open(file) => write_directly(session, path, file, bytes),
        Place::Beside { force } => replace(session, path, &old, force, bytes),
    }
}
