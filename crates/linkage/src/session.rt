// What the program has of the world outside: the system, with the words of the command, and the launcher that hears how it ended.
use input::write_whole;
use out::front;
use std::env::FillError;
use std::fs;
use std::fs::{File, OpenOptions};
use std::os::unix::fs::MetadataExt;
use std::rt::Env;

// Where the launcher hears how it ended: the descriptor 3, which is written to only where it is open for writing.
const LAUNCHER: &str = "/proc/self/fd/3";

// The system, and the launcher where there is one.
#[derive(Drop)]
pub(crate) struct Session {
    pub rt: HostRuntime,
    launcher: Option<File>,
}

// Whether the launcher's descriptor is open for writing: the link that stands for it has that mode.
fn has_launcher(rt: &HostRuntime) -> bool {
    match fs::symlink_metadata(rt, LAUNCHER) {
        Ok(said) => said.mode() / 128 % 2 == 1,
        Err(_) => false,
    }
}

// The launcher's descriptor. It is opened for reading too, since else the system waits for somebody who reads.
fn open_launcher(rt: &HostRuntime) -> Option<File> {
    if !has_launcher(rt) {
        return None;
    }
    OpenOptions::new()
        .read(true)
        .append(true)
        .open(rt, LAUNCHER)
        .ok()
}

impl Session {
    // Begins one.
    pub(crate) fn begin(rt: HostRuntime) -> Session {
        let launcher = open_launcher(&rt);
        Session { rt, launcher }
    }

    // Says a line to the launcher.
    pub(crate) fn tell(&self, words: &[u8]) {
        if let Some(file) = &self.launcher {
            let mut to = file;
            let _ = write_whole(&mut to, words);
            let _ = write_whole(&mut to, b"\n");
        }
    }

    // How many words the command has, the program's name among them.
    pub(crate) fn word_count(&self) -> usize {
        let mut room = [0u8; 1];
        for i in 0..usize::MAX {
            if let Err(FillError::NotPresent) = self.rt.arg(i, &mut room) {
                return i;
            }
        }
        usize::MAX
    }

    // Kept: names and paths stand in buffers of 4,096 bytes, as long as the system lets one be, and are handed on as slices: the project
    // keeps no heap, and a name may be no text, so that a fixed text does not hold it.
    // The word at a place, in a buffer: nothing where there is none, or it is longer than the buffer.
    pub(crate) fn word<'a>(&self, at: usize, room: &'a mut [u8]) -> &'a [u8] {
        let size = self.rt.arg(at, room).unwrap_or(0);
        front(room, size)
    }
}
