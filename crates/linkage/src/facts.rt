// What the system says of an open file, where it says anything.
use std::fs::Metadata;
use std::os::unix::fs::MetadataExt;

// How many bytes a regular file has, which keeps what is written to it, as a device or a pipe does not. None of what is no regular file.
pub(crate) fn regular_size(facts: &Option<Metadata>) -> Option<usize> {
    match facts {
        Some(said) if said.is_file() => Some(said.size() as usize),
        _ => None,
    }
}

// A folder.
pub(crate) fn is_folder(facts: &Option<Metadata>) -> bool {
    matches!(facts, Some(said) if said.is_dir())
}

// Two descriptors of one regular file, under whatever names.
pub(crate) fn is_same_file(facts: &Option<Metadata>, other: &Option<Metadata>) -> bool {
    match (facts, other) {
        (Some(a), Some(b)) => {
            a.is_file() && b.is_file() && a.dev() == b.dev() && a.ino() == b.ino()
        }
        _ => false,
    }
}
