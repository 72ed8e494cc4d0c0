//! Calls on what describes a lane layout.
use crate::reading::{bytes_of, fault_text, short_of_word, written_text};
use std::alloc::Global;
use std::io;
use vx_wire::PatchedMetadata;

pub(crate) fn read_lanes(alloc: Global, words: &str) -> io::Result<String> {
    let bytes = bytes_of(alloc, words)?;
    match PatchedMetadata::decode(bytes.as_slice()) {
        Ok(message) => {
            let PatchedMetadata {
                n_patches,
                n_lanes,
                offset,
            } = message;
            Ok(format!(in alloc; "{n_patches} {n_lanes} {offset}")?)
        }
        Err(fault) => fault_text(alloc, fault),
    }
}

pub(crate) fn rewrite_lanes(alloc: Global, words: &str) -> io::Result<String> {
    let bytes = bytes_of(alloc, words)?;
    match PatchedMetadata::decode(bytes.as_slice()) {
        Ok(message) => written_text(alloc, message.encode(alloc)),
        Err(fault) => fault_text(alloc, fault),
    }
}

pub(crate) fn write_lanes(alloc: Global, words: &str) -> io::Result<String> {
    let mut words = words.split(' ');
    let n_patches = short_of_word(words.next())?;
    let n_lanes = short_of_word(words.next())?;
    let offset = short_of_word(words.next())?;
    let message = PatchedMetadata {
        n_patches,
        n_lanes,
        offset,
    };
    written_text(alloc, message.encode(alloc))
}
