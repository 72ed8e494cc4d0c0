//! Calls on what describes patches.
use crate::reading::{
    bytes_of, fault_text, optional_ptype, optional_size, ptype_of, size_of_word, written_text,
};
use std::alloc::{AllocError, Global};
use std::io;
use vx_base::{DType, Nullability, WireFault};
use vx_wire::PatchesMetadata;

/// Adds a length, or why it is none.
fn push_size(text: &mut String, size: Result<usize, WireFault>) -> Result<(), AllocError> {
    match size {
        Ok(number) => write!(text, "{number} ")?,
        Err(fault) => write!(text, "{fault:?} ")?,
    }
    Ok(())
}

fn push_optional(text: &mut String, number: Option<u64>) -> Result<(), AllocError> {
    match number {
        Some(number) => write!(text, "{number}")?,
        None => text.push('-')?,
    }
    Ok(())
}

/// Adds the name of a type of integers without null.
fn push_dtype(text: &mut String, dtype: &DType) -> Result<(), AllocError> {
    match dtype {
        DType::Primitive(ptype, Nullability::NonNullable) => write!(text, "{ptype:?}")?,
        _ => text.push_str("another type")?,
    }
    Ok(())
}

fn push_type(text: &mut String, dtype: &Result<DType, WireFault>) -> Result<(), AllocError> {
    match dtype {
        Ok(dtype) => push_dtype(text, dtype),
        Err(fault) => {
            write!(text, "{fault:?}")?;
            Ok(())
        }
    }
}

fn push_optional_type(
    text: &mut String,
    dtype: &Result<Option<DType>, WireFault>,
) -> Result<(), AllocError> {
    match dtype {
        Ok(Some(dtype)) => push_dtype(text, dtype),
        Ok(None) => text.push('-'),
        Err(fault) => {
            write!(text, "{fault:?}")?;
            Ok(())
        }
    }
}

/// The fields of the message.
fn fields(alloc: Global, message: &PatchesMetadata) -> Result<String, AllocError> {
    let mut text = String::new(alloc);
    push_size(&mut text, message.len())?;
    push_size(&mut text, message.offset())?;
    push_type(&mut text, &message.indices_dtype())?;
    text.push(' ')?;
    push_optional(&mut text, message.chunk_offsets_len())?;
    text.push(' ')?;
    push_optional_type(&mut text, &message.chunk_offsets_dtype())?;
    text.push(' ')?;
    push_optional(&mut text, message.offset_within_chunk())?;
    Ok(text)
}

pub(crate) fn read_patches(alloc: Global, words: &str) -> io::Result<String> {
    let bytes = bytes_of(alloc, words)?;
    match PatchesMetadata::decode(bytes.as_slice()) {
        Ok(message) => Ok(fields(alloc, &message)?),
        Err(fault) => fault_text(alloc, fault),
    }
}

pub(crate) fn rewrite_patches(alloc: Global, words: &str) -> io::Result<String> {
    let bytes = bytes_of(alloc, words)?;
    match PatchesMetadata::decode(bytes.as_slice()) {
        Ok(message) => written_text(alloc, message.encode(alloc)),
        Err(fault) => fault_text(alloc, fault),
    }
}

pub(crate) fn is_empty(alloc: Global, words: &str) -> io::Result<String> {
    let bytes = bytes_of(alloc, words)?;
    match PatchesMetadata::decode(bytes.as_slice()) {
        Ok(message) => Ok(format!(in alloc; "{}", message.is_empty())?),
        Err(fault) => fault_text(alloc, fault),
    }
}

/// The message of these fields.
fn message_of(words: &str) -> io::Result<PatchesMetadata> {
    let mut words = words.split(' ');
    let len = size_of_word(words.next())?;
    let offset = size_of_word(words.next())?;
    let indices = ptype_of(words.next())?;
    let chunk_offsets_len = optional_size(words.next())?;
    let chunk_offsets = optional_ptype(words.next())?;
    let cut_away = optional_size(words.next())?;
    Ok(PatchesMetadata::new(
        len,
        offset,
        indices,
        chunk_offsets_len,
        chunk_offsets,
        cut_away,
    ))
}

pub(crate) fn write_patches(alloc: Global, words: &str) -> io::Result<String> {
    let message = message_of(words)?;
    written_text(alloc, message.encode(alloc))
}
