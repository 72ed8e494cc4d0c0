//! Bytes and fields as words, and back.
use std::alloc::{AllocError, Global};
use std::io;
use vx_base::{PType, Res, Seq, WireFault};

/// The bytes of words in hex.
pub(crate) fn bytes_of(alloc: Global, words: &str) -> io::Result<Vec<u8>> {
    let mut bytes = Vec::new(alloc);
    for word in words.split(' ') {
        if word.is_empty() {
            continue;
        }
        match u8::from_str_radix(word, 16) {
            Ok(byte) => bytes.push(byte)?,
            Err(_) => return Err(io::Error::other("a word is no byte")),
        }
    }
    Ok(bytes)
}

/// Bytes in hex, `no bytes` where there are none.
pub(crate) fn bytes_text(alloc: Global, bytes: &[u8]) -> Result<String, AllocError> {
    if bytes.is_empty() {
        return String::from_str(alloc, "no bytes");
    }
    let mut text = String::new(alloc);
    for (i, byte) in bytes.iter().enumerate() {
        if i > 0 {
            text.push(' ')?;
        }
        write!(text, "{byte:02x}")?;
    }
    Ok(text)
}

/// The bytes that a message is written to.
pub(crate) fn written_text(alloc: Global, written: Res<Seq<u8>>) -> io::Result<String> {
    match written {
        Ok(bytes) => Ok(bytes_text(alloc, bytes.as_slice())?),
        Err(_) => Err(io::Error::other("a message takes too much memory")),
    }
}

pub(crate) fn fault_text(alloc: Global, fault: WireFault) -> io::Result<String> {
    Ok(format!(in alloc; "{fault:?}")?)
}

/// A number of 64 bits.
pub(crate) fn size_of_word(word: Option<&str>) -> io::Result<usize> {
    match word.unwrap_or("").parse::<usize>() {
        Ok(number) => Ok(number),
        Err(_) => Err(io::Error::other("a word is no number")),
    }
}

/// The same, None for `-`.
pub(crate) fn optional_size(word: Option<&str>) -> io::Result<Option<usize>> {
    if word == Some("-") {
        return Ok(None);
    }
    Ok(Some(size_of_word(word)?))
}

/// A number of 32 bits.
pub(crate) fn short_of_word(word: Option<&str>) -> io::Result<u32> {
    match word.unwrap_or("").parse::<u32>() {
        Ok(number) => Ok(number),
        Err(_) => Err(io::Error::other("a word is no number of 32 bits")),
    }
}

/// The type of this name.
pub(crate) fn ptype_of(word: Option<&str>) -> io::Result<PType> {
    match word {
        Some("U8") => Ok(PType::U8),
        Some("U16") => Ok(PType::U16),
        Some("U32") => Ok(PType::U32),
        Some("U64") => Ok(PType::U64),
        Some("I8") => Ok(PType::I8),
        Some("I16") => Ok(PType::I16),
        Some("I32") => Ok(PType::I32),
        Some("I64") => Ok(PType::I64),
        _ => Err(io::Error::other("a word is no type")),
    }
}

/// The same, None for `-`.
pub(crate) fn optional_ptype(word: Option<&str>) -> io::Result<Option<PType>> {
    if word == Some("-") {
        return Ok(None);
    }
    Ok(Some(ptype_of(word)?))
}
