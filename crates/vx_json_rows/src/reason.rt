//! Why a value hasn't the form that is asked of it, and where in the job it stands.

use serde_json::{Error, Map, Value};
use std::alloc::{AllocError, Global};

/// How many letters of a text a reason shows.
const SHOWN: usize = 40;

/// How deep JSON may nest.
const DEEPEST: usize = 127;

/// Why bytes or a value are no job, as a text on one line. It is missing where memory for it ran out.
#[derive(Debug)]
pub struct Reason {
    text: Option<String>,
}

// Written out, so that letting a reason go is one call at each way out of a form.
impl Drop for Reason {
    fn drop(self) {
        let Reason { text: _ } = self;
    }
}

impl Reason {
    fn of(told: Result<String, AllocError>) -> Reason {
        Reason { text: told.ok() }
    }

    /// Why bytes are no JSON, and the line and the column where their text ends to be.
    pub fn of_bytes(alloc: Global, bytes: &[u8], error: &Error) -> Reason {
        Reason::of(told_text_fault(alloc, bytes, error))
    }

    /// The reason in words.
    pub fn text(&self) -> Option<&str> {
        match &self.text {
            Some(text) => Some(text.as_str()),
            None => None,
        }
    }
}

/// The way from the job to a value in it, link by link. It is written only where something is wrong.
#[derive(Clone, Copy)]
pub enum Trail<'a> {
    /// The value that is read. This allocator is for the reasons of what is wrong in it.
    Whole(Global),
    /// The member of this name.
    Member(&'a Trail<'a>, &'a str),
    /// The item of this number.
    Item(&'a Trail<'a>, usize),
}

impl Trail<'_> {
    /// The allocator for reasons.
    pub fn alloc(&self) -> Global {
        match self {
            Trail::Whole(alloc) => *alloc,
            Trail::Member(outer, _) | Trail::Item(outer, _) => outer.alloc(),
        }
    }

    /// The way in words, as `parts[0].rows[7]`.
    fn text(&self) -> Result<String, AllocError> {
        match self {
            Trail::Whole(alloc) => Ok(String::new(*alloc)),
            Trail::Member(outer, name) => {
                let mut text = outer.text()?;
                if !text.is_empty() {
                    text.push('.')?;
                }
                text.push_str(name)?;
                Ok(text)
            }
            Trail::Item(outer, number) => {
                let text = outer.text()?;
                format!(in self.alloc(); "{text}[{number}]")
            }
        }
    }

    /// What is wrong with the value there.
    pub fn wrong(&self, what: &str) -> Reason {
        Reason::of(self.told(what))
    }

    fn told(&self, what: &str) -> Result<String, AllocError> {
        let place = self.text()?;
        let place = if place.is_empty() {
            "the job"
        } else {
            place.as_str()
        };
        format!(in self.alloc(); "{place}: {what}")
    }

    /// The value there is of another kind, or lies outside of what is asked for.
    pub fn is_no(&self, value: &Value, what: &str) -> Reason {
        Reason::of(self.told_no(value, what))
    }

    fn told_no(&self, value: &Value, what: &str) -> Result<String, AllocError> {
        let value = shown(self.alloc(), value)?;
        let what = format!(in self.alloc(); "{value} is no {what}")?;
        self.told(what.as_str())
    }

    /// A number with more digits than its type has.
    pub fn too_long(&self, value: &Value, digits: u8) -> Reason {
        Reason::of(self.told_digits(value, digits))
    }

    fn told_digits(&self, value: &Value, digits: u8) -> Result<String, AllocError> {
        let value = shown(self.alloc(), value)?;
        let what = format!(in self.alloc(); "{value} is no decimal of at most {digits} digits")?;
        self.told(what.as_str())
    }

    /// A text of another form.
    pub fn no_text(&self, text: &str, what: &str) -> Reason {
        Reason::of(self.told_text(text, what))
    }

    fn told_text(&self, text: &str, what: &str) -> Result<String, AllocError> {
        let text = quoted(self.alloc(), text)?;
        let what = format!(in self.alloc(); "{text} is no {what}")?;
        self.told(what.as_str())
    }

    /// A name that names nothing.
    pub fn unnamed(&self, what: &str, name: &str) -> Reason {
        Reason::of(self.told_key(what, name))
    }

    /// An object of these keys lacks one of them.
    pub fn missing_key(&self, key: &str) -> Reason {
        Reason::of(self.told_key("missing key", key))
    }

    fn told_key(&self, what: &str, key: &str) -> Result<String, AllocError> {
        let key = quoted(self.alloc(), key)?;
        let what = format!(in self.alloc(); "{what} {key}")?;
        self.told(what.as_str())
    }

    /// An object whose keys aren't these.
    pub fn other_keys(&self, members: &Map<String, Value>, keys: &[&str]) -> Reason {
        if let Some(key) = unknown_key(members, keys) {
            return Reason::of(self.told_keys("unknown key", key, ", expected ", keys));
        }
        match missing_key(members, keys) {
            Some(key) => Reason::of(self.told_keys("missing key", key, ", expected ", keys)),
            None => self.wrong("an object of other keys"),
        }
    }

    /// A value without any of the keys that name a form. Other keys than these have no meaning in any.
    pub fn untagged(&self, value: &Value, tags: &[&str], keys: &[&str]) -> Reason {
        let Some(members) = value.as_object() else {
            return self.is_no(value, "object");
        };
        let told = match unknown_key(members, keys) {
            Some(key) => self.told_keys("unknown key", key, ", expected one of ", tags),
            None => self.told_tags(tags),
        };
        Reason::of(told)
    }

    fn told_keys(
        &self,
        what: &str,
        key: &str,
        joint: &str,
        keys: &[&str],
    ) -> Result<String, AllocError> {
        let key = quoted(self.alloc(), key)?;
        let keys = listed(self.alloc(), keys)?;
        let what = format!(in self.alloc(); "{what} {key}{joint}{keys}")?;
        self.told(what.as_str())
    }

    fn told_tags(&self, tags: &[&str]) -> Result<String, AllocError> {
        let tags = listed(self.alloc(), tags)?;
        let what = format!(in self.alloc(); "expected one of the keys {tags}")?;
        self.told(what.as_str())
    }
}

/// Keys in quotes, with commas between them.
fn listed(alloc: Global, keys: &[&str]) -> Result<String, AllocError> {
    let mut text = String::new(alloc);
    for key in keys {
        if !text.is_empty() {
            text.push_str(", ")?;
        }
        text.push('"')?;
        text.push_str(key)?;
        text.push('"')?;
    }
    Ok(text)
}

/// The first member whose name is none of the keys.
fn unknown_key<'m>(members: &'m Map<String, Value>, keys: &[&str]) -> Option<&'m str> {
    for (name, _) in members.iter() {
        if !is_among(name.as_str(), keys) {
            return Some(name.as_str());
        }
    }
    None
}

/// The first of the keys that no member has.
fn missing_key<'k>(members: &Map<String, Value>, keys: &[&'k str]) -> Option<&'k str> {
    for key in keys {
        if members.get(*key).is_none() {
            return Some(*key);
        }
    }
    None
}

fn is_among(name: &str, keys: &[&str]) -> bool {
    for key in keys {
        if *key == name {
            return true;
        }
    }
    false
}

/// A value as reasons show it: long texts are cut, and of lists and objects only the kind is told.
fn shown(alloc: Global, value: &Value) -> Result<String, AllocError> {
    match value {
        Value::Array(items) => {
            let len = items.len();
            format!(in alloc; "a list of length {len}")
        }
        Value::Object(_) => String::from_str(alloc, "an object"),
        Value::String(text) => quoted(alloc, text.as_str()),
        _ => value.to_string(alloc),
    }
}

/// The front of a text, in quotes.
fn quoted(alloc: Global, text: &str) -> Result<String, AllocError> {
    let mut front = String::new(alloc);
    for letter in text.chars().take(SHOWN) {
        front.push(letter)?;
    }
    let is_cut = front.len() < text.len();
    let mut quoted = Value::String(front).to_string(alloc)?;
    if is_cut {
        quoted.push_str("..")?;
    }
    Ok(quoted)
}

fn told_text_fault(alloc: Global, bytes: &[u8], error: &Error) -> Result<String, AllocError> {
    let (line, column) = (error.line(), error.column());
    let said = format!(in alloc; "{error}")?;
    let what = if said.as_str().starts_with("number out of range") {
        "this number is out of range"
    } else {
        text_fault(bytes, error)
    };
    format!(in alloc; "line {line} column {column}: {what}")
}

/// What is wrong with bytes that are no JSON.
fn text_fault(bytes: &[u8], error: &Error) -> &'static str {
    if str::from_utf8(bytes).is_err() {
        "this is no UTF-8"
    } else if error.is_eof() {
        "the JSON ends too early"
    } else if is_too_deep(bytes, error) {
        "this nests deeper than 127"
    } else {
        "this is no JSON"
    }
}

/// Whether lists and objects nest too deep before the place of the error.
fn is_too_deep(bytes: &[u8], error: &Error) -> bool {
    let mut nesting = Nesting {
        depth: 0,
        is_text: false,
        is_escaped: false,
    };
    let (mut line, mut column) = (1usize, 1usize);
    for byte in bytes {
        if line >= error.line() && column > error.column() {
            return false;
        }
        nesting.pass(*byte);
        if nesting.depth > DEEPEST {
            return true;
        }
        if *byte == b'\n' {
            line = line.saturating_add(1);
            column = 1;
        } else {
            column = column.saturating_add(1);
        }
    }
    false
}

/// How deep lists and objects nest at a byte of a text.
#[derive(Clone, Copy)]
struct Nesting {
    depth: usize,
    is_text: bool,
    is_escaped: bool,
}

impl Nesting {
    /// Goes on behind the byte.
    fn pass(&mut self, byte: u8) {
        if self.is_escaped {
            self.is_escaped = false;
            return;
        }
        match byte {
            b'\\' => self.is_escaped = self.is_text,
            b'"' => self.is_text = !self.is_text,
            b'[' | b'{' if !self.is_text => self.depth = self.depth.saturating_add(1),
            b']' | b'}' if !self.is_text => self.depth = self.depth.saturating_sub(1),
            _ => {}
        }
    }
}
