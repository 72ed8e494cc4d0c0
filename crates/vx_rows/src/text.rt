//! Texts that contracts see as bytes.
ghost use Rattle.std.specs.Prelude.{◌≡◌, IfOk, IsOkUnless, string_bytes};

use crate::error::{ColumnError, Res};
use std::alloc::Global;
use std::marker::Model;

/// A text that contracts see as its bytes.
#[derive(Debug, Drop)]
pub struct Text {
    text: String,
}

impl Model for Text {
    ghost use Rattle.std.specs.Prelude.{List, ℕ, string_bytes};

    ghost Value = { List ℕ };

    ghost view = { λ t. string_bytes t.text };
}

impl Text {
    /// A copy of the text.
    pub fn from_str(alloc: Global, text: &str) -> Res<Text>
        ensures ok { IfOk result (λ t. t ≡ text.now) }
        ensures err { IsOkUnless result ColumnError.OutOfMemory }
    {
        Ok(Text {
            text: String::from_str(alloc, text)?,
        })
    }

    /// The text, lent.
    pub fn as_str(&self) -> &str
        ensures { result.now ≡ self.now }
    {
        self.text.as_str()
    }
}
