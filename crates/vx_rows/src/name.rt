//! Names of fields, which types share.
ghost use Rattle.std.specs.Prelude.{◌≡◌, IfOk, IsOkUnless};
ghost use Rattle.std.specs.Rc.{rc_str_bytes};

use crate::error::{ColumnError, Res};
use std::alloc::Global;
use std::marker::Model;
use std::rc::RcStr;

/// A name with several owners, which contracts see as its bytes.
#[derive(Debug, Drop)]
pub struct Name {
    text: RcStr,
}

impl Model for Name {
    ghost use Rattle.std.specs.Prelude.{List, ℕ};
    ghost use Rattle.std.specs.Rc.{rc_str_bytes};

    ghost Value = { List ℕ };

    ghost view = { λ t. rc_str_bytes t.text };
}

impl Name {
    /// A copy of the text.
    pub fn from_str(alloc: Global, text: &str) -> Res<Name>
        ensures ok { IfOk result (λ t. t ≡ text.now) }
        ensures err { IsOkUnless result ColumnError.OutOfMemory }
    {
        Ok(Name {
            text: RcStr::from_str(alloc, text)?,
        })
    }

    /// The name that the counted text holds.
    pub fn from_rc_str(text: RcStr) -> Name
        ensures { result ≡ rc_str_bytes text }
    {
        Name { text }
    }

    /// The name, lent.
    pub fn as_str(&self) -> &str
        ensures { result.now ≡ self.now }
    {
        self.text.as_str()
    }
}
