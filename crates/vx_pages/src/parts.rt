//! Parts of a text that several forms have.
ghost use Rattle.std.specs.Prelude.{◌≡◌, [], ◌∷◌, ◌++◌, OnOk, decimal};
ghost use Rattle.json.specs.Token as token;
ghost use Rattle.serde_json.specs.Data.{number};
ghost use Rattle.serde_json.specs.Find.{of_integer};
ghost use Rattle.vx_pages.specs.Tokens.{tokens_of};

use json::Writer;
use std::alloc::AllocError;

/// Writes the beginning of an object, and the key of its first member.
pub(crate) fn open(out: &mut Writer, key: &str) -> Result<(), AllocError>
    ensures ok { OnOk result (out.new.tokens
        ≡ out.old.tokens ++ token.begin_object ∷ token.key key.now ∷ []) }
    ensures before { out.new.before ≡ out.old.before }
{
    out.begin_object()?;
    out.key(key)
}

/// Writes a member that is a text.
pub(crate) fn write_text(out: &mut Writer, key: &str, text: &str) -> Result<(), AllocError>
    ensures ok { OnOk result (out.new.tokens
        ≡ out.old.tokens ++ token.key key.now ∷ token.string text.now ∷ []) }
    ensures before { out.new.before ≡ out.old.before }
{
    out.key(key)?;
    out.string(text)
}

/// Writes a member that is a number.
pub(crate) fn write_count(out: &mut Writer, key: &str, count: usize) -> Result<(), AllocError>
    ensures ok { OnOk result (out.new.tokens
        ≡ out.old.tokens ++ token.key key.now ∷ token.number (decimal count) ∷ []) }
    ensures before { out.new.before ≡ out.old.before }
{
    out.key(key)?;
    out.u64(count as u64)
}

/// Writes a member that is a number, and the end of the object.
pub(crate) fn end_count(out: &mut Writer, key: &str, count: usize) -> Result<(), AllocError>
    ensures ok { OnOk result (out.new.tokens ≡ out.old.tokens
        ++ token.key key.now ∷ token.number (decimal count) ∷ token.end_object ∷ []) }
    ensures before { out.new.before ≡ out.old.before }
{
    write_count(out, key, count)?;
    out.end_object()
}

/// Writes a number.
pub(crate) fn write_integer(out: &mut Writer, z: i64) -> Result<(), AllocError>
    ensures ok { OnOk result
        (out.new.tokens ≡ out.old.tokens ++ tokens_of (number (of_integer z))) }
    ensures before { out.new.before ≡ out.old.before }
{
    out.i64(z)
}
