//! Fields, written in the fewest bytes.
ghost use Rattle.std.specs.Prelude.{◌≡◌, ◌+◌, ◌*◌, ◌<◌, ◌^◌, ◌++◌, OnOk, IfSome};
ghost use Rattle.vx_wire.specs.Messages.{number_field, plain_field, optional_field};

use crate::varint::push_varint;
use std::alloc::AllocError;

/// Adds a field whose content is a number.
fn push_number(out: &mut Vec<u8>, tag: u32, number: u64) -> Result<(), AllocError>
    ensures { OnOk result (out.new.items ≡ out.old.items ++ number_field tag number) }
{
    push_varint(out, u64::from(tag) * 8)?;
    push_varint(out, number)
}

/// Adds a field that may be left out at 0, and then is.
#[tactic(auto, unfolding(crate::specs::Messages::plain_field))]
pub(crate) fn push_plain(out: &mut Vec<u8>, tag: u32, number: u64) -> Result<(), AllocError>
    ensures { OnOk result (out.new.items ≡ out.old.items ++ plain_field tag number) }
{
    if number == 0 {
        return Ok(());
    }
    push_number(out, tag, number)
}

/// Adds a field if it is present, at 0 too.
#[tactic(auto, unfolding(crate::specs::Messages::optional_field))]
pub(crate) fn push_optional(
    out: &mut Vec<u8>,
    tag: u32,
    number: Option<u64>,
) -> Result<(), AllocError>
    ensures items { OnOk result (out.new.items ≡ out.old.items ++ optional_field tag number) }
    ensures in_range { IfSome number (λ n. n < 2 ^ 64) }
{
    match number {
        Some(number) => push_number(out, tag, number),
        None => Ok(()),
    }
}
