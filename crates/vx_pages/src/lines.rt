//! The lines that are written.
ghost use Rattle.std.specs.Prelude.{◌≡◌, [], ◌∷◌, ◌++◌, IfOk, IsOkUnless};
ghost use Rattle.json.specs.Print.{print};
ghost use Rattle.vx_pages.specs.Lines.{line};
ghost use Rattle.vx_pages.specs.PageJson.{page_json};
ghost use Rattle.vx_pages.specs.RefusalJson.{refusal_json};

use crate::page_text::write_page;
use crate::refusal_text::write_refusal;
use json::Writer;
use std::alloc::{AllocError, Global};
use vx_job::Page;
use vx_rows::{ColumnError, Res};

/// What was written, and a line feed.
fn ended(out: Writer) -> Result<Vec<u8>, AllocError>
    ensures { IfOk result (λ text. text.items ≡ (out.before ++ print out.tokens) ++ 10 ∷ []) }
{
    let mut text = out.into_inner();
    text.push(b'\n')?;
    Ok(text)
}

/// The text of a page, and a line feed.
pub fn page_line(alloc: Global, page: &Page) -> Res<Vec<u8>>
    ensures ok { IfOk result (λ text. text.items ≡ line (page_json page.now)) }
    ensures err { IsOkUnless result ColumnError.OutOfMemory }
{
    let mut out = Writer::new(Vec::new(alloc));
    write_page(alloc, &mut out, page)?;
    Ok(ended(out)?)
}

/// The text of a refusal, and a line feed.
pub fn refusal_line(alloc: Global, error: &ColumnError) -> Res<Vec<u8>>
    ensures ok { IfOk result (λ text. text.items ≡ line (refusal_json error.now)) }
    ensures err { IsOkUnless result ColumnError.OutOfMemory }
{
    let mut out = Writer::new(Vec::new(alloc));
    write_refusal(&mut out, error)?;
    Ok(ended(out)?)
}
