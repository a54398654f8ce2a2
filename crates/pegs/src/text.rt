// Text put together.
ghost use Rattle.std.specs.Prelude.{◌≡◌, ◌++◌, IfOk};

use std::alloc::{AllocError, Global};

// The lines written, and the verdict behind them.
pub(crate) fn joined(heap: Global, lines: &[u8], verdict: &[u8]) -> Result<Vec<u8>, AllocError>
    ensures { IfOk result (λ text. text.items ≡ lines.now ++ verdict.now) }
{
    let mut text = Vec::new(heap);
    text.extend_from_slice(lines)?;
    text.extend_from_slice(verdict)?;
    Ok(text)
}
