//! A line of an explanation.

use std::alloc::AllocError;

/// Adds a line with this text.
pub(crate) fn push_told(lines: &mut Vec<u8>, told: &str) -> Result<(), AllocError> {
    lines.extend_from_slice(b" = ")?;
    lines.extend_from_slice(told.as_bytes())?;
    lines.push(b'\n')?;
    Ok(())
}
