//! Printed text: what `print` writes.
ghost use Rattle.std.specs.Prelude.{◌≡◌, ◌++◌, OnErr, OnOk};
ghost use Rattle.algorithm_meaning.specs.Statements.{condition_line, integer_line};

use decimal::push_integer;
use std::alloc::AllocError;

/// Writes a number and a line feed. The only error is out of memory, and then the text is as it was.
pub(crate) fn push_integer_line(text: &mut Vec<u8>, n: i64) -> Result<(), AllocError>
    ensures ok { OnOk result (text.new.items ≡ text.old.items ++ integer_line n) }
    ensures err { OnErr result (text.new.items ≡ text.old.items) }
{
    let length = text.len();
    push_integer(text, n)?;
    if text.push(b'\n').is_err() {
        text.truncate(length);
        return Err(AllocError);
    }
    Ok(())
}

/// Writes `true` or `false` and a line feed. The only error is out of memory, and then the text is as it was.
pub(crate) fn push_condition_line(text: &mut Vec<u8>, b: bool) -> Result<(), AllocError>
    ensures ok { OnOk result (text.new.items ≡ text.old.items ++ condition_line b) }
    ensures err { OnErr result (text.new.items ≡ text.old.items) }
{
    if b {
        text.extend_from_slice(b"true\n")
    } else {
        text.extend_from_slice(b"false\n")
    }
}
