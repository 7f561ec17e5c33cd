//! Whole texts: scripts that are at hand from their first byte to their last.
ghost use Rattle.std.specs.Prelude.{◌≡◌};
ghost use Rattle.scripts.specs.Script.{taken_by_writer, RunsText};

use crate::error::ScriptError;
use crate::programs::Programs;
use crate::script_state::ScriptState;
use crate::scripts::script;
use devices::{Drain, Text, TextFeed};
use std::alloc::Global;
use std::marker::Brand;

/// Runs the script that a text is, as [`script`] does. The text's memory is given back before the replies to its last bytes are
/// written.
///
/// Errors: `WriteFailed` where the writer failed in this call, or `NoMemory`; never `ReadFailed`. What was
/// written is then a beginning of the replies to the text.
pub fn run_text<P: Programs, W: Drain>(
    alloc: Global,
    programs: &P,
    text: Vec<u8>,
    writer: &mut W,
) -> (Result<bool, ScriptError>, ScriptState)
    requires ready { P.are_ready programs.now }
    ensures { RunsText (P.trees programs.now) text.items
        (taken_by_writer (W.bytes_written writer.old) (W.failures writer.old))
        (taken_by_writer (W.bytes_written writer.new) (W.failures writer.new)) result.0 }
{
    run_known::<Brand, P, W>(alloc, programs, text, writer)
}

/// Runs the script that a text is, which contracts know by a type.
fn run_known<T: Text, P: Programs, W: Drain>(
    alloc: Global,
    programs: &P,
    text: Vec<u8>,
    writer: &mut W,
) -> (Result<bool, ScriptError>, ScriptState)
    requires ready { P.are_ready programs.now }
    requires text { text.items ≡ T.text }
    ensures { RunsText (P.trees programs.now) text.items
        (taken_by_writer (W.bytes_written writer.old) (W.failures writer.old))
        (taken_by_writer (W.bytes_written writer.new) (W.failures writer.new)) result.0 }
{
    let mut reader: TextFeed<T> = TextFeed::new(text);
    script(alloc, programs, &mut reader, writer)
}
