//! Scripts from their first byte to their last.
ghost use Rattle.std.specs.Prelude.{◌≡◌, ◌<◌, [], length};
ghost use Rattle.version_records.specs.VersionRecords.{HaveNone};
ghost use Rattle.scripts.specs.inside.Progress.{at_start};
ghost use Rattle.scripts.specs.Script.{input, taken_by_writer, RunsScript};

use crate::error::ScriptError;
use crate::host::Host;
use crate::programs::Programs;
use crate::script_state::ScriptState;
use devices::{Drain, Feed};
use replies::{BLOCK, ReplyWriter};
use std::alloc::Global;
use version_records::VersionRecords;

/// Reads a script to its end and writes the replies to its lines, in blocks of 64 KiB. Its runs are of
/// these programs, numbered from 1. `Ok` says whether some run ended by a fault. With it, and with an
/// error too, comes what the script opened.
///
/// The replies to the lines that have come are written before more is read, and a run's reply before the
/// next line is done. Errors:
/// - `ReadFailed` where the reader failed in this call. What was written is exactly the replies to the
///   lines that had ended among the bytes read.
/// - `WriteFailed` where the writer failed in this call, or `NoMemory`. What was written is a beginning
///   of the replies to the bytes read.
pub fn script<P: Programs, R: Feed, W: Drain>(
    alloc: Global,
    programs: &P,
    reader: &mut R,
    writer: &mut W,
) -> (Result<bool, ScriptError>, ScriptState)
    requires ready { P.are_ready programs.now }
    ensures { RunsScript (P.trees programs.now)
        (input (R.bytes_read reader.old) (R.ended reader.old) (R.failures reader.old))
        (input (R.bytes_read reader.new) (R.ended reader.new) (R.failures reader.new))
        (taken_by_writer (W.bytes_written writer.old) (W.failures writer.old))
        (taken_by_writer (W.bytes_written writer.new) (W.failures writer.new)) result.0 }
{
    let host = Host { alloc, programs };
    let mut state = ScriptState::new(alloc);
    let mut records = VersionRecords::new(alloc);
    let result = run_whole(&host, &mut state, &mut records, reader, writer);
    (result, state)
}

/// Answers the lines of all that comes, by a state that is new.
fn run_whole<P: Programs, R: Feed, W: Drain>(
    host: &Host<'_, P>,
    state: &mut ScriptState,
    records: &mut VersionRecords<P::Record>,
    reader: &mut R,
    writer: &mut W,
) -> Result<bool, ScriptError>
    requires ready { P.are_ready host.now.programs.now }
    requires state { state.old ≡ at_start }
    requires records { HaveNone records.old }
    ensures { RunsScript (P.trees host.now.programs.now)
        (input (R.bytes_read reader.old) (R.ended reader.old) (R.failures reader.old))
        (input (R.bytes_read reader.new) (R.ended reader.new) (R.failures reader.new))
        (taken_by_writer (W.bytes_written writer.old) (W.failures writer.old))
        (taken_by_writer (W.bytes_written writer.new) (W.failures writer.new)) result }
{
    let mut block = vec![in host.alloc; 0u8; BLOCK]?;
    let mut kept = Vec::with_capacity(host.alloc, BLOCK)?;
    let mut replies = ReplyWriter {
        writer,
        kept: &mut kept,
    };
    let result = read_to_end(host, state, records, &mut block, reader, &mut replies);
    let ReplyWriter { writer, kept: _ } = replies;
    // No effect at run time. The proof reads what the writer holds from this use.
    let _ = &*writer;
    result
}

/// Answers the lines of all that comes. The replies to what has come are written before more is
/// read.
fn read_to_end<P: Programs, R: Feed, W: Drain>(
    host: &Host<'_, P>,
    state: &mut ScriptState,
    records: &mut VersionRecords<P::Record>,
    block: &mut [u8],
    reader: &mut R,
    replies: &mut ReplyWriter<'_, W>,
) -> Result<bool, ScriptError>
    requires ready { P.are_ready host.now.programs.now }
    requires state { state.old ≡ at_start }
    requires records { HaveNone records.old }
    requires block { 0 < length block.old }
    requires kept { replies.old.kept ≡ [] }
    ensures same_writer { replies.new.writer ≡ replies.old.writer }
    ensures runs { RunsScript (P.trees host.now.programs.now)
        (input (R.bytes_read reader.old) (R.ended reader.old) (R.failures reader.old))
        (input (R.bytes_read reader.new) (R.ended reader.new) (R.failures reader.new))
        (taken_by_writer replies.old.bytes_written replies.old.failures)
        (taken_by_writer replies.new.bytes_written replies.new.failures) result }
{
    'reads: loop {
        let count = match reader.read(block) {
            Ok(count) => count,
            Err(_) => return Err(ScriptError::ReadFailed),
        };
        if count == 0 {
            break;
        }
        state.take(host, &block[..count], records, replies)?;
        replies.flush()?;
    }
    state.finish(host, records, replies)?;
    replies.flush()?;
    Ok(state.has_faulted())
}
