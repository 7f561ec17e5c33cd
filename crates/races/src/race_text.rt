//! The text of a race.
ghost use Rattle.std.specs.Prelude.{◌≡◌, [], IfOk};
ghost use Rattle.replies.specs.ReplyText.{line_text};
ghost use Rattle.replies.specs.Sending.{Emits};
ghost use Rattle.scripts.specs.Script.{taken_by_writer};
ghost use Rattle.races.specs.RaceText.{Writes, early_text, late_text, race_text, replies_text, reply_line, run_line, run_text};

use crate::outcomes::{CommitReply, ProgramRuns, Race, VersionRun};
use decimal::push_number;
use devices::Drain;
use replies::{BLOCK, LineReply, ReplyWriter, SendError};
use std::alloc::{AllocError, Global};

const EARLY: &[u8] = b"early";

const LATE: &[u8] = b"late";

/// Writes the text of a race, in blocks of 64 KiB: the reply of the opening, those of the commits, and for each program first
/// its early run and then, after all these, its late one.
///
/// Errors: `WriteFailed` where the writer failed in this call, or `NoMemory`. What was written is then a beginning of the text.
pub fn write_race<W: Drain>(alloc: Global, race: &Race, writer: &mut W) -> Result<(), SendError>
    ensures { Writes (race_text race.now)
        (taken_by_writer (W.bytes_written writer.old) (W.failures writer.old))
        (taken_by_writer (W.bytes_written writer.new) (W.failures writer.new)) result }
{
    let mut kept = Vec::with_capacity(alloc, BLOCK)?;
    let mut replies = ReplyWriter {
        writer,
        kept: &mut kept,
    };
    let result = send_all(alloc, race, &mut replies);
    let ReplyWriter { writer, kept: _ } = replies;
    // No effect at run time. The proof reads what the writer holds from this use.
    let _ = &*writer;
    result
}

// Sends the text of a race, and writes all that is kept.
fn send_all<W: Drain>(
    alloc: Global,
    race: &Race,
    replies: &mut ReplyWriter<'_, W>,
) -> Result<(), SendError>
    requires kept { replies.old.kept ≡ [] }
    ensures same_writer { replies.new.writer ≡ replies.old.writer }
    ensures writes { Writes (race_text race.now)
        (taken_by_writer replies.old.bytes_written replies.old.failures)
        (taken_by_writer replies.new.bytes_written replies.new.failures) result }
{
    send_race(alloc, race, replies)?;
    replies.flush()
}

fn send_race<W: Drain>(
    alloc: Global,
    race: &Race,
    replies: &mut ReplyWriter<'_, W>,
) -> Result<(), SendError>
    ensures { Emits replies.old replies.new (race_text race.now) result }
{
    replies.send_line(LineReply::Open(race.vertices))?;
    send_replies(&race.replies, replies)?;
    send_early(alloc, &race.runs, replies)?;
    send_late(alloc, &race.runs, replies)
}

fn send_replies<W: Drain>(
    commits: &[CommitReply],
    replies: &mut ReplyWriter<'_, W>,
) -> Result<(), SendError>
    ensures { Emits replies.old replies.new (replies_text commits.now) result }
{
    'commits: for commit in commits {
        replies.send_line(line_of(*commit))?;
    }
    Ok(())
}

// The line of what a commit is answered.
fn line_of(commit: CommitReply) -> LineReply
    ensures { line_text result ≡ reply_line commit }
{
    match commit {
        CommitReply::Version(version) => LineReply::Version(version),
        CommitReply::Refused(number) => LineReply::Refused(number),
    }
}

fn send_early<W: Drain>(
    alloc: Global,
    all: &[ProgramRuns],
    replies: &mut ReplyWriter<'_, W>,
) -> Result<(), SendError>
    ensures { Emits replies.old replies.new (early_text all.now) result }
{
    'runs: for index in 0..all.len() {
        send_run(alloc, EARLY, index as u64 + 1, &all[index].early, replies)?;
    }
    Ok(())
}

fn send_late<W: Drain>(
    alloc: Global,
    all: &[ProgramRuns],
    replies: &mut ReplyWriter<'_, W>,
) -> Result<(), SendError>
    ensures { Emits replies.old replies.new (late_text all.now) result }
{
    'runs: for index in 0..all.len() {
        send_run(alloc, LATE, index as u64 + 1, &all[index].late, replies)?;
    }
    Ok(())
}

// Sends when the program of this number ran, on which version, and what the run shows.
fn send_run<W: Drain>(
    alloc: Global,
    when: &[u8],
    program: u64,
    run: &VersionRun,
    replies: &mut ReplyWriter<'_, W>,
) -> Result<(), SendError>
    ensures { Emits replies.old replies.new (run_text when.now program run.now) result }
{
    let line = run_line(alloc, when, program, run.version)?;
    replies.send_bytes(&line)?;
    replies.send_outcome(&run.outcome)
}

// The line of a run.
fn run_line(alloc: Global, when: &[u8], program: u64, version: u64) -> Result<Vec<u8>, AllocError>
    ensures { IfOk result (λ line. line.items ≡ run_line when.now program version) }
{
    let mut line = Vec::new(alloc);
    line.extend_from_slice(when)?;
    line.push(b' ')?;
    push_number(&mut line, program)?;
    line.extend_from_slice(b" version ")?;
    push_number(&mut line, version)?;
    line.push(b'\n')?;
    Ok(line)
}
