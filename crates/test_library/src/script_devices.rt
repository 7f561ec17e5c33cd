//! Scripts over devices that are interrupted and go some bytes at a time, and runs that note by how many workers they go. What devices
//! of the system show is in `tests/checks/failing_devices`.
ghost use Rattle.std.specs.Prelude.{◌≡◌, [], ◌∷◌, true, IfOk, IfSome};
ghost use Rattle.scripts.specs.Replies.{is_worker_count};
ghost use Rattle.test_library.specs.inside.Programs.{empty_program};

use devices::Device;
use flat_snapshot::Flat;
use scripts::{ProgramRun, Programs, ScriptError, script};
use std::alloc::{AllocError, Global};
use std::io;
use std::io::{Error, ErrorKind, Read, Write};
use std::sync::Arc;
use std::sync::atomic::{AtomicU64, Ordering};
use test_helpers::{Checked, check};
use version_records::Predecessor;

/// One program, for whose runs there is never memory enough. It notes by how many workers a run was asked for.
#[derive(Drop)]
pub(crate) struct StarvedProgram(AtomicU64);

impl StarvedProgram {
    pub(crate) fn new() -> StarvedProgram {
        StarvedProgram(AtomicU64::new(0))
    }
}

/// No run leaves one behind.
#[derive(Drop)]
pub(crate) struct NoRecord;

impl Programs for StarvedProgram {
    type Record = NoRecord;

    ghost trees = { λ _. empty_program ∷ [] };

    ghost is_record = { λ _ _ _ _. Unit {0} };

    ghost are_ready = { λ _. Unit {0} };

    fn count(&self) -> usize {
        1
    }

    fn run(
        &self,
        _alloc: Global,
        _index: usize,
        _graph: &Arc<Flat>,
        _turns: u64,
        workers: u64,
        _former: Option<Predecessor<'_, NoRecord>>,
    ) -> Result<ProgramRun<NoRecord>, AllocError>
        requires workers { is_worker_count workers ≡ true }
        ensures outcome { IfOk result (λ run. ⊥) }
        ensures kept { IfOk result (λ run. IfSome run.run_record (λ r. ⊥)) }
    {
        self.0.store(workers, Ordering::SeqCst);
        Err(AllocError)
    }
}

// Gives at most n bytes at a time, is interrupted before each read, and fails after the last byte.
#[derive(Drop)]
struct SlowReader<'a> {
    bytes: &'a [u8],
    most: usize,
    is_interrupted: bool,
}

impl Read for SlowReader<'_> {
    fn read(&mut self, buffer: &mut [u8]) -> io::Result<usize> {
        self.is_interrupted = !self.is_interrupted;
        if self.is_interrupted {
            return Err(Error::from(ErrorKind::Interrupted));
        }
        if self.bytes.is_empty() {
            return Err(Error::from(ErrorKind::BrokenPipe));
        }
        let count = buffer.len().min(self.bytes.len()).min(self.most);
        buffer[..count].copy_from_slice(&self.bytes[..count]);
        self.bytes = &self.bytes[count..];
        Ok(count)
    }
}

// Takes at most n bytes at a time, is interrupted before each write, and fails where it has no room for one more.
#[derive(Drop)]
struct SlowWriter<'a> {
    bytes: &'a mut Vec<u8>,
    most: usize,
    room: usize,
    is_interrupted: bool,
}

impl Write for SlowWriter<'_> {
    fn write(&mut self, bytes: &[u8]) -> io::Result<usize> {
        self.is_interrupted = !self.is_interrupted;
        if self.is_interrupted {
            return Err(Error::from(ErrorKind::Interrupted));
        }
        if self.room == 0 {
            return Err(Error::from(ErrorKind::BrokenPipe));
        }
        let count = bytes.len().min(self.most).min(self.room);
        self.bytes.extend_from_slice(&bytes[..count])?;
        self.room -= count;
        Ok(count)
    }

    fn flush(&mut self) -> io::Result<()> {
        Ok(())
    }
}

const LINES: &[u8] = b"vertices 4\nadd 3 0\nadd 0 1\nadd 0 1\ndel 2 2\ncommit\nedges\n";

const REPLIES: &[u8] = b"open 4\nversion 1\nedges 2\n0 1\n3 0\n";

// By how many of the first bytes of the lines a reply may have ended, and how long the replies are then.
const ENDED: [(usize, usize); 4] = [(0, 0), (11, 7), (50, 17), (56, 33)];

// How many bytes are replied to so many of the first bytes of the lines.
fn replied(count: usize) -> usize {
    let mut replied = 0;
    for (ended, length) in ENDED {
        if ended <= count {
            replied = length;
        }
    }
    replied
}

// How a script over these bytes ends, and what its writer took.
type Ended = (Result<bool, ScriptError>, Vec<u8>);

// Runs a script over devices that go so many bytes at a time, into a writer with so much room.
fn run(alloc: Global, program: &StarvedProgram, given: &[u8], most: usize, room: usize) -> Ended {
    let mut bytes = Vec::new(alloc);
    let mut reader = Device::new(SlowReader {
        bytes: given,
        most,
        is_interrupted: false,
    });
    let mut writer = Device::new(SlowWriter {
        bytes: &mut bytes,
        most,
        room,
        is_interrupted: false,
    });
    let (result, _state) = script(alloc, program, &mut reader, &mut writer);
    drop(writer);
    (result, bytes)
}

// Checks that a script whose reader fails after so many bytes has replied to the lines that had ended, and that one whose writer has
// so much room fills it.
fn check_failures(alloc: Global, most: usize, count: usize) -> Checked {
    let (program, given) = (StarvedProgram::new(), &LINES[..count.min(LINES.len())]);
    let (read, replies) = run(alloc, &program, given, most, usize::MAX);
    let (written, filled) = run(alloc, &program, LINES, most, count);
    let told = if count < REPLIES.len() {
        ScriptError::WriteFailed
    } else {
        ScriptError::ReadFailed
    };
    let wanted = &REPLIES[..replied(count).min(REPLIES.len())];
    let room = &REPLIES[..count.min(REPLIES.len())];
    check(
        read == Err(ScriptError::ReadFailed),
        "the error of the reader",
    )?;
    check(replies.as_slice() == wanted, "the replies before it")?;
    check(written == Err(told), "the error of the writer")?;
    check(filled.as_slice() == room, "the replies that have room")
}

#[test]
fn devices_are_slow_and_interrupted_and_fail(rt: HostRuntime) {
    for most in [1, 3, usize::MAX] {
        for count in 0..=LINES.len() {
            let failed = check_failures(rt.alloc(), most, count);
            assert_eq!(rt; failed, Ok(()), "{count} bytes, by {most}");
        }
    }
}

// Lines with a run, and by how many workers that is.
const RUNS: [(&[u8], u64); 4] = [
    (b"vertices 4\nrun 1 9 1\nedges\n", 1),
    (b"vertices 4\nrun 1 9 2\nedges\n", 2),
    (b"vertices 4\nrun 1 9 63\nedges\n", 63),
    (b"vertices 4\nrun 1 9 64\nedges\n", 64),
];

// Checks that a run is by so many workers. It lacks memory, so the script ends, and has written a beginning of the replies before the
// run.
fn check_workers(alloc: Global, lines: &[u8], workers: u64) -> Checked {
    let program = StarvedProgram::new();
    let (ended, written) = run(alloc, &program, lines, usize::MAX, usize::MAX);
    check(b"open 4\n".starts_with(written.as_slice()), "the replies")?;
    check(ended == Err(ScriptError::NoMemory), "the end of the script")?;
    check(
        program.0.load(Ordering::SeqCst) == workers,
        "how many workers there are",
    )
}

#[test]
fn runs_are_by_the_workers_of_their_line(rt: HostRuntime) {
    for (lines, workers) in RUNS {
        assert_eq!(rt;
            check_workers(rt.alloc(), lines, workers),
            Ok(()),
            "{workers} workers"
        );
    }
}
