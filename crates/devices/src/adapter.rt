//! Any reader or writer of std as one that tells its bytes.
ghost use Rattle.std.specs.Prelude.{◌≡◌, ◌≢◌, ◌⊎◌, ℕ, Bool, false, ◌||◌, ◌^◌, ◌+◌, ◌-◌, ◌<◌, ◌≤◌, List, [], ◌++◌, length, take, IfOk, IfErr, OnOk, OnErr};
ghost use Rattle.std.specs.IoError.{error_kind};
ghost use Rattle.std.specs.Io.KnownBytes.{ReadConsumes, WriteAppends};
ghost use Rattle.devices.specs.Device.{bytes_read_by, bytes_written_by, is_ended, read_failures, write_failures, reads_left, inner_of};
ghost use Rattle.devices.specs.Devices.{says_end};

use super::account::Account;
use super::traits::{Drain, Feed};
use std::io;
use std::io::{Error, ErrorKind, Read, Write};

/// A `Feed` of a reader, a `Drain` of a writer, and both of what is both.
///
/// A reader is tried at most 2^64 - 1 times, so one that never ends is cut off there. To flush a
/// writer that buffers, lend it, as `Device::new(&mut writer)`, and flush it afterwards.
#[derive(Drop)]
pub struct Device<T> {
    inner: T,
    reads_left: u64,
    is_ended: bool,
    bytes_read: Account,
    bytes_written: Account,
}

impl<T> Device<T> {
    /// A device round `inner`, through which nothing has gone. What `inner` read or wrote before
    /// does not count.
    pub fn new(inner: T) -> Device<T>
        ensures inner { inner_of result ≡ inner }
        ensures bytes_read { bytes_read_by result ≡ [] }
        ensures bytes_written { bytes_written_by result ≡ [] }
        ensures not_ended { is_ended result ≡ false }
        ensures failures { (read_failures result ≡ 0) × (write_failures result ≡ 0) }
        ensures reads_left { reads_left result ≡ 2 ^ 64 - 1 }
    {
        Device {
            inner,
            reads_left: u64::MAX,
            is_ended: false,
            bytes_read: Account::new(),
            bytes_written: Account::new(),
        }
    }
}

impl<T: Read> Feed for Device<T> {
    ghost bytes_read = { bytes_read_by };

    ghost ended = { is_ended };

    ghost failures = { read_failures };

    ghost reads_left = { reads_left };

    /// Reads from the reader inside, and again where that was interrupted.
    ///
    /// The `Err` is the reader's first that is no interruption. After 2^64 - 1 tries, over all the
    /// reads of the device, each further read is an `Err` of kind `Other`, and tries no more.
    fn read(&mut self, buffer: &mut [u8]) -> io::Result<usize>
        // As for every feed, and an error is one failure.
        ensures bound { IfOk result (λ count. count ≤ length buffer.new) }
        ensures bytes_read { IfOk result (λ count.
            bytes_read_by self.new ≡ bytes_read_by self.old ++ take count buffer.new) }
        ensures ended { is_ended self.new ≡ (is_ended self.old || says_end result buffer.new) }
        ensures no_failure { OnOk result (read_failures self.new ≡ read_failures self.old) }
        ensures err { OnErr result ((bytes_read_by self.new ≡ bytes_read_by self.old)
            × (read_failures self.new ≡ read_failures self.old + 1)) }
        ensures progress { IfOk result (λ count.
            0 < count → reads_left self.new < reads_left self.old) }
        ensures reads_left { reads_left self.new ≤ reads_left self.old }

        // It gives what the reader inside had, where that is known.
        ensures remaining { ReadConsumes (T.remaining (inner_of self.old))
            (T.remaining (inner_of self.new)) result buffer.new }
        ensures retried { IfErr result (λ error. error_kind error ≢ ErrorKind.Interrupted) }

        // An error comes after a try, or where there are none left.
        ensures tried { OnErr result ((reads_left self.new < reads_left self.old) ⊎ (reads_left self.old ≡ 0)) }
    {
        while self.reads_left > 0 {
            self.reads_left -= 1;
            match self.inner.read(buffer) {
                Ok(count) => {
                    self.is_ended = self.is_ended || (count == 0 && !buffer.is_empty());
                    self.bytes_read.add_bytes(&buffer[..count]);
                    return Ok(count);
                }
                Err(error) if error.kind() == ErrorKind::Interrupted => {}
                Err(error) => {
                    self.bytes_read.add_failure();
                    return Err(error);
                }
            }
        }
        self.bytes_read.add_failure();
        Err(Error::other("the reader was tried too often"))
    }
}

impl<T: Write> Drain for Device<T> {
    ghost bytes_written = { bytes_written_by };

    ghost failures = { write_failures };

    /// Writes to the writer inside, and again where that was interrupted.
    ///
    /// The `Err` is the writer's first that is no interruption, or of kind `WriteZero` where the
    /// writer takes none of some bytes, or of kind `Other` after 2^64 - 1 interruptions in a row.
    fn write(&mut self, bytes: &[u8]) -> io::Result<usize>
        // As for every drain, and an error is one failure.
        ensures bound { IfOk result (λ count. count ≤ length bytes.now) }
        ensures bytes_written { IfOk result (λ count.
            bytes_written_by self.new ≡ bytes_written_by self.old ++ take count bytes.now) }
        ensures progress { IfOk result (λ count. 0 < length bytes.now → 0 < count) }
        ensures no_failure { OnOk result (write_failures self.new ≡ write_failures self.old) }
        ensures err { OnErr result ((bytes_written_by self.new ≡ bytes_written_by self.old)
            × (write_failures self.new ≡ write_failures self.old + 1)) }

        // The writer inside holds what it takes, where that is known.
        ensures contents { WriteAppends (T.contents (inner_of self.old))
            (T.contents (inner_of self.new)) result bytes.now }
        ensures retried { IfErr result (λ error. error_kind error ≢ ErrorKind.Interrupted) }
    {
        for _ in 0..u64::MAX {
            match self.inner.write(bytes) {
                Ok(0) if !bytes.is_empty() => {
                    self.bytes_written.add_failure();
                    return Err(Error::new(ErrorKind::WriteZero, "the writer takes no more bytes"));
                }
                Ok(count) => {
                    self.bytes_written.add_bytes(&bytes[..count]);
                    return Ok(count);
                }
                Err(error) if error.kind() == ErrorKind::Interrupted => {}
                Err(error) => {
                    self.bytes_written.add_failure();
                    return Err(error);
                }
            }
        }
        self.bytes_written.add_failure();
        Err(Error::other("the writer was interrupted too often"))
    }
}
