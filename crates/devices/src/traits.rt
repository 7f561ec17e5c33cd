//! What a reader and a writer tell of their bytes.
ghost use Rattle.std.specs.Prelude.{◌≡◌, ℕ, Bool, ◌||◌, ◌<◌, ◌≤◌, List, ◌++◌, length, take, IfOk, OnOk, OnErr};
ghost use Rattle.devices.specs.Devices.{TakesPart, says_end};

use std::io;

/// A reader that tells its bytes.
pub trait Feed {
    // All the bytes that it has given so far, in order.
    ghost bytes_read: { Self → List ℕ };

    // Whether a read into a buffer with room has said that there is no more.
    ghost ended: { Self → Bool };

    // How often it has failed.
    ghost failures: { Self → ℕ };

    // A bound on the reads that still give bytes.
    ghost reads_left: { Self → ℕ };

    /// Puts the next bytes at the start of `buffer`, and says how many: at most `buffer.len()`.
    /// `Ok(0)` says that there is no more, unless `buffer` is empty.
    ///
    /// An error of the reader is an `Err`. It gives no byte and counts as a failure, and `buffer`
    /// then holds anything. A later read may continue.
    fn read(&mut self, buffer: &mut [u8]) -> io::Result<usize>
        ensures bound { IfOk result (λ count. count ≤ length buffer.new) }
        ensures bytes_read { IfOk result (λ count.
            bytes_read self.new ≡ bytes_read self.old ++ take count buffer.new) }
        ensures ended { ended self.new ≡ (ended self.old || says_end result buffer.new) }
        ensures no_failure { OnOk result (failures self.new ≡ failures self.old) }
        ensures err { OnErr result ((bytes_read self.new ≡ bytes_read self.old)
            × (failures self.old < failures self.new)) }

        // A loop that reads to the end ends.
        ensures progress { IfOk result (λ count.
            0 < count → reads_left self.new < reads_left self.old) }
        ensures reads_left { reads_left self.new ≤ reads_left self.old };
}

/// A writer that tells its bytes.
pub trait Drain {
    // All the bytes that it has taken so far, in order.
    ghost bytes_written: { Self → List ℕ };

    // How often it has failed.
    ghost failures: { Self → ℕ };

    /// Takes the first of `bytes`, and says how many: at most `bytes.len()`, and at least one unless
    /// `bytes` is empty.
    ///
    /// An error of the writer is an `Err`. It takes no byte and counts as a failure. A later write
    /// may continue.
    fn write(&mut self, bytes: &[u8]) -> io::Result<usize>
        ensures bound { IfOk result (λ count. count ≤ length bytes.now) }
        ensures bytes_written { IfOk result (λ count.
            bytes_written self.new ≡ bytes_written self.old ++ take count bytes.now) }
        ensures progress { IfOk result (λ count. 0 < length bytes.now → 0 < count) }
        ensures no_failure { OnOk result (failures self.new ≡ failures self.old) }
        ensures err { OnErr result ((bytes_written self.new ≡ bytes_written self.old)
            × (failures self.old < failures self.new)) };
}

/// Writes all of `bytes`, in as many writes as it takes, and none where `bytes` is empty.
///
/// The `Err` is that of the first write that fails. The bytes of the writes before it are taken, a
/// first part of `bytes` and not all of them, and the failure is counted.
pub fn write_all<W: Drain>(writer: &mut W, bytes: &[u8]) -> io::Result<()>
    ensures ok { OnOk result (W.bytes_written writer.new ≡ W.bytes_written writer.old ++ bytes.now) }
    ensures no_failure { OnOk result (W.failures writer.new ≡ W.failures writer.old) }
    ensures err { OnErr result (TakesPart (W.bytes_written writer.old) (W.bytes_written writer.new) bytes.now
        × (W.failures writer.old < W.failures writer.new)) }
{
    let mut written = 0;
    while written < bytes.len() {
        written += writer.write(&bytes[written..])?;
    }
    Ok(())
}
