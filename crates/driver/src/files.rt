//! Files by name.

ghost use Rattle.std.specs.Prelude.{List, ℕ};
ghost use Rattle.std.specs.declared.io.Error.{Error};
ghost use Rattle.driver.specs.Reading.{AnswersRead};
ghost use Rattle.driver.specs.inside.Reading.{ReadsWhole};

use crate::error::{ServeError, of_file_read};
use std::alloc::Global;
use std::cell::OnceCell;
use std::io::Read;
use std::{fs, io, rt};

/// Files that are read whole, by name.
pub trait Files {
    // What a read of the file of this name may answer: bytes, or an error.
    ghost may_hold: { Self → List ℕ → List ℕ → Type 0 };

    ghost may_fail: { Self → List ℕ → Error → Type 0 };

    /// Reads the file of this name whole.
    ///
    /// Errors: of kind `OutOfMemory` if memory runs out, and of another kind where the file cannot
    /// be opened or read.
    fn read(&self, alloc: Global, name: &str) -> io::Result<Vec<u8>>
        ensures { AnswersRead (may_hold self.now name.now) (may_fail self.now name.now) result };
}

/// The name of the file that is the standard input.
pub(crate) const STREAM: &str = "-";

/// The files of the system. The file `-` is the standard input, which is read once and then kept. No contract knows what they hold.
#[derive(Drop)]
pub struct Disk<R> {
    rt: R,
    input: OnceCell<Vec<u8>>,
}

impl<R> Disk<R> {
    /// The files of this runtime.
    pub fn new(rt: R) -> Disk<R> {
        Disk {
            rt,
            input: OnceCell::new(),
        }
    }
}

impl<R: rt::Files + Input + AllocGlobal> Files for Disk<R> {
    ghost may_hold = { λ _ _ _. Unit {0} };

    ghost may_fail = { λ _ _ _. Unit {0} };

    fn read(&self, alloc: Global, name: &str) -> io::Result<Vec<u8>> {
        if name != STREAM {
            return fs::read(&self.rt, name);
        }
        let text = self.input.get_or_try_init(|| -> io::Result<Vec<u8>> {
            let mut text = Vec::new(alloc);
            self.rt.reader().read_to_end(&mut text)?;
            Ok(text)
        })?;
        Ok(text.clone()?)
    }
}

/// What the file of this name holds. The error tells the file, and for which reason it cannot be read.
pub(crate) fn read_file<'a, F: Files>(
    alloc: Global,
    file: &'a str,
    files: &F,
) -> Result<Vec<u8>, ServeError<'a>>
    ensures { ReadsWhole (F.may_hold files.now file.entry.now) (F.may_fail files.now file.entry.now) file.entry.now result }
{
    match files.read(alloc, file) {
        Ok(bytes) => Ok(bytes),
        Err(error) => Err(of_file_read(file, error)),
    }
}
