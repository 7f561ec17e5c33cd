//! Scripts of races, read whole.
ghost use Rattle.std.specs.Prelude.{◌≡◌, [], ◌∷◌, ◌++◌, MatchOption, None, IfErr, OnOk};
ghost use Rattle.std.specs.Option.{option_map};
ghost use Rattle.scripts.specs.Commands.{command_of};
ghost use Rattle.races.specs.RaceScript.{ReadsScript, batches_in, order, order_in};
ghost use Rattle.races.specs.inside.Reading.{Opens, ReadsBatches, Takes};
ghost use Rattle.races.specs.declared.error.RaceScriptError.TheVariants.{NoMemory};

use crate::error::RaceScriptError;
use crate::lines::ScriptLines;
use scripts::{Command, command};
use std::alloc::Global;
use std::marker::Model;
use std::mem::replace;
use tree_batch::{Batch, Entry};

/// What the script of a race asks for: a graph of n vertices in chunks of this size, and the batches to commit to it, in
/// order.
#[derive(Debug, Drop)]
pub struct RaceScript {
    pub vertices: u32,
    pub chunk_size: u32,
    pub batches: Vec<Batch>,
}

/// Reads a text as the script of a race. Its lines are those of scripts: first `vertices`, and then only `add`, `del`,
/// `grow` and `commit`. Empty lines are passed over, and what is after the last `commit` is in no batch. The numbers are not looked at.
///
/// Errors: `NoRace` for any other text, else `NoMemory`.
pub fn race_script(alloc: Global, text: &[u8]) -> Result<RaceScript, RaceScriptError>
    ensures { ReadsScript text.now result }
{
    let mut lines = ScriptLines::new(text);
    let Some((vertices, chunk_size)) = opening(&mut lines) else {
        return Err(RaceScriptError::NoRace);
    };
    let batches = batches(alloc, &mut lines)?;
    Ok(RaceScript {
        vertices,
        chunk_size,
        batches,
    })
}

// The numbers of the first line that is not empty, which is to be `vertices`.
fn opening(lines: &mut ScriptLines<'_>) -> Option<(u32, u32)>
    ensures { MatchOption result (order_in lines.old ≡ None)
        (λ numbers. order_in lines.old ≡ option_map (order numbers.0 numbers.1) (batches_in [] lines.new)) }
{
    'lines: while let Some(line) = lines.next_line() {
        if !line.is_empty() {
            return opened(line);
        }
    }
    None
}

// The numbers of a line `vertices`.
fn opened(line: &[u8]) -> Option<(u32, u32)>
    ensures { Opens (command_of line.now) result }
{
    match command(line) {
        Some(
            Command::Vertices {
                vertices,
                chunk_size,
            },
        ) => Some((vertices, chunk_size)),
        _ => None,
    }
}

// The batches of all lines.
fn batches(alloc: Global, lines: &mut ScriptLines<'_>) -> Result<Vec<Batch>, RaceScriptError>
    ensures { ReadsBatches (batches_in [] lines.old) result }
{
    let mut committed = Committed::new(alloc);
    'lines: while let Some(line) = lines.next_line() {
        if !line.is_empty() {
            committed.take(alloc, command(line))?;
        }
    }
    Ok(committed.into_batches())
}

// The batches so far, and the entries since the last commit.
#[derive(Drop)]
struct Committed {
    batches: Vec<Batch>,
    pending: Batch,
}

impl Model for Committed {
    ghost use Rattle.races.specs.inside.Reading.{Committed as Value_of};

    ghost Value = { Value_of };

    ghost view = { λ c. record { batches = c.batches.items; pending = c.pending } };
}

impl Committed {
    fn new(alloc: Global) -> Committed
        ensures { result ≡ record { batches = []; pending = [] } }
    {
        Committed {
            batches: Vec::new(alloc),
            pending: Batch::new(alloc),
        }
    }

    // Takes the command of a line that is not empty. After an error it may be any.
    fn take(&mut self, alloc: Global, command: Option<Command>) -> Result<(), RaceScriptError>
        ensures { Takes self.old command self.new result }
    {
        match command {
            Some(
                Command::Add {
                    source,
                    destination,
                    weight,
                },
            ) => self.push(Entry::Add(source, destination, weight)),
            Some(
                Command::Remove {
                    source,
                    destination,
                },
            ) => self.push(Entry::Remove(source, destination)),
            Some(Command::Grow { vertices }) => self.push(Entry::Grow(vertices)),
            Some(Command::Commit) => self.commit(alloc),
            _ => Err(RaceScriptError::NoRace),
        }
    }

    // Adds an entry to those that are pending.
    fn push(&mut self, entry: Entry) -> Result<(), RaceScriptError>
        ensures ok { OnOk result (self.new ≡ record self.old { pending = self.old.pending ++ entry ∷ [] }) }
        ensures err { IfErr result (λ e. e ≡ NoMemory) }
    {
        match self.pending.push(entry) {
            Ok(()) => Ok(()),
            Err(_) => Err(RaceScriptError::NoMemory),
        }
    }

    // Makes a batch of the entries that are pending.
    fn commit(&mut self, alloc: Global) -> Result<(), RaceScriptError>
        ensures ok { OnOk result (self.new ≡ record { batches = self.old.batches ++ self.old.pending ∷ []; pending = [] }) }
        ensures err { IfErr result (λ e. e ≡ NoMemory) }
    {
        let batch = replace(&mut self.pending, Batch::new(alloc));
        self.batches.push(batch)?;
        Ok(())
    }

    // The batches; what is pending is dropped.
    fn into_batches(self) -> Vec<Batch>
        ensures { result.items ≡ self.batches }
    {
        let Committed {
            batches,
            pending: _,
        } = self;
        batches
    }
}
