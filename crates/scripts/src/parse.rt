//! Command parser: the command of a line.
ghost use Rattle.std.specs.Prelude.{◌≡◌, ◌≢◌, ◌∷◌, codes};
ghost use Rattle.std.specs.Option.{option_map};
ghost use Rattle.scripts.specs.declared.commands.Command.TheVariants.{Commit, Edges, Release};
ghost use Rattle.scripts.specs.Commands.{command_of, command_of_words, vertices_of, add_of, weight_of, remove_of, grow_of, alone, hold_of, run_of, ticket_of, one_number};

use crate::commands::{Command, DEFAULT_CHUNK_SIZE};
use crate::words::Words;
use weighted_edges::UNIT_WEIGHT;

/// The command of a line without its line feed, or `None` where the line is no command. The numbers
/// of `vertices`, `add`, `del` and `grow` are below 2^32, the others below 2^64; the weight of `add` is a signed
/// number of 64 bits, after `-` where it is negative. The line is a command as it stands, byte for byte: a space
/// more, a tab, a carriage return, another sign or another case makes it none, and so the empty line is none.
pub fn command(line: &[u8]) -> Option<Command>
    ensures { result ≡ command_of line.now }
{
    let mut words = Words::new(line);
    let name = words.take_word()?;
    named(name, words)
}

/// The command of this name, with the words after it.
fn named(name: &[u8], words: Words<'_>) -> Option<Command>
    ensures { result ≡ command_of_words (name.now ∷ words.entry) }
{
    match name {
        b"add" => add(words),
        b"del" => remove(words),
        _ => named_otherwise(name, words),
    }
}

/// Like `named`, for the commands that name no edge. A script has few of them; they are apart, so that the others need
/// little room.
#[inline(never)]
fn named_otherwise(name: &[u8], words: Words<'_>) -> Option<Command>
    requires add { name.now ≢ codes "add" }
    requires del { name.now ≢ codes "del" }
    ensures { result ≡ command_of_words (name.now ∷ words.entry) }
{
    if name == b"vertices".as_slice() {
        vertices(words)
    } else if name == b"grow".as_slice() {
        grow(words)
    } else if name == b"commit".as_slice() {
        commit(words)
    } else if name == b"hold".as_slice() {
        hold(words)
    } else if name == b"release".as_slice() {
        release(words)
    } else if name == b"edges".as_slice() {
        edges(words)
    } else if name == b"run".as_slice() {
        run(words)
    } else {
        None
    }
}

/// The numbers of vertices and of the chunk size, which may be left out.
fn vertices(mut words: Words<'_>) -> Option<Command>
    ensures { result ≡ vertices_of words.entry }
{
    let vertices = words.take_short_number()?;
    let chunk_size = if words.is_empty() {
        DEFAULT_CHUNK_SIZE
    } else {
        words.take_short_number()?
    };
    words.is_empty().then_some(Command::Vertices {
        vertices,
        chunk_size,
    })
}

/// An edge to add, and its weight.
fn add(mut words: Words<'_>) -> Option<Command>
    ensures { result ≡ add_of words.entry }
{
    let source = words.take_short_number()?;
    let destination = words.take_short_number()?;
    let weight = last_weight(words)?;
    Some(Command::Add {
        source,
        destination,
        weight,
    })
}

/// An edge to remove.
fn remove(mut words: Words<'_>) -> Option<Command>
    ensures { result ≡ remove_of words.entry }
{
    let source = words.take_short_number()?;
    let destination = words.take_short_number()?;
    words.is_empty().then_some(Command::Remove {
        source,
        destination,
    })
}

/// A number of vertices to grow to.
fn grow(mut words: Words<'_>) -> Option<Command>
    ensures { result ≡ grow_of words.entry }
{
    let count = words.take_short_number()?;
    words
        .is_empty()
        .then_some(Command::Grow { vertices: count })
}

/// No word may follow `commit`.
fn commit(words: Words<'_>) -> Option<Command>
    ensures { result ≡ alone Commit words.entry }
{
    words.is_empty().then_some(Command::Commit)
}

/// The version to hold: the newest, or the one after the word `at`.
fn hold(mut words: Words<'_>) -> Option<Command>
    ensures { result ≡ hold_of words.entry }
{
    match words.take_word() {
        None => Some(Command::Hold { version: None }),
        Some(b"at") => {
            let version = Some(last_number(words)?);
            Some(Command::Hold { version })
        }
        Some(_) => None,
    }
}

/// The ticket to close.
fn release(words: Words<'_>) -> Option<Command>
    ensures { result ≡ option_map Release (one_number words.entry) }
{
    let ticket = last_number(words)?;
    Some(Command::Release { ticket })
}

/// The edges of the newest version, or of a ticket's.
fn edges(words: Words<'_>) -> Option<Command>
    ensures { result ≡ option_map Edges (ticket_of words.entry) }
{
    let ticket = last_ticket(words)?;
    Some(Command::Edges { ticket })
}

/// A program to run, on the newest version or a ticket's.
fn run(mut words: Words<'_>) -> Option<Command>
    ensures { result ≡ run_of words.entry }
{
    let program = words.take_number()?;
    let turns = words.take_number()?;
    let workers = words.take_number()?;
    let ticket = last_ticket(words)?;
    Some(Command::Run {
        program,
        turns,
        workers,
        ticket,
    })
}

/// The ticket that is the only word left, if one is left.
fn last_ticket(words: Words<'_>) -> Option<Option<u64>>
    ensures { result ≡ ticket_of words.entry }
{
    if words.is_empty() {
        return Some(None);
    }
    Some(Some(last_number(words)?))
}

/// The number below 2^64 that is the only word left.
#[inline]
fn last_number(mut words: Words<'_>) -> Option<u64>
    ensures { result ≡ one_number words.entry }
{
    let number = words.take_number()?;
    words.is_empty().then_some(number)
}

/// The weight that is the only word left, or 1 where none is left.
#[inline]
fn last_weight(mut words: Words<'_>) -> Option<i64>
    ensures { result ≡ weight_of words.entry }
{
    if words.is_empty() {
        return Some(UNIT_WEIGHT);
    }
    let weight = words.take_integer()?;
    words.is_empty().then_some(weight)
}
