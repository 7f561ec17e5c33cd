//! Replies on their way to a writer: kept in a block, and written when the block is full.
ghost use Rattle.std.specs.Prelude.{◌≡◌, [], ◌++◌, OnOk};
ghost use Rattle.replies.specs.ReplyText.{word_line, ticket_line, edge_line, edges_text, line_text, weight_text};
ghost use Rattle.replies.specs.Sending.{Emits};

use crate::line_reply::LineReply;
use crate::outcome_text::push_spaced_integer;
use crate::send_error::SendError;
use decimal::push_number;
use devices::{Drain, write_all};
use std::alloc::AllocError;
use std::marker::Model;
use tree_batch::Graph;
use weighted_edges::UNIT_WEIGHT;

/// How many bytes are read at once, and kept before they are written.
pub const BLOCK: usize = 65_536;

/// From here on a block may lack room for a line.
const NEARLY_FULL: usize = BLOCK - 64;

/// A writer, and the bytes that are kept for it. A contract sees which writer it is, what it has taken,
/// what is kept, and how often the writer has failed.
#[derive(Drop)]
pub struct ReplyWriter<'a, W: Drain> {
    pub writer: &'a mut W,
    pub kept: &'a mut Vec<u8>,
}

impl<'a, W: Drain> Model for ReplyWriter<'a, W> {
    ghost use Rattle.replies.specs.Sending.{Output};
    ghost use Rattle.replies.specs.inside.Sending.{output};

    ghost Value = { Output };

    ghost view = { λ r. output r.writer.ghost_name (W.bytes_written r.writer.now)
        r.kept.now.items (W.failures r.writer.now) };
}

impl<'a, W: Drain> ReplyWriter<'a, W> {
    /// Writes what is kept, all of it.
    pub fn flush(&mut self) -> Result<(), SendError>
        ensures emits { Emits self.old self.new [] result }
        ensures empty { OnOk result (self.new.kept ≡ []) }
    {
        match write_all(self.writer, self.kept) {
            Ok(()) => {
                self.kept.clear();
                Ok(())
            }
            Err(_) => Err(SendError::WriteFailed),
        }
    }

    /// Writes what is kept where there may be no room for another line.
    pub(crate) fn make_room(&mut self) -> Result<(), SendError>
        ensures { Emits self.old self.new [] result }
    {
        if self.kept.len() < NEARLY_FULL {
            return Ok(());
        }
        self.flush()
    }

    /// Sends a reply of one line.
    pub fn send_line(&mut self, reply: LineReply) -> Result<(), SendError>
        ensures { Emits self.old self.new (line_text reply) result }
    {
        self.make_room()?;
        push_line(self.kept, reply)?;
        Ok(())
    }

    /// Sends how many edges a graph has, and a line for each: its ends, and its weight where that is not 1.
    pub fn send_edges(&mut self, graph: &Graph) -> Result<(), SendError>
        ensures { Emits self.old self.new (edges_text graph.now.edges) result }
    {
        self.send_line(LineReply::Edges(graph.edge_count() as u64))?;
        'edges: for edge in graph.edges() {
            self.send_edge(edge)?;
        }
        Ok(())
    }

    fn send_edge(&mut self, edge: (u32, u32, i64)) -> Result<(), SendError>
        ensures { Emits self.old self.new (edge_line edge) result }
    {
        self.make_room()?;
        push_edge_line(self.kept, edge)?;
        Ok(())
    }

    /// Sends bytes. Where the block has no room for them, it is written, and then they are.
    pub fn send_bytes(&mut self, bytes: &[u8]) -> Result<(), SendError>
        ensures { Emits self.old self.new bytes.now result }
    {
        if bytes.len() > BLOCK.saturating_sub(self.kept.len()) {
            return self.write_after(bytes);
        }
        self.kept.extend_from_slice(bytes)?;
        Ok(())
    }

    /// Writes what is kept, and then these bytes.
    fn write_after(&mut self, bytes: &[u8]) -> Result<(), SendError>
        ensures { Emits self.old self.new bytes.now result }
    {
        self.flush()?;
        match write_all(self.writer, bytes) {
            Ok(()) => Ok(()),
            Err(_) => Err(SendError::WriteFailed),
        }
    }
}

/// Appends the text of a reply of one line. After `AllocError` a part of it may be there.
fn push_line(out: &mut Vec<u8>, reply: LineReply) -> Result<(), AllocError>
    ensures { OnOk result (out.new.items ≡ out.old.items ++ line_text reply) }
{
    match reply {
        LineReply::Open(vertices) => push_word_line(out, b"open", u64::from(vertices)),
        LineReply::Version(number) => push_word_line(out, b"version", number),
        LineReply::Ticket(ticket, version) => push_ticket_line(out, ticket, version),
        LineReply::Released(ticket) => push_word_line(out, b"released", ticket),
        LineReply::Edges(count) => push_word_line(out, b"edges", count),
        LineReply::Refused(number) => push_word_line(out, b"refused", u64::from(number)),
    }
}

fn push_word_line(out: &mut Vec<u8>, word: &[u8], number: u64) -> Result<(), AllocError>
    ensures { OnOk result (out.new.items ≡ out.old.items ++ word_line word.now number) }
{
    out.extend_from_slice(word)?;
    out.push(b' ')?;
    push_number(out, number)?;
    out.push(b'\n')?;
    Ok(())
}

fn push_ticket_line(out: &mut Vec<u8>, ticket: u64, version: u64) -> Result<(), AllocError>
    ensures { OnOk result (out.new.items ≡ out.old.items ++ ticket_line ticket version) }
{
    out.extend_from_slice(b"ticket ")?;
    push_number(out, ticket)?;
    out.push(b' ')?;
    push_word_line(out, b"version", version)
}

fn push_edge_line(out: &mut Vec<u8>, edge: (u32, u32, i64)) -> Result<(), AllocError>
    ensures { OnOk result (out.new.items ≡ out.old.items ++ edge_line edge) }
{
    push_number(out, u64::from(edge.0))?;
    out.push(b' ')?;
    push_number(out, u64::from(edge.1))?;
    push_weight(out, edge.2)?;
    out.push(b'\n')?;
    Ok(())
}

/// Appends the weight of an edge after a space, where it is not 1.
fn push_weight(out: &mut Vec<u8>, weight: i64) -> Result<(), AllocError>
    ensures { OnOk result (out.new.items ≡ out.old.items ++ weight_text weight) }
{
    if weight == UNIT_WEIGHT {
        return Ok(());
    }
    push_spaced_integer(out, weight)
}
