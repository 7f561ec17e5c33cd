//! The state of a script, and its lines, whose bytes come in pieces.
ghost use Rattle.std.specs.Prelude.{◌≡◌, [], ◌++◌, None, OnOk};
ghost use Rattle.scripts.specs.Commands.{HasNone};
ghost use Rattle.scripts.specs.inside.Progress.{at_start, reading_after, replies_within};
ghost use Rattle.scripts.specs.inside.Records.{AreRecordsIn};
ghost use Rattle.scripts.specs.Replies.{answer, unopened, has_faulted as state_has_faulted};
ghost use Rattle.replies.specs.Sending.{Emits};

use crate::commands::Command;
use crate::host::Host;
use crate::open_graph::{OpenGraph, refusal};
use crate::parse::command;
use crate::pieces::split_line;
use crate::programs::Programs;
use devices::Drain;
use refusal_numbers::BAD_LINE;
use replies::{LineReply, ReplyWriter, SendError};
use std::alloc::Global;
use std::marker::Model;
use version_list::Versions;
use version_records::VersionRecords;

/// What a script has opened and how far it has been read: the graph that the lines so far opened, if they
/// did, with its versions, and the beginning of the line that has not ended.
///
/// A script gives it to its caller, who has the graph until it lets the state go. That takes time in
/// proportion to the graph, which a process that ends need not spend.
pub struct ScriptState {
    graph: Option<OpenGraph>,
    partial: Vec<u8>,
}

// By hand: a derived drop would be written out, and proved again, in each function that lets a state go.
impl Drop for ScriptState {
    fn drop(self) {
        let ScriptState {
            graph: _,
            partial: _,
        } = self;
    }
}

impl Model for ScriptState {
    ghost use Rattle.scripts.specs.Script.{Reading};

    ghost Value = { Reading };

    ghost view = { λ s. record { state = s.graph; partial = s.partial.items } };
}

impl ScriptState {
    /// No line so far, and no graph. It takes no memory.
    pub fn new(alloc: Global) -> ScriptState
        ensures { result ≡ at_start }
    {
        ScriptState {
            graph: None,
            partial: Vec::new(alloc),
        }
    }

    /// Whether some run has ended by a fault.
    pub(crate) fn has_faulted(&self) -> bool
        ensures { result ≡ state_has_faulted self.now.state }
    {
        match &self.graph {
            None => false,
            Some(graph) => graph.has_faulted(),
        }
    }

    /// Answers the lines that end within the bytes, which come next. The script ends at an error.
    pub(crate) fn take<P: Programs, W: Drain>(
        &mut self,
        host: &Host<'_, P>,
        bytes: &[u8],
        records: &mut VersionRecords<P::Record>,
        replies: &mut ReplyWriter<'_, W>,
    ) -> Result<(), SendError>
        requires ready { P.are_ready host.now.programs.now }
        requires partial { HasNone 10 self.old.partial }
        requires records { AreRecordsIn (P.is_record host.now.programs.now) self.old.state records.old }
        ensures emits { Emits replies.old replies.new
            (replies_within (P.trees host.now.programs.now) self.old bytes.now) result }
        ensures reading { OnOk result
            (self.new ≡ reading_after (P.trees host.now.programs.now) self.old bytes.now) }
        ensures records { OnOk result (AreRecordsIn (P.is_record host.now.programs.now) self.new.state records.new) }
    {
        let mut rest = bytes;
        'lines: while let Some((line, after)) = split_line(rest) {
            self.end_line(host, line, records, replies)?;
            rest = after;
        }
        self.partial.extend_from_slice(rest)?;
        Ok(())
    }

    /// Answers the line that ends with these bytes.
    fn end_line<P: Programs, W: Drain>(
        &mut self,
        host: &Host<'_, P>,
        bytes: &[u8],
        records: &mut VersionRecords<P::Record>,
        replies: &mut ReplyWriter<'_, W>,
    ) -> Result<(), SendError>
        requires ready { P.are_ready host.now.programs.now }
        requires records { AreRecordsIn (P.is_record host.now.programs.now) self.old.state records.old }
        ensures emits { Emits replies.old replies.new (answer (P.trees host.now.programs.now)
            self.old.state (self.old.partial ++ bytes.now)).text result }
        ensures reading { OnOk result (self.new ≡ record {
          state = (answer (P.trees host.now.programs.now)
              self.old.state (self.old.partial ++ bytes.now)).state;
          partial = [];
        }) }
        ensures records { AreRecordsIn (P.is_record host.now.programs.now) self.old.state records.new }
    {
        if self.partial.is_empty() {
            return answer_line(host, &mut self.graph, bytes, records, replies);
        }
        self.partial.extend_from_slice(bytes)?;
        answer_line(host, &mut self.graph, &self.partial, records, replies)?;
        self.partial.clear();
        Ok(())
    }

    /// Answers the last line, which no line feed ended.
    pub(crate) fn finish<P: Programs, W: Drain>(
        &mut self,
        host: &Host<'_, P>,
        records: &mut VersionRecords<P::Record>,
        replies: &mut ReplyWriter<'_, W>,
    ) -> Result<(), SendError>
        requires ready { P.are_ready host.now.programs.now }
        requires records { AreRecordsIn (P.is_record host.now.programs.now) self.old.state records.old }
        ensures emits { Emits replies.old replies.new
            (answer (P.trees host.now.programs.now) self.old.state self.old.partial).text result }
        ensures state { OnOk result (self.new.state ≡
            (answer (P.trees host.now.programs.now) self.old.state self.old.partial).state) }
        ensures records { AreRecordsIn (P.is_record host.now.programs.now) self.old.state records.new }
    {
        answer_line(host, &mut self.graph, &self.partial, records, replies)
    }
}

/// Does a line and sends its reply.
fn answer_line<P: Programs, W: Drain>(
    host: &Host<'_, P>,
    graph: &mut Option<OpenGraph>,
    line: &[u8],
    records: &mut VersionRecords<P::Record>,
    replies: &mut ReplyWriter<'_, W>,
) -> Result<(), SendError>
    requires ready { P.are_ready host.now.programs.now }
    requires records { AreRecordsIn (P.is_record host.now.programs.now) graph.old records.old }
    ensures emits { Emits replies.old replies.new
        (answer (P.trees host.now.programs.now) graph.old line.now).text result }
    ensures state { OnOk result
        (graph.new ≡ (answer (P.trees host.now.programs.now) graph.old line.now).state) }
    ensures records { AreRecordsIn (P.is_record host.now.programs.now) graph.old records.new }
{
    host.programs.begin_line();
    if line.is_empty() {
        return Ok(());
    }
    let Some(command) = command(line) else {
        return host.refuse(BAD_LINE, replies);
    };
    match graph {
        Some(open) => open.answer(host, command, records, replies),
        None => open(host, graph, command, replies),
    }
}

/// Does a command while no graph is open: only `vertices` may be there, and it opens one. Other lines need little room
/// because it is apart.
#[inline(never)]
fn open<P: Programs, W: Drain>(
    host: &Host<'_, P>,
    graph: &mut Option<OpenGraph>,
    command: Command,
    replies: &mut ReplyWriter<'_, W>,
) -> Result<(), SendError>
    requires { graph.old ≡ None }
    ensures emits { Emits replies.old replies.new (unopened command).text result }
    ensures state { OnOk result (graph.new ≡ (unopened command).state) }
{
    let Command::Vertices {
        vertices,
        chunk_size,
    } = command
    else {
        return host.refuse(BAD_LINE, replies);
    };
    match Versions::new(host.alloc, vertices, chunk_size) {
        Ok(versions) => {
            *graph = Some(OpenGraph::new(host.alloc, versions));
            host.send(LineReply::Open(vertices), replies)
        }
        Err(error) => {
            let reply = refusal(error)?;
            host.send(reply, replies)
        }
    }
}
