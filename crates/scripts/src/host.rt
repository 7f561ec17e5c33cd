//! Script host: where memory is taken from, and the programs that a script may run, to which refused lines are reported.
ghost use Rattle.std.specs.Prelude.{◌≡◌, IfErr, IfOk, Err};
ghost use Rattle.replies.specs.declared.line_reply.LineReply.TheVariants.{Refused};
ghost use Rattle.replies.specs.declared.send_error.SendError.TheVariants.{NoMemory};
ghost use Rattle.replies.specs.ReplyText.{line_text};
ghost use Rattle.replies.specs.Sending.{Emits};

use crate::programs::Programs;
use devices::Drain;
use replies::{LineReply, ReplyWriter, SendError};
use std::alloc::{AllocError, Global};

/// Where memory is taken from, and the programs that a script may run.
#[derive(Drop)]
pub(crate) struct Host<'a, P: Programs> {
    pub(crate) alloc: Global,
    pub(crate) programs: &'a P,
}

impl<P: Programs> Host<'_, P> {
    /// Sends the reply to a line, and reports it to the programs if the line is refused.
    pub(crate) fn send<W: Drain>(
        &self,
        line: LineReply,
        replies: &mut ReplyWriter<'_, W>,
    ) -> Result<(), SendError>
        ensures { Emits replies.old replies.new (line_text line) result }
    {
        self.see(line);
        replies.send_line(line)
    }

    /// Sends the reply to a line that is refused by this number.
    pub(crate) fn refuse<W: Drain>(
        &self,
        number: u16,
        replies: &mut ReplyWriter<'_, W>,
    ) -> Result<(), SendError>
        ensures { Emits replies.old replies.new (line_text (Refused number)) result }
    {
        self.send(LineReply::Refused(number), replies)
    }

    /// Sends the reply to a step. One that was out of memory has none: then nothing is sent.
    pub(crate) fn reply<W: Drain>(
        &self,
        reply: Result<LineReply, AllocError>,
        replies: &mut ReplyWriter<'_, W>,
    ) -> Result<(), SendError>
        ensures sent { IfOk reply (λ line. Emits replies.old replies.new (line_text line) result) }
        ensures unsent { IfErr reply (λ e. (replies.new ≡ replies.old) × (result ≡ Err NoMemory)) }
    {
        self.send(reply?, replies)
    }

    // Reports a refusal to the programs, if this reply is one.
    fn see(&self, line: LineReply) {
        if let LineReply::Refused(number) = line {
            self.programs.see_refusal(number);
        }
    }
}
