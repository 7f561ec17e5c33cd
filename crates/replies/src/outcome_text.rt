//! Outcomes as text, sent piece by piece.
ghost use Rattle.std.specs.Fmt.{signed_decimal};
ghost use Rattle.std.specs.List.{flat_map};
ghost use Rattle.std.specs.Prelude.{◌≡◌, ◌∷◌, ◌++◌, OnOk, decimal};
ghost use Rattle.replies.specs.ReplyText.{end_line, end_text, fault_text, labelled, is_fault as faulted, outcome_text, set_line, vector_line};
ghost use Rattle.replies.specs.Sending.{Emits};

use crate::reply_writer::ReplyWriter;
use crate::send_error::SendError;
use algorithm_meaning::{End, NamedSet, NamedVector, Outcome};
use decimal::{push_integer, push_number};
use devices::Drain;
use std::alloc::AllocError;

/// Whether a run that ended so ended by a fault.
pub fn is_fault(end: End) -> bool
    ensures { result ≡ faulted end }
{
    matches!(end, End::Fault(..))
}

impl<'a, W: Drain> ReplyWriter<'a, W> {
    /// Sends what a run shows. Each piece of its text goes its way before the next is made.
    pub fn send_outcome(&mut self, outcome: &Outcome) -> Result<(), SendError>
        ensures { Emits self.old self.new (outcome_text outcome.now) result }
    {
        self.send_bytes(outcome.text.as_slice())?;
        self.send_end(outcome.end, outcome.turns)?;
        self.send_vectors(outcome.vectors.as_slice())?;
        self.send_sets(outcome.sets.as_slice())
    }

    fn send_end(&mut self, end: End, turns: u64) -> Result<(), SendError>
        ensures { Emits self.old self.new (end_line end turns) result }
    {
        self.make_room()?;
        push_end_line(self.kept, end, turns)?;
        Ok(())
    }

    fn send_vectors(&mut self, vectors: &[NamedVector]) -> Result<(), SendError>
        ensures { Emits self.old self.new (flat_map vector_line vectors.now) result }
    {
        'vectors: for vector in vectors {
            self.send_vector(vector)?;
        }
        Ok(())
    }

    fn send_vector(&mut self, vector: &NamedVector) -> Result<(), SendError>
        ensures { Emits self.old self.new (vector_line vector.now) result }
    {
        self.send_bytes(b"vector ")?;
        self.send_bytes(vector.name.as_slice())?;
        self.send_bytes(b":")?;
        self.send_integers(vector.entries.as_slice())?;
        self.send_bytes(b"\n")
    }

    fn send_integers(&mut self, integers: &[i64]) -> Result<(), SendError>
        ensures { Emits self.old self.new (flat_map (λ n. 32 ∷ signed_decimal n) integers.now) result }
    {
        'integers: for integer in integers {
            self.send_integer(*integer)?;
        }
        Ok(())
    }

    fn send_integer(&mut self, integer: i64) -> Result<(), SendError>
        ensures { Emits self.old self.new (32 ∷ signed_decimal integer) result }
    {
        self.make_room()?;
        push_spaced_integer(self.kept, integer)?;
        Ok(())
    }

    fn send_sets(&mut self, sets: &[NamedSet]) -> Result<(), SendError>
        ensures { Emits self.old self.new (flat_map set_line sets.now) result }
    {
        'sets: for set in sets {
            self.send_set(set)?;
        }
        Ok(())
    }

    fn send_set(&mut self, set: &NamedSet) -> Result<(), SendError>
        ensures { Emits self.old self.new (set_line set.now) result }
    {
        self.send_bytes(b"set ")?;
        self.send_bytes(set.name.as_slice())?;
        self.send_bytes(b":")?;
        self.send_members(set.members.as_slice())?;
        self.send_bytes(b"\n")
    }

    fn send_members(&mut self, members: &[u32]) -> Result<(), SendError>
        ensures { Emits self.old self.new (flat_map (λ n. 32 ∷ decimal n) members.now) result }
    {
        'members: for member in members {
            self.send_member(*member)?;
        }
        Ok(())
    }

    fn send_member(&mut self, member: u32) -> Result<(), SendError>
        ensures { Emits self.old self.new (32 ∷ decimal member) result }
    {
        self.make_room()?;
        push_spaced_number(self.kept, u64::from(member))?;
        Ok(())
    }
}

fn push_end_line(out: &mut Vec<u8>, end: End, turns: u64) -> Result<(), AllocError>
    ensures { OnOk result (out.new.items ≡ out.old.items ++ end_line end turns) }
{
    out.extend_from_slice(b"end ")?;
    push_end(out, end)?;
    push_labelled(out, b" turns ", turns)?;
    out.push(b'\n')?;
    Ok(())
}

fn push_end(out: &mut Vec<u8>, end: End) -> Result<(), AllocError>
    ensures { OnOk result (out.new.items ≡ out.old.items ++ end_text end) }
{
    match end {
        End::Finished => out.extend_from_slice(b"finished"),
        End::TurnsOver => out.extend_from_slice(b"turns-over"),
        End::Fault(number, statement) => push_fault(out, u64::from(number), statement),
    }
}

fn push_fault(out: &mut Vec<u8>, number: u64, statement: u64) -> Result<(), AllocError>
    ensures { OnOk result (out.new.items ≡ out.old.items ++ fault_text number statement) }
{
    push_labelled(out, b"fault ", number)?;
    push_labelled(out, b" statement ", statement)
}

fn push_labelled(out: &mut Vec<u8>, label: &[u8], number: u64) -> Result<(), AllocError>
    ensures { OnOk result (out.new.items ≡ out.old.items ++ labelled label.now number) }
{
    out.extend_from_slice(label)?;
    push_number(out, number)
}

/// Appends an integer after a space.
pub(crate) fn push_spaced_integer(out: &mut Vec<u8>, integer: i64) -> Result<(), AllocError>
    ensures { OnOk result (out.new.items ≡ out.old.items ++ 32 ∷ signed_decimal integer) }
{
    out.push(b' ')?;
    push_integer(out, integer)
}

fn push_spaced_number(out: &mut Vec<u8>, number: u64) -> Result<(), AllocError>
    ensures { OnOk result (out.new.items ≡ out.old.items ++ 32 ∷ decimal number) }
{
    out.push(b' ')?;
    push_number(out, number)
}
