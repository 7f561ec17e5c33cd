//! The calls of a schedule, accepted one after the other.
ghost use Rattle.std.specs.Prelude.{◌≡◌, [], map, IfNone, IfOk, OnOk};
ghost use Rattle.std.specs.Option.{option_map};
ghost use Rattle.std.specs.List.{concat};
ghost use Rattle.typed_tree.specs.ProgramTree.{call_tree, program_tree};
ghost use Rattle.schedule.specs.Calls.{Accepts, apply_at as applied_at, fusing_fault as fault_of_fusing, grown, is_followed_by as has_behind, two_of as two_in, with_call, with_calls, with_fields, with_fusing, with_setting_value as value_put};
ghost use Rattle.schedule.specs.Schedule.{label_index, vector_names, vector_by_name};
ghost use Rattle.schedule.specs.inside.Putting.{AreIndices, AreSites, Groups, Puts, PutsAll, bytes_of_two};

use crate::config_values::with_value;
use crate::error::{ScheduleError, ScheduleRule};
use crate::names::{indices_of, vector_indices};
use crate::rules::{are_independent, have_same_sets};
use crate::schedule::Schedule;
use crate::site::Sites;
use apply_options::{Fused, Setting};
use expression_types::Names;
use indexmap::IndexSet;
use std::alloc::{AllocError, Global};
use typed_tree::{Name, ScheduleCall, Sequence, StatementApply, Typed};

/// What the calls of a program are looked up in.
struct Tables<'a> {
    program: &'a Typed,
    labels: Names<usize>,
    vectors: Names<usize>,
    sites: Sites,
    ghost labels_found: { AreIndices labels (program_tree program.now).labels },
    ghost vectors_found: { AreIndices vectors (vector_names (program_tree program.now).names (program_tree program.now).vectors) },
    ghost sites_found: { AreSites sites (program_tree program.now).main },
}

impl Drop for Tables<'_> {
    fn drop(self) {
        let Tables {
            program: _,
            labels: _,
            vectors: _,
            sites: _,
        } = self;
    }
}

/// What a program's schedule says. The time is in proportion to the program and to the calls, and for a fusing to
/// the two functions and the filters besides.
///
/// Errors: `Faulty` if a call breaks a rule: the first that does, with the least number of the rules that it
/// breaks, and a wrong number of arguments before all; and `NoMemory`.
pub fn accept(alloc: Global, program: &Typed) -> Result<Schedule, ScheduleError>
    ensures { Accepts (program_tree program.now) result }
{
    let tables = Tables::of(alloc, program)?;
    let mut schedule = Schedule::new(alloc);
    match tables.put_calls(alloc, &program.schedule, &mut schedule) {
        Ok(()) => Ok(schedule),
        Err(error) => Err(error),
    }
}

/// The two arguments, if there are two.
fn two_of(arguments: &[Name]) -> Option<(&[u8], &[u8])>
    ensures { option_map bytes_of_two result ≡ two_in arguments.now }
{
    if arguments.len() == 2 {
        Some((arguments[0].as_slice(), arguments[1].as_slice()))
    } else {
        None
    }
}

impl Tables<'_> {
    /// The tables of a program.
    fn of(alloc: Global, program: &Typed) -> Result<Tables<'_>, AllocError>
        ensures { IfOk result (λ tables. tables.program.now ≡ program.now) }
    {
        let labels = indices_of(alloc, &program.labels)?;
        let vectors = vector_indices(alloc, &program.names, &program.vectors)?;
        let sites = Sites::of(alloc, &program.main)?;
        Ok(Tables {
            program,
            labels,
            vectors,
            sites,
        })
    }

    /// Puts what calls say, up to the first that breaks a rule.
    fn put_calls(
        &self,
        alloc: Global,
        calls: &[ScheduleCall],
        schedule: &mut Schedule,
    ) -> Result<(), ScheduleError>
        requires { schedule.old.groups ≡ [] }
        ensures { PutsAll (with_calls (program_tree self.now.program.now) (map call_tree calls.now) schedule.old) result schedule.new }
    {
        let mut taken = IndexSet::new(alloc);
        'calls: for call in calls {
            if let Some(rule) = self.put_call(alloc, call, schedule, &mut taken)? {
                return Err(ScheduleError::Faulty { rule, at: call.at });
            }
        }
        Ok(())
    }

    /// Puts what a call says, or answers the rule that it breaks. `taken` has the vectors of all groups.
    fn put_call(
        &self,
        alloc: Global,
        call: &ScheduleCall,
        schedule: &mut Schedule,
        taken: &mut IndexSet<usize>,
    ) -> Result<Option<ScheduleRule>, AllocError>
        requires { taken.old.keys ≡ concat schedule.old.groups }
        ensures outcome { IfOk result (λ fault. Puts (with_call (program_tree self.now.program.now) (call_tree call.now) schedule.old) fault schedule.new) }
        ensures taken { IfOk result (λ fault. IfNone fault (taken.new.keys ≡ concat schedule.new.groups)) }
    {
        match call.setting {
            Setting::FuseFunctions => self.put_fusing(alloc, &call.arguments, schedule),
            Setting::FuseFields => self.put_fields(alloc, &call.arguments, schedule, taken),
            setting => self.put_value(setting, &call.arguments, schedule),
        }
    }

    /// Puts the value of a `config` call, or answers the rule that the call breaks.
    fn put_value(
        &self,
        setting: Setting,
        arguments: &[Name],
        schedule: &mut Schedule,
    ) -> Result<Option<ScheduleRule>, AllocError>
        ensures outcome { IfOk result (λ fault. Puts (value_put (program_tree self.now.program.now) setting arguments.now schedule.old) fault schedule.new) }
        ensures groups { OnOk result (schedule.new.groups ≡ schedule.old.groups) }
    {
        let Some((name, text)) = two_of(arguments) else {
            return Ok(Some(ScheduleRule::BadArgument));
        };
        let Some(label) = self.label(name) else {
            return Ok(Some(ScheduleRule::UnknownLabel));
        };
        let Some(StatementApply::Edges { .. }) = self.apply_at(label) else {
            return Ok(Some(ScheduleRule::NoApply));
        };
        match with_value(schedule.apply_schedule(label), setting, text) {
            Ok(apply_schedule) => {
                schedule.put(label, apply_schedule)?;
                Ok(None)
            }
            Err(rule) => Ok(Some(rule)),
        }
    }

    /// The index of the label with this name.
    fn label(&self, name: &[u8]) -> Option<usize>
        ensures { result ≡ label_index (program_tree self.now.program.now) name.now }
    {
        self.labels.get(name)
    }

    /// The index of the vector with this name.
    fn vector(&self, name: &[u8]) -> Option<usize>
        ensures { result ≡ vector_by_name (program_tree self.now.program.now) name.now }
    {
        self.vectors.get(name)
    }

    /// What the statement with a label applies.
    fn apply_at(&self, label: usize) -> Option<StatementApply>
        ensures { result ≡ applied_at (program_tree self.now.program.now) label }
    {
        self.sites.get(label)?.apply
    }

    /// Puts that two applies are fused, or answers the rule that the call breaks.
    fn put_fusing(
        &self,
        alloc: Global,
        arguments: &[Name],
        schedule: &mut Schedule,
    ) -> Result<Option<ScheduleRule>, AllocError>
        ensures outcome { IfOk result (λ fault. Puts (with_fusing (program_tree self.now.program.now) arguments.now schedule.old) fault schedule.new) }
        ensures groups { OnOk result (schedule.new.groups ≡ schedule.old.groups) }
    {
        let Some((one, other)) = two_of(arguments) else {
            return Ok(Some(ScheduleRule::BadArgument));
        };
        let Some(first) = self.label(one) else {
            return Ok(Some(ScheduleRule::UnknownLabel));
        };
        let Some(second) = self.label(other) else {
            return Ok(Some(ScheduleRule::UnknownLabel));
        };
        match self.fusing_fault(alloc, first, second, schedule)? {
            Some(rule) => Ok(Some(rule)),
            None => {
                schedule.fuse(first, Fused::With(second))?;
                schedule.fuse(second, Fused::Into(first))?;
                Ok(None)
            }
        }
    }

    /// The rule that a fusing of the applies with these labels breaks.
    fn fusing_fault(
        &self,
        alloc: Global,
        first: usize,
        second: usize,
        schedule: &Schedule,
    ) -> Result<Option<ScheduleRule>, AllocError>
        ensures { IfOk result (λ fault. fault ≡ fault_of_fusing (program_tree self.now.program.now) schedule.now first second) }
    {
        let (Some(one), Some(other)) = (self.apply_at(first), self.apply_at(second)) else {
            return Ok(Some(ScheduleRule::NoApply));
        };
        if first == second || schedule.is_fused(first) || schedule.is_fused(second) {
            return Ok(Some(ScheduleRule::GivenTwice));
        }
        if !self.is_followed_by(first, second) {
            return Ok(Some(ScheduleRule::NotAdjacent));
        }
        if !have_same_sets(&self.program.names, one, other) {
            return Ok(Some(ScheduleRule::DifferentSets));
        }
        if !are_independent(alloc, self.program, one, other)? {
            return Ok(Some(ScheduleRule::NotIndependent));
        }
        Ok(None)
    }

    /// Whether the statement right after that with the first label, in its block, has the second.
    fn is_followed_by(&self, first: usize, second: usize) -> bool
        ensures { result ≡ has_behind (program_tree self.now.program.now) first second }
    {
        match self.sites.get(first) {
            Some(site) => site.next == Some(second),
            None => false,
        }
    }

    /// Puts a group of vectors, or answers the rule that the call breaks.
    fn put_fields(
        &self,
        alloc: Global,
        names: &[Name],
        schedule: &mut Schedule,
        taken: &mut IndexSet<usize>,
    ) -> Result<Option<ScheduleRule>, AllocError>
        requires { taken.old.keys ≡ concat schedule.old.groups }
        ensures outcome { IfOk result (λ fault. Puts (with_fields (program_tree self.now.program.now) names.now schedule.old) fault schedule.new) }
        ensures taken { IfOk result (λ fault. IfNone fault (taken.new.keys ≡ concat schedule.new.groups)) }
    {
        if names.len() < 2 {
            return Ok(Some(ScheduleRule::BadFields));
        }
        match self.group_of(alloc, names, taken)? {
            Some(group) => {
                schedule.push_group(group)?;
                Ok(None)
            }
            None => Ok(Some(ScheduleRule::BadFields)),
        }
    }

    /// The vectors of these names, if each is one that was not taken and is named once. They are taken then.
    fn group_of(
        &self,
        alloc: Global,
        names: &[Name],
        taken: &mut IndexSet<usize>,
    ) -> Result<Option<Sequence<usize>>, AllocError>
        ensures { IfOk result (λ group. Groups (grown (program_tree self.now.program.now) taken.old.keys [] names.now) group taken.old.keys taken.new.keys) }
    {
        let mut group = Vec::new(alloc);
        'names: for name in names {
            let Some(vector) = self.vector(name.as_slice()) else {
                return Ok(None);
            };
            if !taken.insert(vector)? {
                return Ok(None);
            }
            group.push(vector)?;
        }
        Ok(Some(Sequence::new(group)))
    }
}
