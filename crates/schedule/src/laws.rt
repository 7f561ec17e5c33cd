//! Laws of accepted and refused schedules. The calls do nothing.
ghost use Rattle.std.specs.Prelude.{◌≡◌, ◌↔◌, ℕ, Ok, Err, IsOk};
ghost use Rattle.typed_tree.specs.ProgramTree.{ProgramTree};
ghost use Rattle.schedule.specs.BrokenRules.{BreakNoRule, IsRefused};
ghost use Rattle.schedule.specs.Calls.{schedule_of};
ghost use Rattle.schedule.specs.Schedule.{empty_schedule};
ghost use Rattle.schedule.specs.declared.error.ScheduleRule as broken;
ghost use Rattle.schedule.specs.Laws.{AreOnceOnLabels, FusesInPairs, FusesWell, GroupsAreDistinct, HasDefaults, HasValues};
ghost use Rattle.apply_options.specs.ScheduleTree.{ScheduleTree};

/// The law that of two fused statements the second is right after the first in one block, that they apply to
/// the same sets, and that edge applies among them are independent: no vector that the first writes is read or
/// written by the second or read by a filter of its ends, and no end of the second is the set that the first one's
/// changes go to.
pub fn fused_statements_are_neighbours()
    ensures { (p : ProgramTree) (s : ScheduleTree) → schedule_of p ≡ Ok s → FusesWell p s }
{}

/// The law that the first label of a fusing has the second, and the second the first, so that no label is in two.
pub fn labels_are_fused_once()
    ensures { (p : ProgramTree) (s : ScheduleTree) → schedule_of p ≡ Ok s → FusesInPairs s }
{}

/// The law that a vector is in one group at most, and there once.
pub fn vectors_are_in_one_group()
    ensures { (p : ProgramTree) (s : ScheduleTree) → schedule_of p ≡ Ok s → GroupsAreDistinct s }
{}

/// The law that the label of each `config` call has the value of that call: no later call changes it.
pub fn labels_have_the_values_of_calls()
    ensures { (p : ProgramTree) (s : ScheduleTree) → schedule_of p ≡ Ok s → HasValues p s p.schedule }
{}

/// The law that a label has the default of each kind of value for which no `config` call is on it.
pub fn labels_without_calls_have_the_defaults()
    ensures { (p : ProgramTree) (s : ScheduleTree) → schedule_of p ≡ Ok s → HasDefaults p s }
{}

/// The law that of each kind of `config` call one at most is on a label.
pub fn labels_have_one_call_of_a_kind()
    ensures { (p : ProgramTree) (s : ScheduleTree) → schedule_of p ≡ Ok s → AreOnceOnLabels p p.schedule }
{}

/// The law that a schedule is refused exactly at the first call that breaks a rule, and by the rule with the least
/// number of those that this call breaks: the calls before it break none. A call with another number of arguments than it
/// takes breaks the rule of arguments alone.
pub fn refused_calls_break_the_least_rule()
    ensures { (p : ProgramTree) (r : broken.ScheduleRule) (at : ℕ) → (schedule_of p ≡ Err (r, at)) ↔ IsRefused p empty_schedule p.schedule r at }
{}

/// The law that a schedule is accepted exactly where no call of it breaks a rule.
pub fn accepted_calls_break_no_rule()
    ensures { (p : ProgramTree) → IsOk (schedule_of p) ↔ BreakNoRule p empty_schedule p.schedule }
{}
