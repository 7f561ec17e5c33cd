//! Laws of the words of instructions, each the contract of a call that does nothing.
ghost use Rattle.std.specs.Prelude.{◌≡◌, ◌<◌, ◌^◌, Some};
ghost use Rattle.std.specs.Option.{IfSome};
ghost use Rattle.typed_tree.specs.ProgramTree.{ProgramTree};
ghost use Rattle.plans.specs.Instruction.{InstructionTree};
ghost use Rattle.plan_laws.specs.Kinds.{ApplyEdges, instruction_words, kind_in, instruction_kind_of, index_in, index_of};
ghost use Rattle.plan_laws.specs.Settings.{settings_in, settings_used};

/// The law that the first word of an instruction says its kind: no two kinds share one. The call does
/// nothing.
pub fn first_words_say_the_kind()
    ensures { (p : ProgramTree) (i : InstructionTree) → kind_in (instruction_words p i) ≡ Some (instruction_kind_of i.operation) }
{}

/// The law that the words of an instruction say where it may continue: at the number that is after a test, or after
/// `jump`. The call does nothing.
pub fn words_say_where_to_go()
    ensures { (p : ProgramTree) (i : InstructionTree) → IfSome (index_of i.operation) (λ to. to < 2 ^ 64)
        → index_in (instruction_words p i) ≡ index_of i.operation }
{}

/// The law that the last three words of an edge apply say by what the engines go: the direction, the parallelization and the
/// dense vertex sets that the schedule gives it, or what holds where it gives none. The call does nothing.
pub fn words_say_the_settings()
    ensures { (p : ProgramTree) (i : InstructionTree) → instruction_kind_of i.operation ≡ ApplyEdges
        → settings_in (instruction_words p i) ≡ Some (settings_used i.apply_schedule) }
{}
