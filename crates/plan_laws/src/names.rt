//! Laws of the names in instructions, each the contract of a call that does nothing.
ghost use Rattle.std.specs.Prelude.{◌≡◌};
ghost use Rattle.typed_tree.specs.ProgramTree.{ProgramTree};
ghost use Rattle.plans.specs.Instruction.{InstructionTree};
ghost use Rattle.plan_laws.specs.Kinds.{instruction_words};
ghost use Rattle.plan_laws.specs.Names.{HasNoMarks, edges_in, edges_of, names_in, names_of, reduction_named, reduction_of};

/// The law that the words after the first one name what the instruction works on: the variable, vector or set that changes,
/// the set that it is made from, and the functions of a vertex apply in their order. The call does nothing.
pub fn words_name_what_is_worked_on()
    ensures { (p : ProgramTree) (i : InstructionTree) → names_in (instruction_words p i) ≡ names_of p i.operation }
{}

/// The law that the word before the value of an entry says by which reduction the entry gets it, or that it is set. The call
/// does nothing.
pub fn words_say_the_reduction()
    ensures { (p : ProgramTree) (i : InstructionTree) → reduction_named (instruction_words p i) ≡ reduction_of i.operation }
{}

/// The law that the words of an edge apply name its ends if it has some, its function, a second function that is fused with
/// it, and for each function the set of changed vertices and the vector. The call does nothing.
pub fn words_name_edge_applies()
    ensures { (p : ProgramTree) (i : InstructionTree) → HasNoMarks p → edges_in (instruction_words p i) ≡ edges_of p i.operation }
{}
