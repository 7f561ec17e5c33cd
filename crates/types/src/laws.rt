//! Laws of faults and of checked programs that the crates above cite. The calls do nothing.
ghost use Rattle.std.specs.Prelude.{◌≡◌, ◌⊎◌, ℕ};
ghost use Rattle.std.specs.List.{AllByRecursion};
ghost use Rattle.syntax.specs.Offsets.{IsOffsetIn};
ghost use Rattle.syntax.specs.SourceSpelling.{source_terminals};
ghost use Rattle.syntax.specs.SourceTrees.{SourceTree};
ghost use Rattle.types.specs.EdgeWrites.{ReducesInOneWay, SetsNoEntry};
ghost use Rattle.types.specs.Program.{program_of};

/// The law that each fault of a source is where a name or a label does, or a keyword that begins a declaration or a
/// statement, or at the length of the text; and that each call of a schedule is where its keyword does.
pub fn faults_stand_in_the_source()
    ensures faults { (source : SourceTree) (length : ℕ) → AllByRecursion (λ f. IsOffsetIn (source_terminals source) f.at ⊎ (f.at ≡ length))
        (program_of source length).faults }
    ensures calls { (source : SourceTree) (length : ℕ) → AllByRecursion (λ call. IsOffsetIn (source_terminals source) call.at)
        (program_of source length).value.schedule }
{}

/// The law that an edge function reduces a vector in one way only, and writes no entry by `=`.
pub fn edge_functions_only_reduce()
    ensures { (source : SourceTree) (length : ℕ) → AllByRecursion (λ f. ReducesInOneWay f.steps
        × SetsNoEntry f.steps) (program_of source length).value.edge_functions }
{}
