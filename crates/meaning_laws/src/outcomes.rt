//! Laws of what runs show, each the contract of a call that does nothing.
ghost use Rattle.std.specs.Prelude.{ℕ};
ghost use Rattle.std.specs.List.{AllByRecursion};
ghost use Rattle.typed_tree.specs.ProgramTree.{ProgramTree};
ghost use Rattle.algorithm_meaning.specs.State.{GraphValue};
ghost use Rattle.algorithm_meaning.specs.Meaning.{meaning};
ghost use Rattle.meaning_laws.specs.Members.{AreVertices};
ghost use Rattle.meaning_laws.specs.Printing.{IsPrinted};

/// The law that what a run has printed are lines, each of an integer or of a truth value. The call does nothing.
pub fn runs_print_lines()
    ensures { (p : ProgramTree) (g : GraphValue) (turns : ℕ) → IsPrinted (meaning p g turns).text }
{}

/// The law that each set which a run shows has vertices of the graph, each once and in ascending order. The call does nothing.
pub fn runs_show_sets_of_vertices()
    ensures { (p : ProgramTree) (g : GraphValue) (turns : ℕ)
        → AllByRecursion (λ set. AreVertices g.vertices set.members) (meaning p g turns).sets }
{}
