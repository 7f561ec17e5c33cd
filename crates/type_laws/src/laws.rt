//! Laws of sources and of checked programs, one for each rule of types. The calls do nothing.
ghost use Rattle.std.specs.Prelude.{◌≡◌, ◌≢◌, ◌⊎◌, ◌↔◌, ℕ, ◌≤◌, true, false, [], ◌++◌, map, Ok, Err};
ghost use Rattle.std.specs.List.{AllByRecursion, Contains, IsDistinct};
ghost use Rattle.std.specs.Str.{bytes_eq};
ghost use Rattle.syntax.specs.SourceTrees.{ExpressionTree, InitialTree, SourceTree};
ghost use Rattle.typed_tree.specs.ProgramTree.{ProgramTree};
ghost use Rattle.typed_tree.specs.Resolved.{IsResolved};
ghost use Rattle.expression_types.specs.declared.fault.Fault as fault;
ghost use Rattle.expression_types.specs.declared.fault.TypeRule as type_rule;
ghost use Rattle.expression_types.specs.Expression.{value_of};
ghost use Rattle.expression_types.specs.Least.{IsLeast};
ghost use Rattle.expression_types.specs.ScopeTree.{ScopeTree};
ghost use Rattle.type_laws.specs.BrokenRules.{BreaksNoRule, BreaksRule, IsLeastBroken};
ghost use Rattle.type_laws.specs.ExpressionRules.{own_faults};
ghost use Rattle.type_laws.specs.ExpressionParts.{Form, any_faulty, faults_of_all, form_faults, is_faulty, parts};
ghost use Rattle.type_laws.specs.ExpressionTypes.{ExpressionHas, ExpressionType};
ghost use Rattle.type_laws.specs.SourceParts.{initial_forms};
ghost use Rattle.type_laws.specs.ScopeMeanings.{AreMeant, meanings_of};
ghost use Rattle.type_laws.specs.AskedVectors.{AskForWritten};
ghost use Rattle.type_laws.specs.EntryAccess.{AccessesEntriesWell};
ghost use Rattle.initializer_types.specs.Checker.{CheckerTree, without_ends};
ghost use Rattle.initializer_types.specs.Initial.{initializer_of, is_sound};
ghost use Rattle.initializer_types.specs.DeclarationForms.{main_bytes};
ghost use Rattle.type_laws.specs.InitialValues.{DeclarationInitialsFit};
ghost use Rattle.type_laws.specs.KeptRules.{KeepsRules};
ghost use Rattle.type_laws.specs.LabelIndices.{LabelsAreInOrder};
ghost use Rattle.type_laws.specs.Labels.{labels_of};
ghost use Rattle.type_laws.specs.LoopVariables.{KeepsLoopVariables};
ghost use Rattle.type_laws.specs.MainFunction.{DeclaresMain, functions_named};
ghost use Rattle.type_laws.specs.NewNames.{DeclarationsDeclareNew, edges_declared};
ghost use Rattle.type_laws.specs.Numbers.{InOrder, numbers};
ghost use Rattle.type_laws.specs.Prints.{PrintsInMainAlone};
ghost use Rattle.type_laws.specs.UsedNames.{DeclarationsUseVisible};
ghost use Rattle.type_laws.specs.VisibleSets.{NamesSetsApart};
ghost use Rattle.type_laws.specs.WellTyped.{DeclarationFits};
ghost use Rattle.types.specs.Program.{Checks, program_of};

/// The law that a source has a program or a fault that is reported, and not both. It has a program exactly where it has no
/// fault, and of several the least is reported, by the law [`expression_types::least_fault_is_told`].
pub fn sources_have_a_program_or_a_fault()
    ensures one { (source : SourceTree) (length : ℕ) → ((program : ProgramTree) × Checks source length (Ok program)) ⊎ ((f : fault.Fault)
        × Checks source length (Err f)) }
    ensures not_both { (source : SourceTree) (length : ℕ) (program : ProgramTree) (f : fault.Fault) → Checks source length (Ok program)
        → Checks source length (Err f) → ⊥ }
{}

/// The law that in a source with a program each used name is visible: constants and functions from the end of their
/// declaration, a variable from the end of its declaration to the end of its block, the name of a `for` in its body,
/// parameters and a result in their function.
pub fn checked_sources_use_visible_names()
    ensures { (source : SourceTree) (length : ℕ) (program : ProgramTree) → Checks source length (Ok program) → DeclarationsUseVisible [] source.declarations }
{}

/// The law that in a source with a program no visible name is declared again: no constant, function, parameter, result or
/// variable has the name of another that is visible where it is declared. One constant at most is the edges.
pub fn checked_sources_declare_new_names()
    ensures names { (source : SourceTree) (length : ℕ) (program : ProgramTree) → Checks source length (Ok program)
        → DeclarationsDeclareNew [] source.declarations }
    ensures edges { (source : SourceTree) (length : ℕ) (program : ProgramTree) → Checks source length (Ok program) → edges_declared source.declarations ≤ 1 }
{}

/// The law that in a source with a program no label stands twice, and that the program has these labels, without `#`, in
/// the order of the text.
pub fn checked_sources_have_distinct_labels()
    ensures distinct { (source : SourceTree) (length : ℕ) (program : ProgramTree) → Checks source length (Ok program)
        → IsDistinct bytes_eq (labels_of source.declarations) }
    ensures kept { (source : SourceTree) (length : ℕ) (program : ProgramTree) → Checks source length (Ok program)
        → program.labels ≡ map without_ends (labels_of source.declarations) }
{}

/// The law that in a checked program each index is that of something that is there: that of a variable or a vertex set
/// is the index of one that is visible and has its name, and vectors, functions, labels and names are in their tables. An
/// entry is at a vertex of its function, or, in `main` alone, at an index, which a run tests.
pub fn checked_programs_are_resolved()
    ensures { (source : SourceTree) (length : ℕ) (program : ProgramTree) → Checks source length (Ok program) → IsResolved program }
{}

/// The law that at each statement of `main` the visible vertex sets have different names, and that each set which a
/// statement changes, filters, applies a vertex function to or has as an end of an edge apply is visible by its name: so two
/// references by the same name are to one set. A set that is changed is a variable.
///
/// Of the constant sets those that are before `main` are visible. One after it may have the name of a variable in it.
pub fn checked_programs_name_visible_sets_apart()
    ensures { (source : SourceTree) (length : ℕ) (program : ProgramTree) → Checks source length (Ok program) → NamesSetsApart program }
{}

/// The law that in a checked program a vertex set gets the vertices where an edge apply changed only such a vector as the
/// edge function writes.
pub fn checked_programs_ask_for_written_vectors()
    ensures { (source : SourceTree) (length : ℕ) (program : ProgramTree) → Checks source length (Ok program) → AskForWritten program }
{}

/// The law that in a checked program no statement of `main` assigns or reduces the variable of a `for` around it, nor the
/// bound of that `for`, which has the index after the variable's.
pub fn checked_programs_keep_loop_variables()
    ensures { (source : SourceTree) (length : ℕ) (program : ProgramTree) → Checks source length (Ok program) → KeepsLoopVariables program }
{}

/// The law that the statements of `main` are numbered from 1 in the order of the text, without a gap, a block before
/// its body.
pub fn statements_are_numbered_in_order()
    ensures { (source : SourceTree) (length : ℕ) → InOrder 1 (numbers (program_of source length).value.main) }
{}

/// The law that the labels of the statements of `main` are the indices of labels that follow each other in the order of the
/// text, without a gap: no two statements have the same one.
pub fn labels_of_main_are_in_order()
    ensures { (source : SourceTree) (length : ℕ) (program : ProgramTree) → Checks source length (Ok program) → LabelsAreInOrder program }
{}

/// The law that in a source with a program no function but `main` has a `print` in it, at any depth.
pub fn checked_sources_print_in_main_alone()
    ensures { (source : SourceTree) (length : ℕ) (program : ProgramTree) → Checks source length (Ok program)
        → AllByRecursion PrintsInMainAlone source.declarations }
{}

/// The law that a source with a program declares one function named `main`, which has neither parameters nor a result.
pub fn checked_sources_declare_main()
    ensures main { (source : SourceTree) (length : ℕ) (program : ProgramTree) → Checks source length (Ok program) → DeclaresMain source.declarations }
    ensures one { (source : SourceTree) (length : ℕ) (program : ProgramTree) → Checks source length (Ok program)
        → functions_named main_bytes source.declarations ≡ 1 }
{}

/// The law that in a source with a program an edge function reads vectors at its two parameters alone and writes them at
/// the second alone, a vertex function and a filter read and write at their parameter alone, and no index in `main` has
/// an entry of a vector in it. An index that is a parameter is its name, perhaps in parentheses.
///
/// In the checked program the types carry this for reads: `EntryAt` of a function has an `Endpoint` in place of an
/// index, and a step that writes an entry has no index, as it writes at the last parameter.
pub fn checked_sources_access_own_entries()
    ensures { (source : SourceTree) (length : ℕ) (program : ProgramTree) → Checks source length (Ok program)
        → AllByRecursion AccessesEntriesWell source.declarations }
{}

/// The law that in a source with a program constants and functions of users are of the kinds that there are. A constant
/// `int` or `bool` is a literal, a vertex set `getVertices()`, a vector a literal or `getOutDegrees()`, the edges
/// `load(argv[1])`, and none is a Vertex. A function of a user has one Vertex parameter, or one and a result of type
/// `bool`, or two and no result. It holds declarations of `int` and `bool`, `if`, assignments and reductions alone; a
/// filter writes no entry of a vector, and an edge function sets none. Everywhere a `new vertexset` has 0 as its size,
/// and a `load` reads the first argument.
pub fn checked_sources_are_well_typed()
    ensures initials { (source : SourceTree) (length : ℕ) (program : ProgramTree) → Checks source length (Ok program)
        → AllByRecursion DeclarationInitialsFit source.declarations }
    ensures declarations { (source : SourceTree) (length : ℕ) (program : ProgramTree) → Checks source length (Ok program)
        → AllByRecursion DeclarationFits source.declarations }
{}

/// The law that a source has a program exactly where it keeps the rules: the checker refuses nothing else, and lets
/// nothing else pass.
///
/// `KeepsRules` says over the source alone, with one case for each form of the language, which sources break no rule. It
/// knows names by what they mean, and the types of expressions are a relation: an expression has a type, and nothing is
/// computed. Each label is new where it stands, each declared name is new and each used name is visible with a meaning
/// that fits; statements, initial values, applies and functions hold what they may; and one function is `main`.
pub fn sources_have_a_program_where_they_keep_the_rules()
    ensures { (source : SourceTree) (length : ℕ) → ((program : ProgramTree) × Checks source length (Ok program)) ↔ KeepsRules source }
{}

/// The law that the fault which is reported of a source is one of its faults, and the least: no fault of it has a lesser
/// offset, or the same and a lesser number.
pub fn reported_faults_are_the_least()
    ensures { (source : SourceTree) (length : ℕ) (f : fault.Fault) → Checks source length (Err f) → IsLeast f (program_of source length).faults }
{}

/// The law that an expression has no fault exactly where it has a type, in a scope of which no name has a faulty
/// declaration. Its types are a relation over its tree and over what names mean; no value is computed.
pub fn expressions_have_types_where_they_have_no_fault()
    ensures typed { (scope : ScopeTree) (at : ℕ) (e : ExpressionTree) → AreMeant scope.visible → (value_of scope at e).faults ≡ []
        → (type : ExpressionType) × ExpressionHas (meanings_of scope.visible) scope.inside e type }
    ensures faultless { (scope : ScopeTree) (at : ℕ) (e : ExpressionTree) (type : ExpressionType)
        → ExpressionHas (meanings_of scope.visible) scope.inside e type → (value_of scope at e).faults ≡ [] }
{}

/// The law that the faults of a form of expression are those of its parts, and the rules that it breaks itself if none of
/// its parts is faulty. `form_breaks` has one case for each rule and each form that can break it: 221 at the name, 223 and
/// 226 at the statement or declaration around the expression.
pub fn faults_of_expressions_are_their_broken_rules()
    ensures { (scope : ScopeTree) (at : ℕ) (form : Form) → form_faults scope at form
        ≡ faults_of_all scope at (parts scope form) ++ own_faults scope at form }
{}

/// The law that an expression with a faulty part has no further fault, for each form of expression that has parts: it has
/// the faults of its parts, and is faulty itself. An expression is faulty if it has a fault, or if a name in it has a
/// faulty declaration. An initial or assigned value with a faulty part has no fault but those of its parts, and no statement or
/// declaration asks for its type.
pub fn expressions_with_faulty_parts_have_no_further_fault()
    ensures further { (scope : ScopeTree) (at : ℕ) (form : Form) → any_faulty scope at (parts scope form) ≡ true
        → form_faults scope at form ≡ faults_of_all scope at (parts scope form) }
    ensures whole { (scope : ScopeTree) (at : ℕ) (form : Form) → any_faulty scope at (parts scope form) ≡ true → is_faulty scope at form ≡ true }
    ensures fault { (scope : ScopeTree) (at : ℕ) (form : Form) → form_faults scope at form ≢ [] → is_faulty scope at form ≡ true }
    ensures initial { (c : CheckerTree) (at : ℕ) (x : InitialTree) (f : fault.Fault) → any_faulty c.scope at (initial_forms x) ≡ true
        → Contains (initializer_of c at x).faults f → Contains (faults_of_all c.scope at (initial_forms x)) f }
    ensures unsound { (c : CheckerTree) (at : ℕ) (x : InitialTree) → any_faulty c.scope at (initial_forms x) ≡ true
        → is_sound (initializer_of c at x).value ≡ false }
{}

/// The law that the faults of a source are the rules that it breaks, each at its offset, and no others.
///
/// `BreaksRule` goes over the parts of a source and has one definition for each rule: which parts break it themselves. What
/// is known at a part, as the visible names, is what the checker knows there.
pub fn faults_are_the_broken_rules()
    ensures broken { (source : SourceTree) (length : ℕ) (f : fault.Fault) → Contains (program_of source length).faults f
        → BreaksRule source length f.at f.rule }
    ensures faults { (source : SourceTree) (length at : ℕ) (r : type_rule.TypeRule) → BreaksRule source length at r
        → Contains (program_of source length).faults (record { at = at; rule = r }) }
{}

/// The law that the reported fault of a source is the least rule that it breaks: no rule is broken at a lesser offset, and
/// none with a lesser number at the same one. A source with a program breaks no rule, and a source breaks no rule exactly
/// where it keeps the rules.
pub fn reported_faults_are_the_least_broken_rules()
    ensures least { (source : SourceTree) (length : ℕ) (f : fault.Fault) → Checks source length (Err f)
        → IsLeastBroken source length f.at f.rule }
    ensures none { (source : SourceTree) (length : ℕ) (program : ProgramTree) → Checks source length (Ok program) → BreaksNoRule source length }
    ensures kept { (source : SourceTree) (length : ℕ) → BreaksNoRule source length ↔ KeepsRules source }
{}
