//! Laws of histories, each the contract of a call that does nothing.
ghost use Rattle.std.specs.Prelude.{◌≡◌, ◌+◌, ◌++◌, ◌∷◌, [], ℕ, List, length};
ghost use mathlib.Core.List.{IsPrefix};
ghost use Rattle.tree_batch.specs.Digraph.{Digraph};
ghost use Rattle.tree_batch.specs.declared.batch.Entry.{Entry as Change};
ghost use Rattle.version_list.specs.declared.step.Step.TheVariants.{Commit};
ghost use Rattle.version_list.specs.declared.step.Reply.TheVariants.{Version};
ghost use Rattle.version_list.specs.declared.step.Which.{Which};
ghost use Rattle.version_list.specs.declared.step.Which.TheVariants as which;
ghost use Rattle.version_list.specs.Machine.{opened, newest_number, version_graph};
ghost use Rattle.version_list.specs.Timeline.{IsLegal};
ghost use Rattle.shared_graph.specs.declared.entry.Entry as entry;
ghost use Rattle.shared_graph.specs.Histories.{steps_of, state_at, batches_of, fold_of, fold_of_first, IsNewest, IsVersionOf, HasMade, ReaderState};
ghost use Rattle.shared_graph.specs.Holding.{Hold, HoldsVersion};

/// The law that a legal history has as many versions beside version 0 as it has commits, and that the
/// graph of each is the fold of the batches up to it, of the newest that of all of them.
pub fn versions_are_folds_of_commits()
    ensures number { (n room : ℕ) (log : List entry.Entry) → IsLegal (opened n room) (steps_of log)
        → newest_number (state_at (opened n room) log) ≡ length (batches_of log) }
    ensures graph { (n room : ℕ) (log : List entry.Entry) (k : ℕ) → IsLegal (opened n room) (steps_of log)
        → version_graph (state_at (opened n room) log) k ≡ fold_of_first n log k }
    ensures newest { (n room : ℕ) (log : List entry.Entry) (k : ℕ) (g : Digraph) → IsLegal (opened n room) (steps_of log)
        → IsNewest (state_at (opened n room) log) k g → (k ≡ length (batches_of log)) × (g ≡ fold_of n log) }
{}

/// The law that the batches of a longer history begin with those of its beginning, and that a version of
/// the beginning is one of the longer history.
pub fn longer_histories_keep_their_versions()
    ensures batches { (log more : List entry.Entry) → IsPrefix log more → IsPrefix (batches_of log) (batches_of more) }
    ensures versions { (n : ℕ) (log more : List entry.Entry) (k : ℕ) (g : Digraph) → IsPrefix log more
        → IsVersionOf n log k g → IsVersionOf n more k g }
{}

/// The law that what is held at the end of a legal history is a version of it: where the newest was asked
/// for, the one that has all its batches.
pub fn held_versions_are_of_the_history()
    ensures version { (n room : ℕ) (log : List entry.Entry) (asked : Which) (h : Hold) → IsLegal (opened n room) (steps_of log)
        → HoldsVersion (state_at (opened n room) log) asked h → IsVersionOf n log h.version h.graph }
    ensures newest { (n room : ℕ) (log : List entry.Entry) (h : Hold) → IsLegal (opened n room) (steps_of log)
        → HoldsVersion (state_at (opened n room) log) which.Newest h → h.version ≡ length (batches_of log) }
{}

/// The law that the number of a commit is how many commits its reader then shows. If it is one more than
/// the commits of a history that the reader had shown, or a beginning of one, nobody else committed since.
pub fn commits_are_counted()
    ensures number { (n room : ℕ) (old new : ReaderState) (batch : List Change) (k : ℕ)
        → HasMade (opened n room) old (Commit batch) (Version k) new → k ≡ length (batches_of new.shown) }
    ensures alone { (n room : ℕ) (log : List entry.Entry) (old new : ReaderState) (batch : List Change) (k : ℕ)
        → HasMade (opened n room) old (Commit batch) (Version k) new → IsPrefix log old.shown → k ≡ length (batches_of log) + 1
        → batches_of new.shown ≡ batches_of log ++ batch ∷ [] }
{}
