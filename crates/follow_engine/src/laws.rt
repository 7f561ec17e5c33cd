//! The law of records, in the words of the engines.
ghost use Rattle.std.specs.Prelude.{List};
ghost use Rattle.vectors.specs.declared.changes.VectorChanges.{VectorChanges};
ghost use Rattle.edge_apply.specs.declared.apply.Apply.{Apply};
ghost use Rattle.edge_apply.specs.Applied.{AreChangesOf};
ghost use Rattle.follow_engine.specs.Reduced.{AreChangesReduced};

/// The law of records: what a push or a pull answers (`AreChangesOf`) may be followed (`AreChangesReduced`), as what
/// [`follow`](crate::follow) answers may. The call does nothing.
pub fn found_changes_may_be_followed()
    ensures { (apply : Apply) (changes : List VectorChanges) → AreChangesOf apply changes → AreChangesReduced apply changes }
{}
