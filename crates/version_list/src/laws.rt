//! Laws of histories, each the contract of a call that does nothing.
ghost use Rattle.std.specs.Prelude.{◌≡◌, ◌≤◌, ℕ, List, length};
ghost use Rattle.version_list.specs.declared.step.Done as done;
ghost use Rattle.version_list.specs.declared.step.Step.TheVariants.{Trim};
ghost use Rattle.version_list.specs.declared.step.Reply.TheVariants.{Trimmed};
ghost use Rattle.version_list.specs.Machine.{State, opened, reply_to, version_graph};
ghost use Rattle.version_list.specs.Timeline.{IsLegal, replay};
ghost use Rattle.version_list.specs.Trims.{entries_since_trim};

/// The law that a history which is legal from an opening has less than 2^64 entries, and that a trim at its
/// end is answered how many it has since its last trim, or in all where it has none.
pub fn histories_are_counted()
    ensures few { (n room : ℕ) (history : List done.Done) → IsLegal (opened n room) history
        → length history ≤ 18446744073709551615 }
    ensures trims { (n room count : ℕ) (history : List done.Done) → IsLegal (opened n room) history
        → reply_to (replay (opened n room) history) Trim ≡ Trimmed count → count ≡ entries_since_trim 0 history }
{}

/// The law of growing versions: of two versions of one state, the later has no fewer vertices. The call
/// does nothing.
pub fn versions_never_shrink()
    ensures { (s : State) (j k : ℕ) → j ≤ k → (version_graph s j).vertices ≤ (version_graph s k).vertices }
{}
