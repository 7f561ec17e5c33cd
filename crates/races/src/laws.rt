//! Laws of races and of their scripts, each the contract of a call that does nothing.
ghost use Rattle.std.specs.Prelude.{ℕ, List};
ghost use Rattle.races.specs.RaceLaw.{HasNoOtherCommits};
ghost use Rattle.races.specs.ScriptLaw.{MeansAsScript};
ghost use Rattle.races.specs.declared.outcomes.Race as race;

/// The law that a race script that may be opened means what it means as a script: it leaves the versions that come of its
/// batches, one commit after another, and is answered the opening and the replies of these commits. The call does nothing.
pub fn race_scripts_mean_what_scripts_mean()
    ensures { (text : List ℕ) → MeansAsScript text }
{}

/// The law that a race has the commits of its script alone if its replies are the versions 1, 2, 3 and so on, besides refusals,
/// and each late run is on the last of them: each run then shows what its program means on n vertices, taken through as many
/// of the batches that were not refused as the number of its version says. The call does nothing.
pub fn numbered_races_have_no_other_commits()
    ensures { (r : race.Race) → HasNoOtherCommits r }
{}
