//! What the unions and the differences of ascending lists come to.

ghost use Rattle.std.specs.Prelude.{◌↔◌, ◌⊎◌, ℕ, None, List};
ghost use Rattle.std.specs.List.{Contains};
ghost use Rattle.ascending_lists.specs.Ascending.{Ascends};
ghost use Rattle.ascending_lists.specs.Sets.{union, difference};

/// The law that the union of two ascending lists ascends, and has the elements that one of them has.
/// The call does nothing.
pub fn unions_have_what_either_has()
    ensures ascending { (xs ys : List ℕ)
        → Ascends None xs → Ascends None ys → Ascends None (union xs ys) }
    ensures members { (xs ys : List ℕ) (e : ℕ)
        → Contains (union xs ys) e ↔ (Contains xs e ⊎ Contains ys e) }
{}

/// The law that the difference of an ascending list and another list ascends, and has the elements
/// of the first that the second lacks. The call does nothing.
pub fn differences_have_what_one_lacks()
    ensures ascending { (xs ys : List ℕ) → Ascends None xs → Ascends None (difference xs ys) }
    ensures members { (xs ys : List ℕ) (e : ℕ)
        → Contains (difference xs ys) e ↔ (Contains xs e × ¬ Contains ys e) }
{}
