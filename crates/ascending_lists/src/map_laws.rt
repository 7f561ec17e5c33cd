//! What the operations on lists of entries come to.

ghost use Rattle.std.specs.Prelude.{◌≡◌, ◌↔◌, ℕ, nat_lt, if◌then◌else◌, Option, None, List};
ghost use Rattle.std.specs.Option.{option_or};
ghost use Rattle.std.specs.Map.{keys_of};
ghost use Rattle.ascending_lists.specs.Ascending.{Ascends};
ghost use Rattle.ascending_lists.specs.Sets.{has, below, above, union, difference};
ghost use Rattle.ascending_lists.specs.Maps.{IsMap, lookup};
ghost use Rattle.ascending_lists.specs.MapOperations.{
  entries_below,
  entries_above,
  union_keeping_second,
  union_keeping_first,
  without_keys,
};

/// There is one list of entries for each map: where two have the same value at every key, they
/// are the same.
pub fn maps_are_their_values<V>()
    ensures { (xs ys : List (ℕ × V)) → IsMap xs → IsMap ys
        → ((k : ℕ) → lookup k xs ≡ lookup k ys) → xs ≡ ys }
{}

/// The law that a list of entries is a map where its keys ascend, and only there. The call does
/// nothing.
pub fn keys_of_maps_ascend<V>()
    ensures { (es : List (ℕ × V)) → IsMap es ↔ Ascends None (keys_of es) }
{}

/// The law that what a list of entries has below a key and above it has those keys, each with the
/// value that it had. The call does nothing.
pub fn cuts_keep_values<V>()
    ensures keys_below { (k : ℕ) (es : List (ℕ × V))
        → keys_of (entries_below k es) ≡ below k (keys_of es) }
    ensures keys_above { (k : ℕ) (es : List (ℕ × V))
        → keys_of (entries_above k es) ≡ above k (keys_of es) }
    ensures values_below { (j k : ℕ) (es : List (ℕ × V))
        → lookup j (entries_below k es) ≡ (if nat_lt j k then lookup j es else None) }
    ensures values_above { (j k : ℕ) (es : List (ℕ × V))
        → lookup j (entries_above k es) ≡ (if nat_lt k j then lookup j es else None) }
{}

/// The law of the union that keeps the second's values: its keys are those of both, and the value at
/// a key is that of the second where it has the key, else that of the first. The call does nothing.
pub fn unions_keep_the_second_value<V>()
    ensures keys { (xs ys : List (ℕ × V))
        → keys_of (union_keeping_second xs ys) ≡ union (keys_of xs) (keys_of ys) }
    ensures values { (k : ℕ) (xs ys : List (ℕ × V))
        → lookup k (union_keeping_second xs ys) ≡ option_or (lookup k ys) (lookup k xs) }
    ensures map { (xs ys : List (ℕ × V)) → IsMap xs → IsMap ys
        → IsMap (union_keeping_second xs ys) }
{}

/// The law of the union that keeps the first's values: its keys are those of both, the value at a key
/// is that of the first where it has the key, else that of the second, and it is the other union with
/// both maps exchanged. The call does nothing.
pub fn unions_keep_the_first_value<V>()
    ensures keys { (xs ys : List (ℕ × V))
        → keys_of (union_keeping_first xs ys) ≡ union (keys_of xs) (keys_of ys) }
    ensures values { (k : ℕ) (xs ys : List (ℕ × V)) → IsMap xs
        → lookup k (union_keeping_first xs ys) ≡ option_or (lookup k xs) (lookup k ys) }
    ensures map { (xs ys : List (ℕ × V)) → IsMap xs → IsMap ys
        → IsMap (union_keeping_first xs ys) }
    ensures exchanged { (xs ys : List (ℕ × V)) → IsMap xs → IsMap ys
        → union_keeping_first xs ys ≡ union_keeping_second ys xs }
{}

/// The law of the difference: its keys are those of the list that are not taken away, each with the
/// value that it had. The call does nothing.
pub fn differences_lack_the_keys<V>()
    ensures keys { (es : List (ℕ × V)) (ks : List ℕ)
        → keys_of (without_keys es ks) ≡ difference (keys_of es) ks }
    ensures values { (k : ℕ) (es : List (ℕ × V)) (ks : List ℕ)
        → lookup k (without_keys es ks) ≡ (if has k ks then None else lookup k es) }
    ensures map { (es : List (ℕ × V)) (ks : List ℕ) → IsMap es → IsMap (without_keys es ks) }
{}
