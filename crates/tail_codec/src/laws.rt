//! Laws of the spelling of entry lists: each has one spelling, and bytes spell at most one. The calls do nothing.

ghost use Rattle.std.specs.Prelude.{◌≡◌, ℕ, ℤ, Option, List};
ghost use Rattle.std.specs.Map.{keys_of};
ghost use Rattle.ascending_lists.specs.Ascending.{Ascends};
ghost use Rattle.tail_codec.specs.Spelling.{AreWeights, Spells};

/// The law that bytes spell at most one list of entries over a base. The call does nothing.
pub fn bytes_spell_one_list()
    ensures { (base : Option ℕ) (xs ys : List (ℕ × ℤ)) (bytes : List ℕ)
        → Spells base xs bytes → Spells base ys bytes → xs ≡ ys }
{}

/// The law that a list of entries with weights of 64 bits, whose keys are below 2^32 and ascend
/// strictly, above the base if there is one, has exactly one spelling, and that no other list has one.
/// The call does nothing.
pub fn lists_have_one_spelling()
    ensures spelled { (base : Option ℕ) (es : List (ℕ × ℤ))
        → Ascends base (keys_of es) → AreWeights es → (bytes : List ℕ) × Spells base es bytes }
    ensures once { (base : Option ℕ) (es : List (ℕ × ℤ)) (one other : List ℕ)
        → Spells base es one → Spells base es other → one ≡ other }
    ensures ascending { (base : Option ℕ) (es : List (ℕ × ℤ)) (bytes : List ℕ)
        → Spells base es bytes → Ascends base (keys_of es) }
    ensures weights { (base : Option ℕ) (es : List (ℕ × ℤ)) (bytes : List ℕ)
        → Spells base es bytes → AreWeights es }
{}
