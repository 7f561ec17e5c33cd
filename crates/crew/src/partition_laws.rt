//! Laws of the ends that a schedule gives. The calls do nothing.
ghost use Rattle.std.specs.Prelude.{◌≡◌, ℕ, ◌*◌, ◌<◌, min, List, [], ◌∷◌, length};
ghost use Rattle.std.specs.Int.{div_ceil};
ghost use Rattle.apply_options.specs.declared.apply_schedule.Parallelization.{Parallelization};
ghost use Rattle.apply_options.specs.declared.apply_schedule.Parallelization.TheVariants.{EdgeAwareDynamicVertex};
ghost use Rattle.crew.specs.Boundaries.{dynamic_ends, edge_aware_ends, boundaries, static_ends};
ghost use Rattle.crew.specs.Limits.{EachEndsAtLimit, weight};
ghost use Rattle.crew.specs.Partition.{AreEnds, all_pieces};

/// The law that the ends ascend, from a piece with a vertex to the end of the list.
pub fn boundaries_cut_the_list()
    ensures { (p : Parallelization) (workers count : ℕ) (degrees : List ℕ) → 0 < workers → (p ≡ EdgeAwareDynamicVertex → length degrees ≡ count)
        → AreEnds 0 count (boundaries p workers count degrees) }
{}

/// The law that the pieces of a list at such boundaries are the list, one after the other.
pub fn pieces_make_the_list()
    ensures { (ends xs : List ℕ) → AreEnds 0 (length xs) ends → all_pieces ends xs ≡ xs }
{}

/// The law that there is a static piece for each worker, or for each vertex where these are fewer.
pub fn static_pieces_are_those_of_workers()
    ensures { (workers count : ℕ) → 0 < workers → length (static_ends workers count) ≡ min workers count }
{}

/// The law that an edge-aware piece ends at the first vertex where its vertices and edges are the part of all that makes
/// four pieces for each worker, and the last piece with the list.
pub fn edge_aware_pieces_end_at_the_limit()
    ensures { (workers : ℕ) (degrees : List ℕ) → 0 < workers
        → EachEndsAtLimit (div_ceil (weight degrees) (4 * workers)) 0 (edge_aware_ends workers degrees) degrees }
{}

/// The law of some partitions that were worked out by hand.
pub fn worked_partitions()
    ensures seven { static_ends 7 100 ≡ 15 ∷ 30 ∷ 44 ∷ 58 ∷ 72 ∷ 86 ∷ 100 ∷ [] }
    ensures few { static_ends 7 3 ≡ 1 ∷ 2 ∷ 3 ∷ [] }
    ensures two { dynamic_ends 2 100 ≡ 13 ∷ 26 ∷ 39 ∷ 52 ∷ 65 ∷ 78 ∷ 91 ∷ 100 ∷ [] }
    ensures one_worker { edge_aware_ends 1 (5 ∷ 0 ∷ 0 ∷ 1 ∷ 1 ∷ []) ≡ 1 ∷ 4 ∷ 5 ∷ [] }
    ensures two_workers { edge_aware_ends 2 (5 ∷ 0 ∷ 0 ∷ 1 ∷ 1 ∷ []) ≡ 1 ∷ 3 ∷ 4 ∷ 5 ∷ [] }
{}
