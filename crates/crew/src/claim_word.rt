//! The claim word: a counter from which the workers of a run draw the indices of their pieces.
//!
//! It has one kind of step, a `fetch_add` of 1. A claim is a seat at its table: a value of no bytes with
//! a view, which says what its worker knows of the word. `specs/inside/ClaimWord.antt` has the rule.

ghost use Rattle.std.specs.Prelude.{◌≡◌, ◌+◌, ◌-◌, ◌<◌, ◌≤◌, [], ◌++◌, length, IfOk};
ghost use Rattle.crew.specs.inside.ClaimWord.{claim_view, all_rights, IsClaimWord, Claims};
ghost use Rattle.crew.specs.inside.Claims.{IsClaimAt, view_of, worker_rights};

use atomic_table::{Join, Play, Seat, Shared, Split, Table, TableRule};
use std::alloc::{AllocError, Global};
use std::collections::LinkedList;

// What a worker knows of the claim word: its rights to claim, the numbers that it claimed, and one more
// than the last of them. No value of it is made.
pub struct ClaimView {
    pub rights: u64,
    pub claimed: LinkedList<u64>,
    pub next: u64,
}

/// The rule of the claim word.
pub struct ClaimRule;

impl TableRule<(), ClaimView, ()> for ClaimRule {
    ghost use Rattle.std.specs.Prelude.{[]};
    ghost use Rattle.crew.specs.inside.ClaimWord.{claim_view, all_rights, IsClaimWord};

    ghost holds = { λ _ s. IsClaimWord s.words s.views };

    ghost first = { λ _. claim_view all_rights [] 0 };
}

struct ClaimStep;

impl Play<(), ClaimView> for ClaimStep {
    ghost then = { λ _ before k after. Claims before.0 k after.0 × (after.1 ≡ before.1) };
}

struct Hiring;

impl Split<ClaimView> for Hiring {
    ghost left = { λ v. claim_view (v.rights - worker_rights) v.claimed v.next };

    ghost right = { λ _. claim_view worker_rights [] 0 };
}

struct Dismissal;

impl Join<ClaimView> for Dismissal {
    ghost both = { λ v w. claim_view (v.rights + w.rights) (v.claimed ++ w.claimed) w.next };

    ghost spent = { claim_view 0 [] 0 };
}

/// The claim word, as the workers share it.
pub(crate) type ClaimWord = Shared<(), ClaimView, (), ClaimRule>;

/// A worker's place at the claim word.
pub(crate) type Claim = Seat<(), ClaimView>;

/// The claim word with its memory.
pub(crate) type ClaimTable = Table<(), ClaimView, (), ClaimRule, Global>;

/// A claim word of which no number is claimed yet, and the claim that has all rights.
pub(crate) fn open_word(alloc: Global) -> Result<(ClaimTable, Claim), AllocError>
    ensures { IfOk result (λ t. IsClaimAt t.0.shared.table_id t.1 × (view_of t.1 ≡ claim_view all_rights [] 0)) }
{
    Table::of_words(alloc, &[0], &())
}

/// Partition a worker's rights off a claim that has claimed nothing.
pub(crate) fn hire(word: &ClaimWord, claim: &mut Claim) -> Claim
    requires claim { IsClaimAt word.now.table_id claim.old }
    requires idle { (view_of claim.old).claimed ≡ [] }
    requires rights { worker_rights ≤ (view_of claim.old).rights }
    ensures rest { IsClaimAt word.now.table_id claim.new
        × (view_of claim.new ≡ claim_view ((view_of claim.old).rights - worker_rights) [] (view_of claim.old).next) }
    ensures hired { IsClaimAt word.now.table_id result × (view_of result ≡ claim_view worker_rights [] 0) }
{
    word.split_seat::<Hiring>(claim)
}

/// The number that the claim draws: the word, which is then one more.
pub(crate) fn draw(word: &ClaimWord, claim: &mut Claim) -> u64
    requires claim { IsClaimAt word.now.table_id claim.old }
    requires right { length (view_of claim.old).claimed < (view_of claim.old).rights }
    ensures claim { IsClaimAt word.now.table_id claim.new }
    ensures draws { Claims (view_of claim.old) result (view_of claim.new) }
{
    word.fetch_add::<ClaimStep>(claim, 0, 1)
}

/// Gives a worker's rights, and the numbers that it claimed, back to a claim.
pub(crate) fn dismiss(word: &ClaimWord, claim: &mut Claim, worker: Claim)
    requires claim { IsClaimAt word.now.table_id claim.old }
    requires worker { IsClaimAt word.now.table_id worker }
    ensures { IsClaimAt word.now.table_id claim.new
        × (view_of claim.new ≡ claim_view ((view_of claim.old).rights + (view_of worker).rights)
        ((view_of claim.old).claimed ++ (view_of worker).claimed) (view_of worker).next) }
{
    word.join_seat::<Dismissal>(claim, worker);
}
