//! Changes of the values at keys.

ghost use Rattle.std.specs.Prelude.{◌≡◌, ℕ, Option, IfOk};
ghost use Rattle.std.specs.Option.{option_copied};
ghost use Rattle.shared_tree.specs.ChangedMaps.{MadeAt, GrewBy};
ghost use Rattle.shared_tree.specs.inside.ChangedMaps.{weight_at};

use crate::share::Share;
use std::alloc::{AllocError, Global};

/// A change of the value at a key.
pub trait ValueChange<V>: Sized {
    /// Whether the change makes the new value of the old one, where `None` is that there is none.
    ghost makes: { Self → Option V → Option V → Type 0 };

    /// How much a value weighs.
    ghost weight: { V → ℕ };

    /// The new value, where `old` is the old one. The only error is out of memory.
    fn change(&self, alloc: Global, old: Option<&V>) -> Result<Option<V>, AllocError>
        ensures { IfOk result (λ new. makes self.now (option_copied old.entry) new) };

    /// How much a value weighs, of which a pass over a tree tells the growth.
    fn weigh(value: &V) -> usize
        ensures { result ≡ weight value.now };
}

/// What becomes of the value at a key, and its growth in weight, modulo 2^64.
pub(crate) fn changed<V: Share, C: ValueChange<V>>(
    alloc: Global,
    old: Option<&V>,
    change: Option<&C>,
) -> Result<(Option<V>, usize), AllocError>
    ensures made { IfOk result (λ p.
        MadeAt C.makes (option_copied change.entry) (option_copied old.entry) p.0) }
    ensures growth { IfOk result (λ p.
        GrewBy (weight_at C.weight (option_copied old.entry)) p.1 (weight_at C.weight p.0)) }
{
    let Some(change) = change else {
        let kept = match old {
            Some(value) => Some(value.share()?),
            None => None,
        };
        return Ok((kept, 0));
    };
    let new = change.change(alloc, old)?;
    let before = weigh::<V, C>(old);
    let after = weigh::<V, C>(new.as_ref());
    Ok((new, after.wrapping_sub(before)))
}

/// How much a value weighs, which is 0 where there is none.
fn weigh<V, C: ValueChange<V>>(value: Option<&V>) -> usize
    ensures { result ≡ weight_at C.weight (option_copied value.entry) }
{
    match value {
        Some(value) => C::weigh(value),
        None => 0,
    }
}
