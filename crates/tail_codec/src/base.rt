//! What a base says of the keys above it.

ghost use Rattle.std.specs.Prelude.{◌≡◌, ◌^◌, ◌≤◌};
ghost use Rattle.ascending_lists.specs.Ascending.{least};

/// The least key that may be over the base: 2^32 where none may.
#[inline]
pub(crate) fn least_over(base: Option<u32>) -> u64
    ensures low { result ≡ least base }
    ensures small { result ≤ 2 ^ 32 }
{
    match base {
        None => 0,
        Some(base) => u64::from(base) + 1,
    }
}
