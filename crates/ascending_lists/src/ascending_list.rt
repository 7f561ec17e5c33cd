//! Ascending lists that are looked over, and cut.

ghost use Rattle.std.specs.Prelude.{◌≡◌, ◌↔◌, IsTrue, None};
ghost use Rattle.ascending_lists.specs.Sets.{Cuts};
ghost use Rattle.ascending_lists.specs.Ascending.{Ascends, least};

/// The least number that a list over the base may begin with.
#[inline]
pub fn least_over(base: Option<u32>) -> u64
    ensures { result ≡ least base }
{
    match base {
        None => 0,
        Some(base) => u64::from(base) + 1,
    }
}

/// Whether a list is strictly ascending, and its first element above the base if there is one. Takes
/// time in proportion to the list, and no memory.
pub fn ascends(base: Option<u32>, elements: &[u32]) -> bool
    ensures { IsTrue result ↔ Ascends base elements.now }
{
    let mut low = least_over(base);
    for element in elements {
        let element = u64::from(*element);
        if element < low {
            return false;
        }
        low = element + 1;
    }
    true
}

/// What an ascending list has below a number, whether it has the number, and what it has above. Takes
/// logarithmic time and no memory.
pub fn cut_list(elements: &[u32], key: u32) -> (&[u32], bool, &[u32])
    requires { Ascends None elements.now }
    ensures { Cuts key elements.now result.0.now result.1 result.2.now }
{
    match elements.binary_search(&key) {
        Ok(position) => (&elements[..position], true, &elements[position + 1..]),
        Err(position) => (&elements[..position], false, &elements[position..]),
    }
}
