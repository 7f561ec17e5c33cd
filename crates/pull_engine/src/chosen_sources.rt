//! Sources of a packed list that are chosen by their bits, so that the weights of these alone are read.
ghost use Rattle.std.specs.Prelude.{◌≡◌, ◌-◌, ◌<◌, ◌≤◌, length, map, pos, take, drop};
ghost use Rattle.std.specs.List.{All};
ghost use Rattle.edge_apply.specs.Words.{is_set};
ghost use Rattle.edge_fold.specs.EntryNumbers.{entry_with, reduced_over};
ghost use Rattle.pull_engine.specs.inside.Columns.{entry_at};
ghost use Rattle.pull_engine.specs.Columns.{passing};
ghost use Rattle.kernels.specs.declared.columns.TheConstants.{PAIRS};

use apply_options::Reduction;
use edge_apply::passes;
use edge_fold::{EntryWith, NeighbourEntries, reduce_entries};
use kernels::PAIRS;
use vertex_blocks::Neighbours;

/// Sources of a packed list, by the indices at which they are in it.
#[derive(Drop)]
struct ChosenSources<'a, 'b> {
    list: &'a Neighbours<'b>,
    indices: &'a [u32],
    ghost inside: { All (λ i. i < length list.now) indices.now },
}

impl NeighbourEntries for ChosenSources<'_, '_> {
    ghost entries = { λ c. map (entry_at c.list.now) c.indices.now };

    #[inline(always)]
    fn len(&self) -> usize {
        self.indices.len()
    }

    #[inline(always)]
    fn neighbour(&self, index: usize) -> u32 {
        self.list.neighbour(self.indices[index] as usize)
    }

    #[inline(always)]
    fn weight(&self, index: usize) -> i64 {
        self.list.weight(self.indices[index] as usize)
    }
}

/// An entry reduced with the numbers of those sources of a packed list whose bits are set. The sources are tested first,
/// and of those that are left out no weight is read. The block is lent.
#[inline]
pub(crate) fn fold_chosen(
    reduction: Reduction,
    numbers: EntryWith<'_>,
    old: i64,
    list: &Neighbours<'_>,
    words: &[u64],
    block: &mut [u32],
) -> i64
    requires { length block.old ≡ PAIRS }
    ensures room { length block.new ≡ PAIRS }
    ensures number { result ≡ reduced_over reduction (entry_with numbers.entry) old (passing (is_set words.now) list.now) }
{
    let mut number = old;
    let mut low = 0;
    'rounds: while low < list.len() {
        let high = list.len().min(low + PAIRS);
        let kept = choose(list, words, low, high, block);
        let indices = &block[..kept];
        let chosen = ChosenSources { list, indices };
        number = reduce_entries(reduction, numbers, number, &chosen);
        low = high;
    }
    number
}

/// The indices from one up to another at which the bit of a source is set, at the front of a block. It gives their number.
#[inline(always)]
fn choose(
    list: &Neighbours<'_>,
    words: &[u64],
    low: usize,
    high: usize,
    indices: &mut [u32],
) -> usize
    requires order { low ≤ high }
    requires within { high ≤ length list.now }
    requires room { high - low ≤ length indices.old }
    ensures few { result ≤ high - low }
    ensures room { length indices.new ≡ length indices.old }
    ensures inside { All (λ i. i < length list.now) (take result indices.new) }
    ensures chosen { map (entry_at list.now) (take result indices.new) ≡ passing (is_set words.now) (take (high - low) (drop low list.now)) }
{
    prove!(list.len() < 1 << 32);
    let mut kept = 0usize;
    'indices: for index in low..high {
        indices[kept] = index as u32;
        kept += usize::from(passes(Some(words), list.neighbour(index)));
    }
    kept
}
