// The least bound of sums, one for each case, over the cases that are open at a path.
ghost use Rattle.std.specs.Prelude.{◌≡◌, ◌<◌, ◌+◌, All, List, length};
ghost use Rattle.shunt_blocks.specs.declared.records.Block.{Block};
ghost use Rattle.shunt_prices.specs.defs.Sums.{IsWithin};
ghost use Rattle.shunt_prices.specs.defs.Bounds.{unparked_in};
ghost use Rattle.shunt_stacks.specs.defs.Bounds.{IsLeastBound};
ghost use Rattle.shunt_fillings.specs.defs.Least.{IsLeastBelow};

use shunt_base::Cases;
use shunt_dual::bound_of;

/// The lesser of a bound and that of the sum with a number, where its case is open.
fn improved(cases: &Cases, unparked: usize, sums: &[i64], k: usize, least: i64) -> i64
    requires there { k < length cases.now }
    requires long { length sums.now ≡ length cases.now }
    requires small { All (IsWithin 4100000000000000000) sums.now }
    ensures { (path : List Block) → unparked ≡ unparked_in path
        → IsLeastBelow cases.now path sums.now k least
        → IsLeastBelow cases.now path sums.now (k + 1) result }
{
    if unparked > cases.get(k).to as usize {
        return least;
    }
    let bound = bound_of(sums[k]);
    if bound < least { bound } else { least }
}

/// The least bound of these sums, one for each case, over the cases that are open at a path with so many unparked blocks. It may be
/// negative. It takes no memory.
pub fn least_bound(cases: &Cases, unparked: usize, sums: &[i64]) -> i64
    requires long { length sums.now ≡ length cases.now }
    requires small { All (IsWithin 4100000000000000000) sums.now }
    ensures { (path : List Block) → unparked ≡ unparked_in path
        → IsLeastBound cases.now path sums.now result }
{
    let last = cases.len() - 1;
    let mut least = bound_of(sums[last]);
    for k in 0..last {
        least = improved(cases, unparked, sums, k, least);
    }
    least
}
