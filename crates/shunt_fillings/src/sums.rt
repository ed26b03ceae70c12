// Sums with stacks, and the bound of a path by them.
ghost use Rattle.std.specs.Prelude.{◌<◌, length, IfOk};
ghost use Rattle.shunt_prices.specs.defs.Sums.{IsWithin};
ghost use Rattle.shunt_prices.specs.defs.Limits.{AreCases};
ghost use Rattle.shunt_stacks.specs.defs.Bounds.{IsStackSum, IsStackBound};
ghost use Rattle.shunt_fillings.specs.defs.Scenes.{IsScene};
ghost use Rattle.shunt_fillings.specs.defs.Prospects.{AreSums};

use crate::bounds::least_bound;
use crate::prospects::outlook_of;
use crate::scenes::Scene;
use shunt_base::Cases;
use shunt_dual::unparked_in;
use std::alloc::{AllocError, Global};

/// The sum with stacks, at a path whose run goes through, of the case with a number: the sum there, less what all stacks gain. It is in
/// thousandths of a cost unit. Err is want of memory.
pub fn stack_sum(
    alloc: Global,
    scene: &Scene<'_>,
    cases: &Cases,
    k: usize,
) -> Result<i64, AllocError>
    requires scene { IsScene scene.now }
    requires cases { AreCases scene.now.instance.now cases.now }
    requires there { k < length cases.now }
    ensures exact { IfOk result
        (IsStackSum scene.now.instance.now scene.now.path.now.blocks cases.now k) }
    ensures small { IfOk result (IsWithin 4100000000000000000) }
{
    let outlook = outlook_of(alloc, scene, cases, k)?;
    Ok(outlook.sum)
}

/// The sums with stacks of all cases at a path whose run goes through, in thousandths of a cost unit.
fn stack_sums(alloc: Global, scene: &Scene<'_>, cases: &Cases) -> Result<Vec<i64>, AllocError>
    requires scene { IsScene scene.now }
    requires cases { AreCases scene.now.instance.now cases.now }
    ensures { IfOk result (λ v. AreSums (IsStackSum scene.now.instance.now scene.now.path.now.blocks
        cases.now) (length cases.now) v.items) }
{
    let mut sums = Vec::with_capacity(alloc, cases.len())?;
    for k in 0..cases.len() {
        let sum = stack_sum(alloc, scene, cases, k)?;
        sums.push(sum)?;
    }
    Ok(sums)
}

/// The bound with stacks of a path whose run goes through, by cases: the least of the bounds of their sums with stacks, over the cases that
/// are open there. It may be negative. Err is want of memory.
pub fn stack_bound(alloc: Global, scene: &Scene<'_>, cases: &Cases) -> Result<i64, AllocError>
    requires scene { IsScene scene.now }
    requires cases { AreCases scene.now.instance.now cases.now }
    ensures { IfOk result
        (IsStackBound scene.now.instance.now scene.now.path.now.blocks cases.now) }
{
    let sums = stack_sums(alloc, scene, cases)?;
    let unparked = unparked_in(scene.path.blocks());
    Ok(least_bound(cases, unparked, &sums))
}
