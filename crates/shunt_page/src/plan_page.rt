// The page of a plan.
ghost use Rattle.std.specs.Prelude.{◌≡◌, IfOk};
ghost use Rattle.shunt_plan.specs.defs.Plans.{IsPlanInRange};
ghost use Rattle.shunt_page.specs.defs.Pages.{IsPageOf};

use crate::departs::departs_of;
use crate::findings::lines_of;
use crate::orders::rows_of;
use crate::parts::parts_of;
use crate::records::Page;
use crate::told::looses_of;
use shunt_audit::audit;
use shunt_base::copy_name;
use shunt_instance::Instance;
use shunt_lists::Items;
use shunt_picture::picture;
use shunt_plan::Plan;
use std::alloc::{AllocError, Global};

/// The page of a plan in range.
///
/// It has the station with its numbers of units and blocks, the cost with its parts, which add up to it, exactly the findings, the picture,
/// one row for each order of its sheet, in key order, with its block's units and train, exactly the blocks that have no stay, and each
/// departing train with what fills its positions. The error is want of memory.
pub fn page(alloc: Global, instance: &Instance, plan: &Plan) -> Result<Page, AllocError>
    requires { IsPlanInRange instance.now plan.now }
    ensures { IfOk result (IsPageOf instance.now plan.now) }
{
    let found = audit(alloc, instance, plan)?;
    let blocks = plan.blocks.as_slice();
    let findings = lines_of(alloc, instance, found.findings.as_slice())?;
    let picture = picture(alloc, instance, plan)?;
    let rows = rows_of(alloc, instance, plan)?;
    let loose = looses_of(alloc, instance, blocks)?;
    let departs = departs_of(alloc, instance, blocks)?;
    let station = copy_name(alloc, &instance.station().name)?;
    Ok(Page {
        station,
        units: instance.units() as u64,
        blocks: blocks.len() as u64,
        parts: parts_of(instance, blocks),
        cost: found.cost,
        stated: plan.cost,
        findings: Items::from_vec(findings),
        picture,
        rows: Items::from_vec(rows),
        loose: Items::from_vec(loose),
        departs: Items::from_vec(departs),
    })
}
