// The orders of a plan.
ghost use Rattle.std.specs.Prelude.{◌≡◌, ◌<◌, All, map, IfOk};
ghost use Rattle.shunt_base.specs.defs.Keys.{AreStays};
ghost use Rattle.shunt_stays.specs.defs.Events.{in_order};
ghost use Rattle.shunt_blocks.specs.defs.Shapes.{IsInRange};
ghost use Rattle.shunt_blocks.specs.defs.Lists.{AreInRange, stays_of};
ghost use Rattle.shunt_plan.specs.defs.Plans.{IsPlanInRange};
ghost use Rattle.shunt_tracks.specs.defs.Dues.{move_of as due_move};
ghost use Rattle.shunt_sheet.specs.defs.Orders.{order_of, orders_in};
ghost use Rattle.shunt_sheet.specs.defs.SheetFormat.{AreOrders};

use crate::records::Order;
use shunt_base::Minute;
use shunt_blocks::{Block, laws, stays_of};
use shunt_instance::Instance;
use shunt_plan::Plan;
use shunt_tracks::{Due, sorted_dues};
use std::alloc::{AllocError, Global};

fn order_of(due: &Due) -> Order
    requires { due.now.key.minute < 2880 }
    ensures { result ≡ order_of (due_move due.now) }
{
    let minute = match Minute::new(due.key.minute) {
        Some(minute) => minute,
        None => unreachable!(),
    };
    Order {
        minute,
        enters: due.key.enters,
        id: due.key.id,
        length: due.length,
        track: due.track,
        side: due.side,
    }
}

// The entries and leaves of the stays of these blocks, in the order of their keys.
fn dues_in(alloc: Global, instance: &Instance, blocks: &[Block]) -> Result<Vec<Due>, AllocError>
    requires each { All (IsInRange instance.now) blocks.now }
    requires stays { AreStays (stays_of instance.now blocks.now) }
    ensures { IfOk result
        (λ v. map due_move v.items ≡ in_order (stays_of instance.now blocks.now)) }
{
    let stays = stays_of(alloc, instance, blocks)?;
    sorted_dues(alloc, &stays)
}

fn orders_from(alloc: Global, dues: &[Due]) -> Result<Vec<Order>, AllocError>
    requires { All (λ d. d.key.minute < 2880) dues.now }
    ensures { IfOk result (λ v. v.items ≡ map order_of (map due_move dues.now)) }
{
    let mut orders = Vec::new(alloc);
    for due in dues {
        orders.push(order_of(due))?;
    }
    Ok(orders)
}

fn orders_of_blocks(
    alloc: Global,
    instance: &Instance,
    blocks: &[Block],
) -> Result<Vec<Order>, AllocError>
    requires { AreInRange instance.now blocks.now }
    ensures exact { IfOk result (λ v. v.items ≡ orders_in instance.now blocks.now) }
    ensures sheet { IfOk result (λ v. AreOrders instance.now.station v.items) }
{
    // The calls tell that the night is well formed, what its stays are, and how long.
    instance.station();
    laws::stays_of_blocks();
    laws::places();
    let dues = dues_in(alloc, instance, blocks)?;
    orders_from(alloc, &dues)
}

/// The orders of a plan in range: its entries and leaves in key order, each with its minute, its block's id and length, its
/// track and its side.
///
/// A file can state them. The error is want of memory.
pub fn orders_of(alloc: Global, instance: &Instance, plan: &Plan) -> Result<Vec<Order>, AllocError>
    requires { IsPlanInRange instance.now plan.now }
    ensures exact { IfOk result (λ v. v.items ≡ orders_in instance.now plan.now.blocks) }
    ensures sheet { IfOk result (λ v. AreOrders instance.now.station v.items) }
{
    orders_of_blocks(alloc, instance, plan.blocks.as_slice())
}
