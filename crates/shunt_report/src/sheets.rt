// The texts of sheets.
ghost use Rattle.std.specs.Prelude.{◌≡◌, IfOk};
ghost use Rattle.shunt_report.specs.defs.SheetTexts.{sheet_of, followed_of};

use shunt_sheet::{Followed, Order};
use shunt_text::Text;
use std::alloc::{AllocError, Global};

/// The line of a sheet that was written: `sheet orders N`, with the number of its orders. The error is want of memory.
#[tactic(auto, unfolding(crate::specs::defs::SheetTexts::sheet_of))]
pub fn sheet_text(alloc: Global, orders: &Vec<Order>) -> Result<Vec<u8>, AllocError>
    ensures { IfOk result (λ v. v.items ≡ sheet_of orders.now.items) }
{
    let mut text = Text::new(alloc);
    text.push(b"sheet orders ")?;
    text.push_number(orders.len() as u64)?;
    text.push(b"\n")?;
    Ok(text.into_bytes())
}

/// The line of orders that were followed: `followed orders N left K`, with the number of orders and of blocks that are left on tracks;
/// or `order K blocked` or `order K over LOAD` with the first order that can't be done, counted from 1, and the load that it would
/// leave, in dm. The error is want of memory.
#[tactic(auto, unfolding(crate::specs::defs::SheetTexts::followed_of))]
pub fn followed_text(
    alloc: Global,
    orders: &Vec<Order>,
    followed: &Followed,
) -> Result<Vec<u8>, AllocError>
    ensures { IfOk result (λ v. v.items ≡ followed_of orders.now.items followed.now) }
{
    let mut text = Text::new(alloc);
    match *followed {
        Followed::Through { left } => {
            text.push(b"followed orders ")?;
            text.push_number(orders.len() as u64)?;
            text.push(b" left ")?;
            text.push_number(u64::from(left))?;
            text.push(b"\n")?;
        }
        Followed::Blocked { order } => {
            text.push(b"order ")?;
            text.push_number(u64::from(order))?;
            text.push(b" blocked\n")?;
        }
        Followed::Over { order, load } => {
            text.push(b"order ")?;
            text.push_number(u64::from(order))?;
            text.push(b" over ")?;
            text.push_number(load)?;
            text.push(b"\n")?;
        }
    }
    Ok(text.into_bytes())
}
