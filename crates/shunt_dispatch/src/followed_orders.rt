// The answer of `follow`.
ghost use Rattle.std.specs.Prelude.{◌≡◌, IfOk};
ghost use Rattle.shunt_sheet.specs.defs.SheetFormat.{AreOrders};
ghost use Rattle.shunt_inputs.specs.defs.Replies.{reply_of};
ghost use Rattle.shunt_dispatch.specs.defs.Followed.{IsFollowed, followed_outcome};

use shunt_inputs::{Answer, Outcome, Question, SheetFile, StationFile, Then};
use shunt_instance::Station;
use shunt_lists::Items;
use shunt_report::followed_text;
use shunt_sheet::{Followed, Order, follow};
use std::alloc::{AllocError, Global};

// How orders end that come to this.
fn outcome_of_following(followed: &Followed) -> Outcome
    ensures { result ≡ followed_outcome followed.now }
{
    match followed {
        Followed::Through { .. } => Outcome::Done,
        Followed::Blocked { .. } | Followed::Over { .. } => Outcome::Findings,
    }
}

// What following orders comes to.
fn follow_answer(
    alloc: Global,
    station: &Station,
    orders: &Vec<Order>,
) -> Result<Answer, AllocError>
    requires { AreOrders station.now orders.now.items }
    ensures { IfOk result (λ a. IsFollowed
        (record { station = station.now; orders = orders.now.items }) (reply_of a)) }
{
    let followed = follow(alloc, station, orders)?;
    Ok(Answer {
        outcome: outcome_of_following(&followed),
        writes: Vec::new(alloc),
        text: followed_text(alloc, orders, &followed)?,
    })
}

/// The question of `follow`: what following orders comes to.
#[derive(Clone, Copy, Drop)]
pub struct FollowCommand;

impl<'n> Question<Then<StationFile<'n>, SheetFile<'n>>> for FollowCommand {
    ghost answers = { λ _ x. IsFollowed (record { station = x.0; orders = x.1 }) };

    fn answer(&self, alloc: Global, value: (Station, Items<Order>)) -> Result<Answer, AllocError>
        requires { AreOrders value.0 value.1 }
        ensures { IfOk result
            (λ a. IsFollowed (record { station = value.0; orders = value.1 }) (reply_of a)) }
    {
        let (station, orders) = value;
        let orders = orders.into_vec();
        follow_answer(alloc, &station, &orders)
    }
}
