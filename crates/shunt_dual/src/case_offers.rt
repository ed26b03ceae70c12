// What free shapes offer in a case: how much more their values come to than they weigh.
ghost use Rattle.std.specs.Prelude.{◌≡◌, ◌≤◌, ◌<◌, ◌++◌, ◌∷◌, [], List, All, IfOk, OnOk, length};
ghost use Rattle.shunt_blocks.specs.defs.Shapes.{AreRunsWithin};
ghost use Rattle.shunt_prices.specs.defs.Sums.{IsWithin};
ghost use Rattle.shunt_prices.specs.defs.Limits.{AreDuals};
ghost use Rattle.shunt_prices.specs.defs.Cases.{duals_over};
ghost use Rattle.shunt_dual.specs.declared.case_offers.Offer.{Offer as AnOffer};
ghost use Rattle.shunt_dual.specs.defs.Ways.{AreLeastWays};
ghost use Rattle.shunt_dual.specs.defs.Offers.{IsOffer, IsSmallOffer, AreOffers, offered};

use crate::feasibility::duals_over;
use crate::shape_costs::{charges, cost_with, shape_length};
use crate::ways::{LeastWays, least_parked, least_ways};
use shunt_base::Duals;
use shunt_blocks::{Park, Shape};
use shunt_instance::Instance;
use std::alloc::{AllocError, Global};

/// A shape with its length, the sum of its values, and what prices take of it on each track.
#[derive(Clone, Copy, Drop)]
pub struct Offer {
    shape: Shape,
    long: u32,
    worth: i64,
    charges: [u64; 60],
}

impl Offer {
    /// The shape.
    pub fn shape(&self) -> Shape
        ensures { result ≡ self.now.shape }
    {
        self.shape
    }

    /// The shape's length in dm.
    pub fn length(&self) -> u32
        ensures { result ≡ self.now.long }
    {
        self.long
    }

    /// How much more the shape's values come to than it weighs where it is parked so, in thousandths of a cost unit. It may be negative. It
    /// takes no memory.
    pub fn gain(&self, instance: &Instance, park: Park) -> i64
        requires offer { IsSmallOffer instance.now self.now }
        requires track { park.track.0 < length instance.now.station.tracks }
        ensures exact { result ≡ offered instance.now self.now park }
        ensures small { IsWithin 23056939999999983 result }
    {
        // The call tells that there are at most 60 tracks.
        instance.station();
        let cost = cost_with(instance, self.shape, Some(park));
        let weight = 1000 * cost + self.charges[usize::from(park.track.0)];
        self.worth - weight as i64
    }
}

/// A shape with what has to be known of it.
fn offer_of(instance: &Instance, duals: &Duals, shape: Shape, worth: i64) -> Offer
    requires duals { AreDuals instance.now duals.now }
    requires within { AreRunsWithin instance.now shape }
    requires worth { worth ≡ duals_over instance.now duals.now shape }
    requires small { IsWithin 15999999999984 worth }
    ensures shape { result.shape ≡ shape }
    ensures offer { IsOffer instance.now duals.now result }
    ensures small { IsSmallOffer instance.now result }
{
    let long = shape_length(instance, shape);
    Offer {
        shape,
        long,
        worth,
        charges: charges(instance, duals.prices.as_slice(), shape, long),
    }
}

/// Adds the offer of a shape, unless its values come to no more than it costs at least wherever it is parked.
fn add_offer(
    instance: &Instance,
    ways: &LeastWays,
    duals: &Duals,
    shape: Shape,
    offers: &mut Vec<Offer>,
) -> Result<(), AllocError>
    requires ways { AreLeastWays instance.now ways.now }
    requires duals { AreDuals instance.now duals.now }
    requires within { AreRunsWithin instance.now shape }
    ensures { OnOk result ((added : List AnOffer) × AreOffers instance.now duals.now
        (shape ∷ []) added × (offers.new.items ≡ offers.old.items ++ added)) }
{
    let worth = duals_over(instance, duals, shape);
    if worth > least_parked(instance, ways, shape) as i64 {
        offers.push(offer_of(instance, duals, shape, worth))?;
    }
    Ok(())
}

/// What these shapes offer where units, positions and prices have their values: those whose values come to more than they weigh in some
/// way to park are among them. Err is want of memory.
pub fn offers(
    alloc: Global,
    instance: &Instance,
    duals: &Duals,
    shapes: &[Shape],
) -> Result<Vec<Offer>, AllocError>
    requires duals { AreDuals instance.now duals.now }
    requires within { All (AreRunsWithin instance.now) shapes.now }
    ensures { IfOk result (λ v. AreOffers instance.now duals.now shapes.now v.items) }
{
    let ways = least_ways(instance);
    let mut offers = Vec::new(alloc);
    'shapes: for shape in shapes {
        add_offer(instance, &ways, duals, *shape, &mut offers)?;
    }
    Ok(offers)
}
