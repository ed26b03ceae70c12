// Cases for a path that bound much.
ghost use Rattle.std.specs.Prelude.{All, IfOk};
ghost use Rattle.shunt_choices.specs.defs.Paths.{IsTrailOf};
ghost use Rattle.shunt_prices.specs.defs.Limits.{AreApart, IsCase, AreCases};

use crate::case_pairs::{goal_for, part_cases, values_alone};
use crate::certificate_cases::{case_for, cases_of};
use crate::drafts::first_point;
use crate::points::EVERY;
use crate::roots::{Known, cases_with_stacks};
use crate::scenes::Scene;
use crate::slots::{Slot, has_slot, slot_of};
use crate::valuation::Work;
use crate::whole_numbers::{Found, settle};
use shunt_base::{Case, Cases, Price};
use shunt_choices::Path;
use shunt_instance::Instance;
use std::alloc::{AllocError, Global};

/// One case that is to bound much at a path, from which two can be made. Nothing is said of whether it holds, nor of what it bounds.
#[derive(Drop)]
pub struct Proposal {
    scene: Scene,
    one: Found,
}

impl Proposal {
    /// A proposal for a path. Err is want of memory.
    pub fn new(alloc: Global, instance: &Instance, path: &Path) -> Result<Proposal, AllocError>
        requires { IsTrailOf instance.now path.now }
    {
        let (scene, point) = first_point(alloc, instance, path)?;
        let mut work = Work::new(alloc, &scene)?;
        let ascent = values_alone(instance.units());
        let one = settle(alloc, &scene, EVERY, ascent, point, &mut work)?;
        Ok(Proposal { scene, one })
    }

    // The prices of its cases, without their values.
    pub(crate) fn slots(&self, alloc: Global) -> Result<Vec<Slot>, AllocError> {
        Vec::from_slice(alloc, &self.scene.slots)
    }

    /// The case, which speaks of all numbers of unparked blocks. Err is want of memory.
    pub fn case(&self, alloc: Global, instance: &Instance) -> Result<Case, AllocError>
        ensures case { IfOk result (IsCase instance.now) }
        ensures apart { IfOk result (λ c. AreApart c.duals.prices) }
    {
        let mut work = Work::new(alloc, &self.scene)?;
        case_for(alloc, instance, &self.scene, &self.one, &mut work)
    }

    /// The case alone, or two that are parted near a number of unparked blocks where these are to bound more: that of a good plan, whose
    /// cost in cost units no bound has to exceed. Nothing is said of whether they hold, nor of what they bound. Err is want of memory.
    pub fn parted(
        &self,
        alloc: Global,
        instance: &Instance,
        unparked: u8,
        cost: u64,
    ) -> Result<Cases, AllocError>
        ensures cases { IfOk result (AreCases instance.now) }
        ensures apart { IfOk result (All (λ c. AreApart c.duals.prices)) }
    {
        let mut work = Work::new(alloc, &self.scene)?;
        let one = self.one.copied(alloc)?;
        let goal = goal_for(cost);
        let parted = part_cases(alloc, &self.scene, one, unparked, goal, &mut work)?;
        cases_of(alloc, instance, &self.scene, &parted, &mut work)
    }

    /// Cases with stacks at the proposal's path, from cases there without: one, or two that are parted near a number of unparked blocks where
    /// these are to bound more: that of a good plan, whose cost in cost units no bound has to exceed. Nothing is said of whether they hold, nor
    /// of what they bound. Err is want of memory.
    pub fn with_stacks(
        &self,
        alloc: Global,
        instance: &Instance,
        path: &Path,
        cases: &Cases,
        unparked: u8,
        cost: u64,
    ) -> Result<Cases, AllocError>
        requires { IsTrailOf instance.now path.now }
        ensures cases { IfOk result (AreCases instance.now) }
        ensures apart { IfOk result (All (λ c. AreApart c.duals.prices)) }
    {
        let slots = slots_with(instance, self.slots(alloc)?, cases)?;
        let known = Known {
            unparked,
            goal: goal_for(cost),
            was_one: cases.len() < 2,
        };
        cases_with_stacks(alloc, instance, path, &slots, cases, known)
    }
}

/// These prices and those of cases. Err is want of memory.
pub(crate) fn slots_with(
    instance: &Instance,
    slots: Vec<Slot>,
    cases: &Cases,
) -> Result<Vec<Slot>, AllocError> {
    let mut all = slots;
    for k in 0..cases.len() {
        add_slots(instance, cases.get(k).duals.prices.as_slice(), &mut all)?;
    }
    Ok(all)
}

// Adds the prices of a case that aren't among these.
fn add_slots(
    instance: &Instance,
    prices: &[Price],
    slots: &mut Vec<Slot>,
) -> Result<(), AllocError> {
    for price in prices {
        if let Some(slot) = slot_of(instance, price) {
            if !has_slot(slots, &slot) {
                slots.push(slot)?;
            }
        }
    }
    Ok(())
}
