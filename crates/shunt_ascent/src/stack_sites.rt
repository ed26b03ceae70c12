// Paths at which cases with stacks are raised, one after the other, as a tree of partial plans has them.
ghost use Rattle.std.specs.Prelude.{All, IfOk};
ghost use Rattle.shunt_choices.specs.defs.Paths.{IsTrailOf};
ghost use Rattle.shunt_prices.specs.defs.Limits.{AreApart, AreCases};

use crate::certificate_cases::cases_with;
use crate::entries::{Choice, choices_from};
use crate::fillings::Next;
use crate::gains::Gains;
use crate::lifts::{Held, Lift, hold, lifted};
use crate::masks::Masks;
use crate::numbers::whole;
use crate::places::Place;
use crate::points::{Fixed, Span};
use crate::proposal::slots_with;
use crate::sites::{Raise, Raised};
use crate::stacks::stack_of;
use crate::stated::values_of;
use shunt_base::{Case, Cases};
use shunt_blocks::Block;
use shunt_choices::Path;
use shunt_instance::Instance;
use std::alloc::{AllocError, Global};

/// How far the first step of an ascent goes, in grains.
const STEP: i64 = 2_000;

/// About how much work all ascents at the paths of a site take at most, in steps of tables.
const WORK: u64 = 4_000_000_000;

/// What a case comes to at a path, and at the paths with a block more, in thousandths of a cost unit.
#[derive(Drop)]
pub struct Reached {
    pub sum: i64,
    pub longer: Vec<i64>,
}

/// A path at which cases with stacks are raised, which changes. Nothing is said of what they bound, nor of whether they hold.
#[derive(Drop)]
pub struct StackSite {
    place: Place,
    gains: Gains,
    masks: Masks,
}

fn next_of(choice: &Choice) -> Next {
    Next {
        entry: choice.entry,
        stack: choice.block.park.and_then(stack_of),
    }
}

fn nexts_of(alloc: Global, choices: &[Choice]) -> Result<Vec<Next>, AllocError> {
    let mut nexts = Vec::with_capacity(alloc, choices.len())?;
    for choice in choices {
        nexts.push(next_of(choice))?;
    }
    Ok(nexts)
}

fn raised_of(held: Held) -> Raised {
    Raised {
        case: held.case,
        sum: whole(held.sum).0,
    }
}

impl StackSite {
    /// The site of a path, with the prices of the cases there. Err is want of memory.
    pub fn new(
        alloc: Global,
        instance: &Instance,
        path: &Path,
        cases: &Cases,
    ) -> Result<StackSite, AllocError>
        requires { IsTrailOf instance.now path.now }
    {
        let slots = slots_with(instance, Vec::new(alloc), cases)?;
        let mut place = Place::new(alloc, instance, path)?;
        place.scene.price(alloc, instance, path.blocks(), slots)?;
        let gains = Gains::new(alloc, &place)?;
        let masks = Masks::new(alloc, &place.scene)?;
        let mut site = StackSite {
            place,
            gains,
            masks,
        };
        site.go_to(alloc, instance, path.blocks())?;
        Ok(site)
    }

    /// Goes to the path of these blocks, of which the first path's are some. Err is want of memory.
    pub fn go_to(
        &mut self,
        alloc: Global,
        instance: &Instance,
        blocks: &[Block],
    ) -> Result<(), AllocError> {
        let place = &mut self.place;
        self.masks.go_to(instance, blocks, &mut place.scene)?;
        place.spaces = place.stacks.spaces(alloc, instance, &place.scene, blocks)?;
        Ok(())
    }

    /// How many units are free.
    pub fn units_left(&self) -> usize {
        self.masks.units_left()
    }

    /// How many blocks of the path are unparked.
    pub fn unparked(&self) -> i64 {
        self.place.scene.left.0
    }

    /// The blocks that may come next, also those with which the run doesn't go through. Err is want of memory.
    pub fn choices(&self, alloc: Global, instance: &Instance) -> Result<Vec<Choice>, AllocError> {
        choices_from(alloc, instance, &self.place.scene, self.masks.next_unit())
    }

    /// What a case comes to at the path, and at the paths with these blocks more, with which the run goes through. Err is want of memory.
    pub fn sums(
        &mut self,
        alloc: Global,
        case: &Fixed,
        choices: &[Choice],
    ) -> Result<Reached, AllocError> {
        let nexts = nexts_of(alloc, choices)?;
        let sum = self
            .gains
            .sum(&self.place, case.span, &case.values, &nexts)?;
        let mut longer = Vec::with_capacity(alloc, nexts.len())?;
        for step in &self.gains.steps {
            longer.push(whole(sum + *step).0)?;
        }
        Ok(Reached {
            sum: whole(sum).0,
            longer,
        })
    }

    /// A case that speaks of a number of unparked blocks and more, with its sum, where its values of units are lowered so that it holds. Err
    /// is want of memory.
    pub fn taken_over(
        &mut self,
        alloc: Global,
        case: &Case,
        from: u8,
    ) -> Result<Raised, AllocError> {
        let values = values_of(alloc, case, &self.place.scene.slots)?;
        let span = Span { from, to: case.to };
        let held = hold(&self.place, span, values, &mut self.gains)?;
        Ok(raised_of(held))
    }

    /// A case that is to bound more at each of the paths with these blocks more, from another. Err is want of memory.
    pub fn raised(
        &mut self,
        alloc: Global,
        case: &Fixed,
        choices: &[Choice],
        raise: Raise,
    ) -> Result<Raised, AllocError> {
        let nexts = nexts_of(alloc, choices)?;
        let values = case.values.copied(alloc)?;
        let start = hold(&self.place, case.span, values, &mut self.gains)?;
        let lift = Lift {
            nexts: &nexts,
            lengths: true,
            multiplier: raise.multiplier,
            step: STEP,
            most: raise.most,
            work: WORK.saturating_sub(self.gains.spend(0)),
            goal: raise.height(self.place.scene.grain),
        };
        let held = lifted(alloc, &self.place, lift, start, &mut self.gains)?;
        Ok(raised_of(held))
    }

    /// A case, or two of which the first speaks of fewer unparked blocks, as a certificate states them. Err is want of memory.
    pub fn stated(
        &self,
        alloc: Global,
        instance: &Instance,
        first: Option<&Fixed>,
        last: &Fixed,
    ) -> Result<Cases, AllocError>
        ensures cases { IfOk result (AreCases instance.now) }
        ensures apart { IfOk result (All (λ c. AreApart c.duals.prices)) }
    {
        cases_with(alloc, instance, &self.place.scene, first, last)
    }
}
