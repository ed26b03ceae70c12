// Paths at which a tree grows.
ghost use Rattle.std.specs.Prelude.{All, IfOk};
ghost use Rattle.shunt_prices.specs.defs.Limits.{AreApart, AreCases};

use shunt_ascent::{Choice, Fixed, Raise, Raised, Reached, Site, StackSite};
use shunt_base::{Case, Cases};
use shunt_blocks::Block;
use shunt_instance::Instance;
use std::alloc::{AllocError, Global};

/// A path at which cases are judged by prices alone, or with stacks. It changes.
#[derive(Drop)]
pub(crate) enum Ground {
    Prices(Site),
    Stacks(StackSite),
}

impl Ground {
    /// Goes to the path of these blocks, of which the root's are some. Err is want of memory.
    pub(crate) fn go_to(
        &mut self,
        alloc: Global,
        instance: &Instance,
        blocks: &[Block],
    ) -> Result<(), AllocError> {
        match self {
            Ground::Prices(site) => site.go_to(instance, blocks),
            Ground::Stacks(site) => site.go_to(alloc, instance, blocks),
        }
    }

    /// How many units are uncovered.
    pub(crate) fn units_left(&self) -> usize {
        match self {
            Ground::Prices(site) => site.units_left(),
            Ground::Stacks(site) => site.units_left(),
        }
    }

    /// How many blocks of the path are unparked.
    pub(crate) fn unparked(&self) -> i64 {
        match self {
            Ground::Prices(site) => site.unparked(),
            Ground::Stacks(site) => site.unparked(),
        }
    }

    /// The blocks that may come next, also those with which the run doesn't go through. Err is want of memory.
    pub(crate) fn choices(
        &self,
        alloc: Global,
        instance: &Instance,
    ) -> Result<Vec<Choice>, AllocError> {
        match self {
            Ground::Prices(site) => site.choices(alloc, instance),
            Ground::Stacks(site) => site.choices(alloc, instance),
        }
    }

    /// What a case comes to at the path and with these blocks more, which go through. By prices alone it comes to this sum at the path; with
    /// stacks that is found anew, since what others bring there may have fallen. Err is want of memory.
    pub(crate) fn sums(
        &mut self,
        alloc: Global,
        case: &Fixed,
        sum: i64,
        choices: &[Choice],
    ) -> Result<Reached, AllocError> {
        match self {
            Ground::Prices(site) => Ok(Reached {
                sum,
                longer: site.sums(alloc, case, sum, choices)?,
            }),
            Ground::Stacks(site) => site.sums(alloc, case, choices),
        }
    }

    /// A case that speaks of a number of unparked blocks and more, with its sum. Err is want of memory.
    pub(crate) fn taken_over(
        &mut self,
        alloc: Global,
        case: &Case,
        from: u8,
    ) -> Result<Raised, AllocError> {
        match self {
            Ground::Prices(site) => site.taken_over(alloc, case, from),
            Ground::Stacks(site) => site.taken_over(alloc, case, from),
        }
    }

    /// A case that is to bound more with each of these blocks more, from another. Err is want of memory.
    pub(crate) fn raised(
        &mut self,
        alloc: Global,
        case: &Fixed,
        choices: &[Choice],
        raise: Raise,
    ) -> Result<Raised, AllocError> {
        match self {
            Ground::Prices(site) => site.raised(alloc, case, choices, raise),
            Ground::Stacks(site) => site.raised(alloc, case, choices, raise),
        }
    }

    /// A case, or two of which the first speaks of fewer unparked blocks, as a certificate states them. Err is want of memory.
    pub(crate) fn stated(
        &self,
        alloc: Global,
        instance: &Instance,
        first: Option<&Fixed>,
        last: &Fixed,
    ) -> Result<Cases, AllocError>
        ensures cases { IfOk result (AreCases instance.now) }
        ensures apart { IfOk result (All (λ c. AreApart c.duals.prices)) }
    {
        match self {
            Ground::Prices(site) => site.stated(alloc, instance, first, last),
            Ground::Stacks(site) => site.stated(alloc, instance, first, last),
        }
    }
}
