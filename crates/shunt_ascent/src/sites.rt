// Paths at which cases are raised, one after the other, as a tree of partial plans has them.
ghost use Rattle.std.specs.Prelude.{◌≡◌, ◌≤◌, All, IfOk};
ghost use Rattle.shunt_choices.specs.defs.Paths.{IsTrailOf};
ghost use Rattle.shunt_prices.specs.defs.Limits.{IsCase, AreApart, AreCases};

use crate::ascent::{Ascent, ascend};
use crate::certificate_cases::cases_with;
use crate::entries::{Choice, choices_from};
use crate::masks::Masks;
use crate::numbers::{NOTHING, Number, at, whole};
use crate::points::{Fixed, Point, Span, Values};
use crate::proposal::{Proposal, slots_with};
use crate::scenes::{Entry, Scene};
use crate::stated::{point_of, scaled};
use crate::valuation::Work;
use crate::whole_numbers::{round, settle};
use shunt_base::{Case, Cases};
use shunt_blocks::Block;
use shunt_choices::Path;
use shunt_instance::Instance;
use std::alloc::{AllocError, Global};
use std::num::Wrapping;

/// How far the first step of an ascent goes, and that of the one behind it, once prices of length are whole, in grains.
const STEPS: [i64; 2] = [6_000, 300];

/// How many evaluations that one takes at most.
const FEW: usize = 20;

/// How far above its goal an ascent goes, in thousandths of a grain.
const MORE: i64 = 3_000;

/// A case with its sum at a path, in thousandths of a cost unit.
#[derive(Drop)]
pub struct Raised {
    pub case: Fixed,
    pub sum: i64,
}

/// How far a case is raised: to a sum in thousandths of a cost unit, by that many evaluations at most, and whether its multiplier changes.
#[derive(Clone, Copy)]
pub struct Raise {
    pub goal: i64,
    pub most: usize,
    pub multiplier: bool,
}

/// A path at which cases are raised, which changes. Nothing is said of what they bound, nor of whether they hold.
#[derive(Drop)]
pub struct Site {
    scene: Scene,
    work: Work,
    masks: Masks,
}

// The sum of that many values from one on.
fn run_sum(values: &[Number], from: usize, n: usize) -> Number {
    let mut sum = NOTHING;
    for k in 0..n {
        sum += at(values, from.saturating_add(k));
    }
    sum
}

impl Raise {
    /// The sum that an ascent goes to: more than the goal, since its numbers aren't whole yet.
    pub(crate) fn height(&self, grain: i64) -> Number {
        scaled(self.goal) + scaled(MORE) * Wrapping(grain)
    }
}

impl Site {
    /// The site of a path, with the prices of a proposal and of the cases there. Err is want of memory.
    pub fn new(
        alloc: Global,
        instance: &Instance,
        path: &Path,
        proposal: &Proposal,
        cases: &Cases,
    ) -> Result<Site, AllocError>
        requires { IsTrailOf instance.now path.now }
    {
        let slots = slots_with(instance, proposal.slots(alloc)?, cases)?;
        let mut scene = Scene::new(alloc, instance, path)?;
        scene.price(alloc, instance, path.blocks(), slots)?;
        let work = Work::new(alloc, &scene)?;
        let masks = Masks::new(alloc, &scene)?;
        let mut site = Site { scene, work, masks };
        site.go_to(instance, path.blocks())?;
        Ok(site)
    }

    /// Goes to the path of these blocks, of which the first path's are some. Err is want of memory.
    pub fn go_to(&mut self, instance: &Instance, blocks: &[Block]) -> Result<(), AllocError> {
        self.masks.go_to(instance, blocks, &mut self.scene)
    }

    /// How many units are free.
    pub fn units_left(&self) -> usize {
        self.masks.units_left()
    }

    /// How many blocks of the path are unparked.
    pub fn unparked(&self) -> i64 {
        self.scene.left.0
    }

    /// The blocks that may come next, also those with which the run doesn't go through. Err is want of memory.
    pub fn choices(&self, alloc: Global, instance: &Instance) -> Result<Vec<Choice>, AllocError> {
        choices_from(alloc, instance, &self.scene, self.masks.next_unit())
    }

    // What a case comes to with the next block, from what it comes to at the path, in thousandths.
    fn sum_with(&self, case: &Fixed, sum: i64, entry: &Entry) -> i64 {
        let weight = self.work.reduced(&case.values.point, entry);
        let alphas = run_sum(&case.values.alpha, entry.u, entry.row.n);
        (Wrapping(sum) + whole(weight - alphas)).0
    }

    /// The sums of a case at the paths with these blocks more, from its sum at the path. Err is want of memory.
    pub fn sums(
        &mut self,
        alloc: Global,
        case: &Fixed,
        sum: i64,
        choices: &[Choice],
    ) -> Result<Vec<i64>, AllocError> {
        self.work.weigh_all(&self.scene, &case.values.point);
        let mut sums = Vec::with_capacity(alloc, choices.len())?;
        for choice in choices {
            sums.push(self.sum_with(case, sum, &choice.entry))?;
        }
        Ok(sums)
    }

    // Gives up the values of positions that aren't free.
    fn drop_taken(&self, point: &mut Point) {
        for (beta, free) in point.beta.iter_mut().zip(&self.scene.free) {
            if !*free {
                *beta = NOTHING;
            }
        }
    }

    // The case of a point, whose numbers are made whole, with its sum.
    fn fixed(&mut self, alloc: Global, span: Span, point: Point) -> Result<Raised, AllocError> {
        let mut point = point;
        round(&mut point);
        self.drop_taken(&mut point);
        self.scene.entries.clear();
        let sum = self.work.evaluate(&self.scene, span, &point);
        let alpha = self.work.growths(alloc, &self.scene)?;
        Ok(Raised {
            case: Fixed {
                span,
                values: Values { alpha, point },
            },
            sum: whole(sum).0,
        })
    }

    /// A case that speaks of a number of unparked blocks and more, with its sum, where its values of units are as high as the others let
    /// them be. Err is want of memory.
    pub fn taken_over(
        &mut self,
        alloc: Global,
        case: &Case,
        from: u8,
    ) -> Result<Raised, AllocError> {
        let point = point_of(alloc, case, &self.scene.slots)?;
        self.fixed(alloc, Span { from, to: case.to }, point)
    }

    // Lets these be the blocks that may come next.
    fn enter(&mut self, choices: &[Choice]) -> Result<(), AllocError> {
        self.scene.entries.clear();
        for choice in choices {
            self.scene.entries.push(choice.entry)?;
        }
        Ok(())
    }

    /// A case that is to bound more at each of the paths with these blocks more, from another. Err is want of memory.
    pub fn raised(
        &mut self,
        alloc: Global,
        case: &Fixed,
        choices: &[Choice],
        raise: Raise,
    ) -> Result<Raised, AllocError> {
        self.enter(choices)?;
        let ascent = Ascent {
            lengths: true,
            multiplier: raise.multiplier,
            step: STEPS[0],
            most: raise.most,
            goal: raise.height(self.scene.grain),
        };
        let scene = &self.scene;
        let start = &case.values.point;
        let (point, _) = ascend(alloc, scene, case.span, ascent, start, &mut self.work)?;
        let ascent = Ascent {
            lengths: false,
            step: STEPS[1],
            most: FEW,
            goal: scaled(raise.goal),
            ..ascent
        };
        let found = settle(alloc, scene, case.span, ascent, point, &mut self.work)?;
        self.fixed(alloc, case.span, found.point)
    }

    /// A case, or two of which the first speaks of fewer unparked blocks, as a certificate states them. Err is want of memory.
    pub fn stated(
        &self,
        alloc: Global,
        instance: &Instance,
        first: Option<&Fixed>,
        last: &Fixed,
    ) -> Result<Cases, AllocError>
        ensures cases { IfOk result (AreCases instance.now) }
        ensures apart { IfOk result (All (λ c. AreApart c.duals.prices)) }
    {
        cases_with(alloc, instance, &self.scene, first, last)
    }
}
