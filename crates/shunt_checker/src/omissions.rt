// Which choice at a branch's path is the first that the branch would have to list and doesn't, with stacks.
ghost use Rattle.std.specs.Prelude.{◌≡◌, ◌<◌, ◌≤◌, ◌+◌, ◌*◌, ◌+ℤ◌, ◌-ℤ◌, ◌↔◌, IsTrue, IfOk, All};
ghost use Rattle.std.specs.Prelude.{Some, false, length, pos};
ghost use Rattle.shunt_blocks.specs.defs.Shapes.{unit_from, AreRunsWithin, IsOnTrack};
ghost use Rattle.shunt_blocks.specs.defs.Blocks.{IsBlockButId};
ghost use Rattle.shunt_blocks.specs.defs.Lists.{RunsThrough, placed};
ghost use Rattle.shunt_choices.specs.defs.Paths.{IsTrailOf, next_of};
ghost use Rattle.shunt_choices.specs.defs.Choices.{IsFreeShape, longer_by, chosen};
ghost use Rattle.shunt_prices.specs.defs.Sums.{IsWithin};
ghost use Rattle.shunt_prices.specs.defs.Limits.{AreCases, case_at};
ghost use Rattle.shunt_prices.specs.defs.Cases.{IsFreeBlock};
ghost use Rattle.shunt_prices.specs.defs.Bounds.{IsOpenAt, unparked_in};
ghost use Rattle.shunt_stacks.specs.defs.Bounds.{IsStackSum};
ghost use Rattle.shunt_proof.specs.declared.records.Version.TheVariants.{Stacks};
ghost use Rattle.shunt_proof.specs.defs.Nodes.{AreNodes};
ghost use Rattle.shunt_checker.specs.defs.Firsts.{Finds};
ghost use Rattle.shunt_checker.specs.defs.Searches.{IsOneOfShape, IsOneAt};
ghost use Rattle.shunt_checker.specs.defs.NodeFaults.{EarlierChoice};
ghost use Rattle.shunt_checker.specs.defs.Children.{said};
ghost use Rattle.shunt_checker.specs.defs.Lows.{AreGains, IsLowIn, IsLowBy, offer_of};
ghost use Rattle.shunt_checker.specs.defs.Misses.{IsMissed};
ghost use Rattle.shunt_checker.specs.defs.Tallies.{IsTally, IsLone, IsStackedLook};

use crate::children::has_child;
use crate::first_choices::{Sought, found_at};
use crate::gains::{Gains, gains_in, is_below, unparked_with, weight_of};
use crate::leasts::{has_open_first, unparked_on};
use crate::missed_choices::{goes_through, most_options, option_at, said};
use crate::node_choices::next_block;
use crate::offer::{Offer, park_in};
use crate::prices::length_of;
use crate::sums::{StackedSum, fall_in, tally_in};
use shunt_base::Cases;
use shunt_blocks::{Block, Park, Shape, is_option};
use shunt_choices::{Covered, Path};
use shunt_instance::Instance;
use shunt_proof::Node;
use shunt_stacks::laws::{bounds_rise, one_gain};
use std::alloc::{AllocError, Global};

/// A branch that is looked at: its path with the number of unparked blocks there, its cases with the number of the last one and what
/// the first and the last of them come to at the path, the nodes with its number among them, and the bound that the certificate states.
#[derive(Clone, Copy)]
pub(crate) struct Stacked<'a> {
    pub(crate) path: &'a Path,
    pub(crate) unparked: usize,
    pub(crate) cases: &'a Cases,
    pub(crate) last: usize,
    pub(crate) early: &'a StackedSum,
    pub(crate) late: &'a StackedSum,
    pub(crate) nodes: &'a [Node],
    pub(crate) node: usize,
    pub(crate) stated: u64,
}

/// The sum of the case with a number at the path, less the gain of a choice: what the choice's sum is at least, and is where the gain of
/// its stack doesn't fall.
fn lone_sum(
    instance: &Instance,
    path: &Path,
    cases: &Cases,
    k: usize,
    whole: i64,
    gains: &Gains,
    shape: Shape,
    park: Option<Park>,
) -> i64
    requires cases { AreCases instance.now cases.now }
    requires there { k < length cases.now }
    requires whole { IsStackSum instance.now path.now.blocks cases.now k whole }
    requires small { IsWithin 4050000000000000000 whole }
    requires gains { AreGains instance.now (case_at cases.now k) shape gains.now }
    requires within { AreRunsWithin instance.now shape }
    requires track { IsOnTrack instance.now.station park }
    ensures exact { IsLone instance.now path.now.blocks cases.now k (offer_of shape park) result }
    ensures small { IsWithin 4080000000000000000 result }
{
    let case = cases.get(k);
    let weight = weight_of(instance, case, gains, shape, park);
    whole + (weight - gains.over)
}

/// Whether the sum of a choice in the case with a number, which is open at the longer path, gives a bound below the one that is stated.
fn is_low_in(
    alloc: Global,
    instance: &Instance,
    branch: &Stacked,
    k: usize,
    tally: &StackedSum,
    lone: i64,
    offer: Offer,
) -> Result<bool, AllocError>
    requires branch { IsStackedLook instance.now branch.now }
    requires opens { IsOpenAt branch.now.cases.now (longer_by branch.now.path.now.blocks offer) k }
    requires tally { IsTally instance.now branch.now.path.now.blocks branch.now.cases.now k
        tally.now }
    requires lone { IsLone instance.now branch.now.path.now.blocks branch.now.cases.now k offer
        lone }
    requires small { IsWithin 4080000000000000000 lone }
    requires free { IsFreeBlock instance.now branch.now.path.now.covered offer.shape offer.option }
    requires longer { RunsThrough instance.now
        (placed (longer_by branch.now.path.now.blocks offer)) }
    ensures { IfOk result (λ b. IsTrue b ↔ IsLowIn Stacks instance.now branch.now.path.now.blocks
        branch.now.cases.now branch.now.stated k offer) }
{
    // A choice has one sum.
    one_gain();
    let block = next_block(branch.path, offer);
    let fall = fall_in(
        alloc,
        instance,
        branch.path,
        branch.cases,
        k,
        &tally.counted,
        &block,
    )?;
    Ok(is_below(lone + fall, branch.stated))
}

/// Whether the bound of a choice is below the one that is stated. Only open cases are looked at.
fn is_low(
    alloc: Global,
    instance: &Instance,
    branch: &Stacked,
    early: i64,
    late: i64,
    offer: Offer,
) -> Result<bool, AllocError>
    requires branch { IsStackedLook instance.now branch.now }
    requires early { IsLone instance.now branch.now.path.now.blocks branch.now.cases.now 0 offer
        early }
    requires early_small { IsWithin 4080000000000000000 early }
    requires late { IsLone instance.now branch.now.path.now.blocks branch.now.cases.now
        branch.now.last offer late }
    requires late_small { IsWithin 4080000000000000000 late }
    requires free { IsFreeBlock instance.now branch.now.path.now.covered offer.shape offer.option }
    requires longer { RunsThrough instance.now
        (placed (longer_by branch.now.path.now.blocks offer)) }
    ensures { IfOk result (λ b. IsTrue b ↔ IsLowBy Stacks instance.now branch.now.path.now.blocks
        branch.now.cases.now branch.now.stated offer) }
{
    let low = is_low_in(
        alloc,
        instance,
        branch,
        branch.last,
        branch.late,
        late,
        offer,
    )?;
    if low {
        return Ok(true);
    }
    let unparked = unparked_with(branch.unparked, park_in(offer));
    if !has_open_first(branch.cases, unparked) {
        return Ok(false);
    }
    is_low_in(alloc, instance, branch, 0, branch.early, early, offer)
}

/// Whether the bound of a choice would be below the one that is stated if the gain of its stack didn't fall. No fall is below 0.
fn is_near(instance: &Instance, branch: &Stacked, early: i64, late: i64, offer: Offer) -> bool
    requires branch { IsStackedLook instance.now branch.now }
    requires early { IsLone instance.now branch.now.path.now.blocks branch.now.cases.now 0 offer
        early }
    requires early_small { IsWithin 4080000000000000000 early }
    requires late { IsLone instance.now branch.now.path.now.blocks branch.now.cases.now
        branch.now.last offer late }
    requires late_small { IsWithin 4080000000000000000 late }
    requires free { IsFreeBlock instance.now branch.now.path.now.covered offer.shape offer.option }
    ensures { result ≡ false → IsLowBy Stacks instance.now branch.now.path.now.blocks
        branch.now.cases.now branch.now.stated offer → ⊥ }
{
    instance.units();
    one_gain();
    bounds_rise();
    if is_below(late, branch.stated) {
        return true;
    }
    is_below(early, branch.stated)
}

/// Whether a branch would have to list a choice that is near, and doesn't. How far a gain falls is found last.
fn is_omitted(
    alloc: Global,
    instance: &Instance,
    branch: &Stacked,
    early: i64,
    late: i64,
    shape: Shape,
    park: Option<Park>,
) -> Result<bool, AllocError>
    requires branch { IsStackedLook instance.now branch.now }
    requires early { IsLone instance.now branch.now.path.now.blocks branch.now.cases.now 0
        (offer_of shape park) early }
    requires early_small { IsWithin 4080000000000000000 early }
    requires late { IsLone instance.now branch.now.path.now.blocks branch.now.cases.now
        branch.now.last (offer_of shape park) late }
    requires late_small { IsWithin 4080000000000000000 late }
    requires free { IsFreeBlock instance.now branch.now.path.now.covered shape park }
    requires track { IsOnTrack instance.now.station park }
    ensures { IfOk result (λ b. IsTrue b
        ↔ IsMissed Stacks instance.now branch.now.path.now.blocks branch.now.cases.now
        branch.now.nodes.now branch.now.node branch.now.stated (offer_of shape park)) }
{
    let offer = Offer { shape, park };
    if !is_near(instance, branch, early, late, offer) {
        return Ok(false);
    }
    if has_child(instance, branch.nodes, branch.node, said(shape, park)) {
        return Ok(false);
    }
    let through = goes_through(alloc, instance, branch.path, shape, park)?;
    if !through {
        return Ok(false);
    }
    is_low(alloc, instance, branch, early, late, offer)
}

/// Whether a branch would have to list a free shape with an option, and doesn't.
fn is_missed(
    alloc: Global,
    instance: &Instance,
    branch: &Stacked,
    first: &Gains,
    last: &Gains,
    shape: Shape,
    park: Option<Park>,
) -> Result<bool, AllocError>
    requires branch { IsStackedLook instance.now branch.now }
    requires first { AreGains instance.now (case_at branch.now.cases.now 0) shape first.now }
    requires last { AreGains instance.now
        (case_at branch.now.cases.now branch.now.last) shape last.now }
    requires free { IsFreeShape instance.now branch.now.path.now.covered
        (unit_from instance.now shape) shape }
    requires track { IsOnTrack instance.now.station park }
    ensures { IfOk result (λ b. IsTrue b
        ↔ IsMissed Stacks instance.now branch.now.path.now.blocks branch.now.cases.now
        branch.now.nodes.now branch.now.node branch.now.stated (offer_of shape park)) }
{
    if !is_option(instance, shape, park) {
        return Ok(false);
    }
    let early = lone_sum(
        instance,
        branch.path,
        branch.cases,
        0,
        branch.early.sum,
        first,
        shape,
        park,
    );
    let late = lone_sum(
        instance,
        branch.path,
        branch.cases,
        branch.last,
        branch.late.sum,
        last,
        shape,
        park,
    );
    is_omitted(alloc, instance, branch, early, late, shape, park)
}

/// The first option of a free shape that the branch would have to list and doesn't. Each track is priced once for each case.
fn missed_option(
    alloc: Global,
    instance: &Instance,
    branch: &Stacked,
    shape: Shape,
) -> Result<Option<Offer>, AllocError>
    requires branch { IsStackedLook instance.now branch.now }
    requires free { IsFreeShape instance.now branch.now.path.now.covered
        (unit_from instance.now shape) shape }
    ensures { IfOk result
        (Finds (IsOneOfShape (IsMissed Stacks instance.now branch.now.path.now.blocks
        branch.now.cases.now branch.now.nodes.now branch.now.node branch.now.stated) shape)
        (EarlierChoice instance.now)) }
{
    let long = length_of(instance, shape);
    let first = gains_in(instance, branch.cases, 0, shape, long);
    let last = gains_in(instance, branch.cases, branch.last, shape, long);
    for number in 0..most_options(instance) {
        let park = option_at(number);
        let missed = is_missed(alloc, instance, branch, &first, &last, shape, park)?;
        if missed {
            return Ok(Some(Offer { shape, park }));
        }
    }
    Ok(None)
}

impl Sought for Stacked<'_> {
    ghost fits = { λ s night covered. IsStackedLook night s × (covered ≡ s.path.now.covered) };

    ghost holds = { λ s night. IsMissed Stacks night s.path.now.blocks s.cases.now s.nodes.now
        s.node s.stated };

    fn first_option(
        &self,
        alloc: Global,
        instance: &Instance,
        _covered: &Covered,
        shape: Shape,
    ) -> Result<Option<Offer>, AllocError> {
        missed_option(alloc, instance, self, shape)
    }
}

/// The first choice at the branch's path, whose next unit this is, that the branch would have to list and doesn't.
fn first_missed(
    alloc: Global,
    instance: &Instance,
    branch: &Stacked,
    u: usize,
) -> Result<Option<Offer>, AllocError>
    requires branch { IsStackedLook instance.now branch.now }
    requires next { next_of branch.now.path.now.covered ≡ Some u }
    ensures { IfOk result (Finds (IsOneAt instance.now branch.now.path.now.covered
        (IsMissed Stacks instance.now branch.now.path.now.blocks branch.now.cases.now
        branch.now.nodes.now branch.now.node branch.now.stated) u) (EarlierChoice instance.now)) }
{
    found_at(alloc, instance, branch.path.covered(), branch, u)
}

/// The same from what the last case comes to at the path. What the first one does is found where there are two.
pub(crate) fn first_omitted(
    alloc: Global,
    instance: &Instance,
    path: &Path,
    cases: &Cases,
    nodes: &[Node],
    node: usize,
    stated: u64,
    u: usize,
) -> Result<Option<Offer>, AllocError>
    requires path { IsTrailOf instance.now path.now }
    requires through { RunsThrough instance.now (placed path.now.blocks) }
    requires each { All (IsBlockButId instance.now) path.now.blocks }
    requires cases { AreCases instance.now cases.now }
    requires nodes { AreNodes instance.now nodes.now }
    requires there { node < length nodes.now }
    requires stated { stated ≤ 1000000000000 }
    requires next { next_of path.now.covered ≡ Some u }
    ensures { IfOk result (Finds (IsOneAt instance.now path.now.covered
        (IsMissed Stacks instance.now path.now.blocks cases.now nodes.now node stated) u)
        (EarlierChoice instance.now)) }
{
    let unparked = unparked_on(instance, path);
    let last = cases.len() - 1;
    let late = tally_in(alloc, instance, path, cases, last)?;
    let branch = Stacked {
        path,
        unparked,
        cases,
        last,
        early: &late,
        late: &late,
        nodes,
        node,
        stated,
    };
    if last == 0 {
        return first_missed(alloc, instance, &branch, u);
    }
    let early = tally_in(alloc, instance, path, cases, 0)?;
    let both = Stacked {
        early: &early,
        ..branch
    };
    first_missed(alloc, instance, &both, u)
}
