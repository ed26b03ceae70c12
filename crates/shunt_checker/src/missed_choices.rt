// Which choice at a branch's path is the first that the branch would have to list and doesn't, by prices.
ghost use Rattle.std.specs.Prelude.{◌≡◌, ◌+◌, ◌-◌, ◌*◌, ◌<◌, ◌≤◌, ◌↔◌, IsTrue, IfOk, Some, length};
ghost use Rattle.shunt_blocks.specs.defs.Shapes.{unit_from, IsOnTrack};
ghost use Rattle.shunt_blocks.specs.defs.Lists.{RunsThrough, placed};
ghost use Rattle.shunt_choices.specs.defs.Paths.{IsTrailOf, next_of};
ghost use Rattle.shunt_choices.specs.defs.Choices.{IsFreeShape, longer_by};
ghost use Rattle.shunt_prices.specs.defs.Sums.{IsWithin};
ghost use Rattle.shunt_prices.specs.defs.Limits.{case_at};
ghost use Rattle.shunt_prices.specs.defs.Cases.{IsFreeBlock};
ghost use Rattle.shunt_prices.specs.defs.Bounds.{case_sum};
ghost use Rattle.shunt_proof.specs.declared.records.Version.TheVariants.{Prices};
ghost use Rattle.shunt_checker.specs.defs.Firsts.{Finds};
ghost use Rattle.shunt_checker.specs.defs.Searches.{IsOneOfShape, IsOneAt};
ghost use Rattle.shunt_checker.specs.defs.NodeFaults.{EarlierChoice};
ghost use Rattle.shunt_checker.specs.defs.Children.{said};
ghost use Rattle.shunt_checker.specs.defs.Lows.{AreGains, IsLowIn, IsLowBy, offer_of};
ghost use Rattle.shunt_checker.specs.defs.Misses.{IsMissed, IsLook, side_number, option_number};

use crate::bounds::from_of;
use crate::children::has_child;
use crate::first_choices::{Sought, found_at};
use crate::gains::{Gains, gains_in, is_below, is_open_to, longer_sum, unparked_with};
use crate::offer::Offer;
use crate::prices::{as_block, length_of};
use crate::runs::runs_placed;
use shunt_base::{Cases, Side, TrackId};
use shunt_blocks::laws::places;
use shunt_blocks::{Block, Park, Shape, is_option};
use shunt_choices::{Covered, Path};
use shunt_instance::Instance;
use shunt_proof::{Choice, Node};
use std::alloc::{AllocError, Global};

/// A branch that is looked at: its path with the number of unparked blocks there, its cases with the number of the last one and the
/// sums of the first and the last of them at the path, the nodes with its number among them, and the bound that the certificate states.
#[derive(Clone, Copy)]
pub(crate) struct Branch<'a> {
    pub(crate) path: &'a Path,
    pub(crate) unparked: usize,
    pub(crate) cases: &'a Cases,
    pub(crate) last: usize,
    pub(crate) first_sum: i64,
    pub(crate) last_sum: i64,
    pub(crate) nodes: &'a [Node],
    pub(crate) node: usize,
    pub(crate) stated: u64,
}

/// Whether the case with a number is open at the path with one more choice, and gives a bound below the one that is stated.
fn is_low_in(
    instance: &Instance,
    branch: &Branch,
    k: usize,
    sum: i64,
    gains: &Gains,
    shape: Shape,
    park: Option<Park>,
) -> bool
    requires branch { IsLook instance.now branch.now }
    requires there { k < length branch.now.cases.now }
    requires sum { sum ≡ case_sum instance.now branch.now.path.now.blocks branch.now.cases.now k }
    requires small { IsWithin 4010000000000000000 sum }
    requires gains { AreGains instance.now (case_at branch.now.cases.now k) shape gains.now }
    requires free { IsFreeBlock instance.now branch.now.path.now.covered shape park }
    requires track { IsOnTrack instance.now.station park }
    ensures { IsTrue result ↔ IsLowIn Prices instance.now branch.now.path.now.blocks
        branch.now.cases.now branch.now.stated k (offer_of shape park) }
{
    let unparked = unparked_with(branch.unparked, park);
    if !is_open_to(branch.cases, k, unparked) {
        return false;
    }
    let case = branch.cases.get(k);
    let from = from_of(branch.cases, k);
    let longer = longer_sum(instance, branch.path, case, from, sum, gains, shape, park);
    is_below(longer, branch.stated)
}

/// Whether the bound of the path with one more choice is below the one that is stated. With one case it is the first and the last.
fn is_low(
    instance: &Instance,
    branch: &Branch,
    first: &Gains,
    last: &Gains,
    shape: Shape,
    park: Option<Park>,
) -> bool
    requires branch { IsLook instance.now branch.now }
    requires first { AreGains instance.now (case_at branch.now.cases.now 0) shape first.now }
    requires last { AreGains instance.now
        (case_at branch.now.cases.now branch.now.last) shape last.now }
    requires free { IsFreeBlock instance.now branch.now.path.now.covered shape park }
    requires track { IsOnTrack instance.now.station park }
    ensures { IsTrue result ↔ IsLowBy Prices instance.now branch.now.path.now.blocks
        branch.now.cases.now branch.now.stated (offer_of shape park) }
{
    if is_low_in(instance, branch, 0, branch.first_sum, first, shape, park) {
        return true;
    }
    is_low_in(
        instance,
        branch,
        branch.last,
        branch.last_sum,
        last,
        shape,
        park,
    )
}

/// The blocks of a path with that of one more choice.
fn longer(
    alloc: Global,
    path: &Path,
    shape: Shape,
    park: Option<Park>,
) -> Result<Vec<Block>, AllocError>
    requires { length path.now.blocks ≤ 160 }
    ensures { IfOk result (λ v. v.items ≡ longer_by path.now.blocks (offer_of shape park)) }
{
    let blocks = path.blocks();
    let mut longer = Vec::with_capacity(alloc, blocks.len() + 1)?;
    longer.extend_from_slice(blocks)?;
    longer.push(Block {
        id: blocks.len() as u32 + 1,
        ..as_block(shape, park)
    })?;
    Ok(longer)
}

/// Whether the run of a path with one more choice goes through.
pub(crate) fn goes_through(
    alloc: Global,
    instance: &Instance,
    path: &Path,
    shape: Shape,
    park: Option<Park>,
) -> Result<bool, AllocError>
    requires path { IsTrailOf instance.now path.now }
    requires few { length path.now.blocks ≤ 160 }
    requires free { IsFreeBlock instance.now path.now.covered shape park }
    requires track { IsOnTrack instance.now.station park }
    ensures { IfOk result (λ b. IsTrue b
        ↔ RunsThrough instance.now (placed (longer_by path.now.blocks (offer_of shape park)))) }
{
    // A block more leaves a path a path.
    places();
    let blocks = longer(alloc, path, shape, park)?;
    runs_placed(alloc, instance, &blocks)
}

/// What a node says of a shape with an option.
pub(crate) fn said(shape: Shape, park: Option<Park>) -> Choice
    ensures { result ≡ said (offer_of shape park) }
{
    Choice {
        n: shape.n,
        dep: shape.dep,
        q: shape.q,
        park,
    }
}

/// Whether a branch would have to list a free shape with an option, and doesn't. The run, which takes memory, is tried last.
fn is_missed(
    alloc: Global,
    instance: &Instance,
    branch: &Branch,
    first: &Gains,
    last: &Gains,
    shape: Shape,
    park: Option<Park>,
) -> Result<bool, AllocError>
    requires branch { IsLook instance.now branch.now }
    requires first { AreGains instance.now (case_at branch.now.cases.now 0) shape first.now }
    requires last { AreGains instance.now
        (case_at branch.now.cases.now branch.now.last) shape last.now }
    requires free { IsFreeShape instance.now branch.now.path.now.covered
        (unit_from instance.now shape) shape }
    requires track { IsOnTrack instance.now.station park }
    ensures { IfOk result (λ b. IsTrue b
        ↔ IsMissed Prices instance.now branch.now.path.now.blocks branch.now.cases.now
        branch.now.nodes.now branch.now.node branch.now.stated (offer_of shape park)) }
{
    if !is_option(instance, shape, park) {
        return Ok(false);
    }
    if !is_low(instance, branch, first, last, shape, park) {
        return Ok(false);
    }
    if has_child(instance, branch.nodes, branch.node, said(shape, park)) {
        return Ok(false);
    }
    goes_through(alloc, instance, branch.path, shape, park)
}

/// Side A for 0.
fn side(number: usize) -> Side
    requires { number < 2 }
    ensures { side_number result ≡ number }
{
    if number == 0 { Side::A } else { Side::B }
}

/// The track with a pair of sides that has a number.
fn park_at(number: usize) -> Park
    requires { number < 240 }
    ensures { 4 * result.track.0 + 2 * side_number result.side_in + side_number result.side_out
        ≡ number }
{
    let pair = number / 2;
    Park {
        track: TrackId((pair / 2) as u8),
        side_in: side(pair % 2),
        side_out: side(number % 2),
    }
}

/// The option with a number: unparked, and then each track with its pairs of sides.
pub(crate) fn option_at(number: usize) -> Option<Park>
    requires { number ≤ 240 }
    ensures { option_number result ≡ number }
{
    if number == 0 {
        return None;
    }
    Some(park_at(number - 1))
}

/// How many options there may be.
pub(crate) fn most_options(instance: &Instance) -> usize
    ensures exact { result ≡ 4 * length instance.now.station.tracks + 1 }
    ensures small { result ≤ 241 }
{
    4 * instance.station().tracks.len() + 1
}

/// The first option of a free shape that the branch would have to list and doesn't. Each track is priced once for each case.
fn missed_option(
    alloc: Global,
    instance: &Instance,
    branch: &Branch,
    shape: Shape,
) -> Result<Option<Offer>, AllocError>
    requires branch { IsLook instance.now branch.now }
    requires free { IsFreeShape instance.now branch.now.path.now.covered
        (unit_from instance.now shape) shape }
    ensures { IfOk result
        (Finds (IsOneOfShape (IsMissed Prices instance.now branch.now.path.now.blocks
        branch.now.cases.now branch.now.nodes.now branch.now.node branch.now.stated) shape)
        (EarlierChoice instance.now)) }
{
    let long = length_of(instance, shape);
    let first = gains_in(instance, branch.cases, 0, shape, long);
    let last = gains_in(instance, branch.cases, branch.last, shape, long);
    for number in 0..most_options(instance) {
        let park = option_at(number);
        let missed = is_missed(alloc, instance, branch, &first, &last, shape, park)?;
        if missed {
            return Ok(Some(Offer { shape, park }));
        }
    }
    Ok(None)
}

impl Sought for Branch<'_> {
    ghost fits = { λ s night covered. IsLook night s × (covered ≡ s.path.now.covered) };

    ghost holds = { λ s night. IsMissed Prices night s.path.now.blocks s.cases.now s.nodes.now
        s.node s.stated };

    fn first_option(
        &self,
        alloc: Global,
        instance: &Instance,
        _covered: &Covered,
        shape: Shape,
    ) -> Result<Option<Offer>, AllocError> {
        missed_option(alloc, instance, self, shape)
    }
}

/// The first choice at the branch's path, whose next unit this is, that the branch would have to list and doesn't.
pub(crate) fn first_missed(
    alloc: Global,
    instance: &Instance,
    branch: &Branch,
    u: usize,
) -> Result<Option<Offer>, AllocError>
    requires branch { IsLook instance.now branch.now }
    requires next { next_of branch.now.path.now.covered ≡ Some u }
    ensures { IfOk result (Finds (IsOneAt instance.now branch.now.path.now.covered
        (IsMissed Prices instance.now branch.now.path.now.blocks branch.now.cases.now
        branch.now.nodes.now branch.now.node branch.now.stated) u) (EarlierChoice instance.now)) }
{
    found_at(alloc, instance, branch.path.covered(), branch, u)
}
