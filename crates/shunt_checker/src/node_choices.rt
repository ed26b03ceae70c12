// Whether a node's choice is one at its parent's path.
ghost use Rattle.std.specs.Prelude.{◌≡◌, ◌+◌, ◌<◌, ◌≤◌, ◌↔◌, IsTrue, Some, length};
ghost use Rattle.shunt_instance.specs.defs.Instance.{unit_total, unit_at};
ghost use Rattle.shunt_blocks.specs.defs.Shapes.{unit_from, IsOnTrack};
ghost use Rattle.shunt_choices.specs.defs.Free.{AreMasksOf};
ghost use Rattle.shunt_choices.specs.defs.Choices.{IsChoice, IsChoiceAt, longer_by, chosen};
ghost use Rattle.shunt_choices.specs.defs.Paths.{IsTrailOf, next_of};
ghost use Rattle.shunt_proof.specs.defs.Nodes.{FitsChoice};
ghost use Rattle.shunt_proof.specs.defs.Trees.{choice_at, choice_from};
ghost use Rattle.shunt_checker.specs.defs.Children.{said};

use crate::free_shapes::is_free;
use crate::offer::{Offer, block_in};
use shunt_blocks::laws::few_blocks;
use shunt_blocks::{Block, Shape, are_runs_within, is_option};
use shunt_choices::{Covered, Path};
use shunt_instance::Instance;
use shunt_proof::Choice;

/// What a choice is where it begins at a unit.
fn offer_at(instance: &Instance, u: usize, choice: Choice) -> Offer
    requires { u < unit_total instance.now }
    ensures exact { result ≡ choice_at (unit_at instance.now u) choice }
    ensures first { unit_from instance.now result.shape ≡ u }
{
    let unit = instance.unit(u);
    Offer {
        shape: Shape {
            arr: unit.train,
            p: unit.place,
            n: choice.n,
            dep: choice.dep,
            q: choice.q,
        },
        park: choice.park,
    }
}

/// Whether a shape with an option is a choice for the unit at which it begins.
fn is_choice(instance: &Instance, covered: &Covered, u: usize, offer: Offer) -> bool
    requires covered { AreMasksOf instance.now covered.now }
    requires first { unit_from instance.now offer.shape ≡ u }
    requires track { IsOnTrack instance.now.station offer.option }
    ensures { IsTrue result ↔ IsChoice instance.now covered.now u offer }
{
    if !are_runs_within(instance, offer.shape) {
        return false;
    }
    if !is_free(instance, covered, offer.shape) {
        return false;
    }
    is_option(instance, offer.shape, offer.park)
}

/// What a node says of a shape with an option.
pub(crate) fn stated_in(offer: Offer) -> Choice
    ensures { result ≡ said offer }
{
    Choice {
        n: offer.shape.n,
        dep: offer.shape.dep,
        q: offer.shape.q,
        park: offer.park,
    }
}

/// The block of a choice at a path, with its place there as its id.
pub(crate) fn next_block(path: &Path, offer: Offer) -> Block
    requires { length path.now.blocks ≤ 160 }
    ensures { result ≡ chosen (length path.now.blocks + 1) offer }
{
    block_in(path.blocks().len() as u32 + 1, offer)
}

/// Adds the block of a choice for the next unit of a path.
pub(crate) fn push_offer(instance: &Instance, path: &mut Path, u: usize, offer: Offer)
    requires path { IsTrailOf instance.now path.old }
    requires next { next_of path.old.covered ≡ Some u }
    requires there { IsChoice instance.now path.old.covered u offer }
    ensures blocks { path.new.blocks ≡ longer_by path.old.blocks offer }
    ensures of { IsTrailOf instance.now path.new }
    ensures pins { path.new.pins ≡ path.old.pins }
{
    // There are at most 160 units, and blocks that share nothing are no more.
    instance.units();
    few_blocks();
    let id = path.blocks().len() as u32 + 1;
    let block = block_in(id, offer);
    path.push(instance, block);
}

/// Adds the block of a choice that a node states, which is one at the path.
pub(crate) fn push_choice(instance: &Instance, path: &mut Path, choice: Choice)
    requires path { IsTrailOf instance.now path.old }
    requires there { IsChoiceAt instance.now path.old.blocks
        (choice_from instance.now path.old.blocks choice) }
    ensures blocks { path.new.blocks
        ≡ longer_by path.old.blocks (choice_from instance.now path.old.blocks choice) }
    ensures of { IsTrailOf instance.now path.new }
    ensures pins { path.new.pins ≡ path.old.pins }
{
    let Some(u) = path.next_unit() else {
        unreachable!();
    };
    let offer = offer_at(instance, u, choice);
    push_offer(instance, path, u, offer);
}

/// Whether what a node states is a choice at a path.
pub(crate) fn is_there(instance: &Instance, path: &Path, choice: Choice) -> bool
    requires path { IsTrailOf instance.now path.now }
    requires fits { FitsChoice instance.now choice }
    ensures { IsTrue result ↔ IsChoiceAt instance.now path.now.blocks
        (choice_from instance.now path.now.blocks choice) }
{
    let Some(u) = path.next_unit() else {
        return false;
    };
    let offer = offer_at(instance, u, choice);
    is_choice(instance, path.covered(), u, offer)
}
