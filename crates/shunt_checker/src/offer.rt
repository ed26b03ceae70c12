// Shapes with their options.
ghost use Rattle.std.specs.Prelude.{◌≡◌};
ghost use Rattle.shunt_choices.specs.defs.Choices.{chosen};

use shunt_blocks::{Block, Park, Shape};
use std::marker::Model;

/// A shape with one of its options.
#[derive(Clone, Copy, Debug, PartialEq, Eq, Drop)]
pub(crate) struct Offer {
    pub(crate) shape: Shape,
    pub(crate) park: Option<Park>,
}

impl Model for Offer {
    ghost use Rattle.shunt_choices.specs.defs.Choices.{Choice};

    ghost Value = { Choice };

    ghost view = { λ o. record { shape = o.shape; option = o.park } };

    ghost inverse = { λ c. record { shape = c.shape; park = c.option } };
}

/// The shape of one.
pub(crate) fn shape_in(offer: Offer) -> Shape
    ensures { result ≡ offer.shape }
{
    offer.shape
}

/// The option of one.
pub(crate) fn park_in(offer: Offer) -> Option<Park>
    ensures { result ≡ offer.option }
{
    offer.park
}

/// The block of one, with an id.
pub(crate) fn block_in(id: u32, offer: Offer) -> Block
    ensures { result ≡ chosen id offer }
{
    Block {
        id,
        arr: offer.shape.arr,
        p: offer.shape.p,
        n: offer.shape.n,
        dep: offer.shape.dep,
        q: offer.shape.q,
        park: offer.park,
    }
}
