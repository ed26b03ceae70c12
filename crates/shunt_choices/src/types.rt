//! The iterator of the options of a shape.
ghost use Rattle.std.specs.Prelude.{◌≡◌, ◌≤◌, length};
ghost use Rattle.std.specs.Iterator.{at_most};
ghost use Rattle.std.specs.Map.Iter.{TakesFirst};
ghost use Rattle.shunt_blocks.specs.defs.Shapes.{AreRunsWithin};
ghost use Rattle.shunt_choices.specs.defs.Choices.{options_of};
ghost use Rattle.shunt_choices.specs.defs.Cursors.{candidate, side_numbered};

use shunt_base::{Side, TrackId};
use shunt_blocks::{Park, Shape, is_option};
use shunt_instance::Instance;
use std::iter::FusedIterator;
use std::marker::Model;

/// The options of a shape, in the order of choices: unparked, then by track, side in and side out, with A before B. Contracts
/// see the list of those that are left. It takes no memory.
#[derive(Drop)]
pub struct Options<'a> {
    instance: &'a Instance,
    shape: Shape,
    // The number of the next one to look at.
    at: usize,
}

impl<'a> Model for Options<'a> {
    ghost use Rattle.std.specs.Prelude.{◌≤◌, ◌+◌, ◌*◌, List, Option, length};
    ghost use Rattle.shunt_blocks.specs.declared.records.Park.{Park as OnePark};
    ghost use Rattle.shunt_blocks.specs.defs.Shapes.{AreRunsWithin};
    ghost use Rattle.shunt_choices.specs.defs.Cursors.{options_left};

    ghost Value = { List (Option OnePark) };

    ghost view = { λ a. options_left a.instance.now a.shape a.at };

    ghost invariant = { λ a. AreRunsWithin a.instance.now a.shape
        × (a.at ≤ 4 * length a.instance.now.station.tracks + 1) };
}

/// Side A for 0.
fn side(number: usize) -> Side
    ensures { result ≡ side_numbered number }
{
    if number == 0 { Side::A } else { Side::B }
}

/// What has a number: unparked 0, and from 1 on each track with its pairs of sides.
#[tactic(auto, unfolding(crate::specs::defs::Cursors::candidate))]
fn candidate(at: usize) -> Option<Park>
    requires { at ≤ 1000 }
    ensures { result ≡ candidate at }
{
    if at == 0 {
        return None;
    }
    let pair = at - 1;
    Some(Park {
        track: TrackId((pair / 4) as u8),
        side_in: side(pair / 2 % 2),
        side_out: side(pair % 2),
    })
}

impl<'a> Options<'a> {
    /// All options of a shape.
    #[tactic(auto, unfolding(crate::specs::defs::Choices::options_of, crate::specs::defs::Cursors::options_left))]
    pub(crate) fn new(instance: &'a Instance, shape: Shape) -> Options<'a>
        requires { AreRunsWithin instance.now shape }
        ensures { result ≡ options_of instance.now shape }
    {
        Options {
            instance,
            shape,
            at: 0,
        }
    }
}

impl<'a> Iterator for Options<'a> {
    type Item = Option<Park>;

    ghost next_gives = { TakesFirst (λ o. o) };

    ghost remaining = { λ s. at_most (length s) };

    fn next(&mut self) -> Option<Option<Park>> {
        let end = 4 * self.instance.station().tracks.len() + 1;
        'candidates: while self.at < end {
            let option = candidate(self.at);
            self.at += 1;
            if is_option(self.instance, self.shape, option) {
                return Some(option);
            }
        }
        None
    }
}

impl<'a> FusedIterator for Options<'a> {}
