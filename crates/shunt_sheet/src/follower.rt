// Orders that are followed.
ghost use Rattle.std.specs.Prelude.{◌≡◌, ◌<◌, ◌≤◌, All, length, map, IfOk};
ghost use Rattle.shunt_stays.specs.defs.Run.{empty_tracks, blocks_on};
ghost use Rattle.shunt_sheet.specs.defs.SheetFormat.{AreOrders};
ghost use Rattle.shunt_tracks.specs.defs.Blocks.{Fit};
ghost use Rattle.shunt_sheet.specs.defs.Tracks.{blocks_of};
ghost use Rattle.shunt_sheet.specs.defs.FollowedOrders.{follow_from, followed};

use crate::records::{Followed, Order};
use crate::tracks::{Did, Parked, done};
use shunt_blocks::lengths_of;
use shunt_instance::Station;
use std::alloc::{AllocError, Global};

fn empty(alloc: Global, lengths: &[u32]) -> Result<Vec<Vec<Parked>>, AllocError>
    ensures { IfOk result (λ v. map (λ w. blocks_of w.items) v.items ≡ empty_tracks lengths.now) }
{
    let mut tracks = Vec::new(alloc);
    for _length in lengths {
        tracks.push(Vec::new(alloc))?;
    }
    Ok(tracks)
}

// How many blocks stand on these tracks.
fn left_on(tracks: &[Vec<Parked>]) -> u32
    requires { blocks_on (map (λ w. blocks_of w.items) tracks.now) ≤ 800 }
    ensures { result ≡ blocks_on (map (λ w. blocks_of w.items) tracks.now) }
{
    let mut left = 0;
    for track in tracks {
        left += track.len() as u32;
    }
    left
}

// Follows these orders from the blocks on these tracks on.
fn follow_on(
    lengths: &[u32],
    orders: &[Order],
    tracks: &mut Vec<Vec<Parked>>,
) -> Result<Followed, AllocError>
    requires few { length orders.now ≤ 800 }
    requires sizes { length tracks.old.items ≡ length lengths.now }
    requires on { All (λ o. o.track.0 < length lengths.now) orders.now }
    requires fit { Fit (λ v. blocks_of v.items) lengths.now tracks.old.items }
    requires none { blocks_on (map (λ v. blocks_of v.items) tracks.old.items) ≡ 0 }
    ensures { IfOk result (λ r. r
        ≡ follow_from lengths.now 1 orders.now (map (λ v. blocks_of v.items) tracks.old.items)) }
{
    let mut number = 1;
    for order in orders {
        let track = usize::from(order.track.0);
        match done(lengths[track], order, &mut tracks[track])? {
            Did::Moved => {}
            Did::Blocked => return Ok(Followed::Blocked { order: number }),
            Did::Over(load) => {
                return Ok(Followed::Over {
                    order: number,
                    load,
                });
            }
        }
        number += 1;
    }
    Ok(Followed::Through {
        left: left_on(tracks),
    })
}

/// Follows orders that a file can state over a station, in their order, from empty tracks on.
///
/// `Through` exactly when each can be done, with the number of blocks that are left on tracks; else `Blocked` or `Over` with
/// the first order that can't be done, counted from 1. A leave needs its block at its side; an entry puts its block at a side,
/// where the track is long enough for all that then stand there. Err is want of memory.
#[tactic(auto, unfolding(crate::specs::defs::FollowedOrders::followed))]
pub fn follow(alloc: Global, station: &Station, orders: &Vec<Order>) -> Result<Followed, AllocError>
    requires { AreOrders station.now orders.now.items }
    ensures { IfOk result (λ r. r ≡ followed station.now orders.now.items) }
{
    let lengths = lengths_of(alloc, station)?;
    let mut tracks = empty(alloc, &lengths)?;
    follow_on(&lengths, orders, &mut tracks)
}
