// From records to orders.
ghost use Rattle.std.specs.Prelude.{◌≡◌, ◌≤◌, ◌<◌, ◌&&◌, ◌==◌, true, length, IfOk, IfSome};
ghost use Rattle.std.specs.Prelude.{position, bytes_eq};
ghost use Rattle.std.specs.List.{list_any};
ghost use Rattle.shunt_rows.specs.defs.Checks.{answer};
ghost use Rattle.shunt_rows.specs.defs.Formats.{reading};
ghost use Rattle.shunt_rows.specs.defs.Given.{Gives};
ghost use Rattle.shunt_instance.specs.defs.Wellformed.{IsStation};
ghost use Rattle.shunt_sheet.specs.defs.SheetFormat.{is_of, stands, entry_in, has_entered};
ghost use Rattle.shunt_sheet.specs.defs.SheetFormat.{keeps_length, keeps_track, last_minute};
ghost use Rattle.shunt_sheet.specs.defs.SheetFormat.{start_in, move_in, place_in};
ghost use Rattle.shunt_sheet.specs.defs.SheetFormat.{order_in, more_of, sheet_format, AreOrders};

use crate::records::Order;
use shunt_base::{Minute, Side, TrackId, parse_decimal};
use shunt_instance::{Station, Track};
use shunt_lists::Items;
use shunt_plan::read_first;
use shunt_rows::{
    FormatReader, ReadError, Row, RowFault, RowKind, enters_of, fields_in, found, is_within,
    minute_in, must, number_in, read, side_in,
};
use std::alloc::Global;
use std::marker::Model;

// What an entry states of its block.
#[derive(Clone, Copy, Debug, PartialEq, Eq, Drop)]
struct Entered {
    length: u32,
    track: TrackId,
}

// Which block enters, or leaves.
#[derive(Clone, Copy, Debug, PartialEq, Eq, Drop)]
struct StatedMove {
    enters: bool,
    id: u32,
}

// How long it is, and by which side of which track it does.
#[derive(Clone, Copy, Debug, PartialEq, Eq, Drop)]
struct StatedPlace {
    length: u32,
    track: TrackId,
    side: Side,
}

// Whether an order is the entry, or the leave, of the block with this id.
fn is_of(order: &Order, enters: bool, id: u64) -> bool
    ensures { result ≡ is_of enters id order.now }
{
    let alike = if order.enters { enters } else { !enters };
    alike && order.id as u64 == id
}

#[tactic(auto, unfolding(crate::specs::defs::SheetFormat::stands))]
fn stands(orders: &[Order], enters: bool, id: u64) -> bool
    ensures { result ≡ stands orders.now enters id }
{
    orders.iter().any(|order| is_of(order, enters, id))
}

// What the entry of the block with this id states.
fn entry_in(orders: &[Order], id: u64) -> Option<Entered>
    ensures { result ≡ entry_in id orders.now }
{
    for order in orders {
        if is_of(order, true, id) {
            return Some(Entered {
                length: order.length,
                track: order.track,
            });
        }
    }
    None
}

#[tactic(auto, unfolding(crate::specs::defs::SheetFormat::has_entered))]
fn has_entered(orders: &[Order], enters: bool, id: u64) -> bool
    ensures { result ≡ has_entered orders.now enters id }
{
    if enters {
        return true;
    }
    entry_in(orders, id).is_some()
}

#[tactic(auto, unfolding(crate::specs::defs::SheetFormat::keeps_length))]
fn keeps_length(orders: &[Order], named: StatedMove, length: u64) -> bool
    ensures { result ≡ keeps_length orders.now named length }
{
    if named.enters {
        return true;
    }
    match entry_in(orders, named.id as u64) {
        Some(entry) => entry.length as u64 == length,
        None => false,
    }
}

#[tactic(auto, unfolding(crate::specs::defs::SheetFormat::keeps_track))]
fn keeps_track(orders: &[Order], named: StatedMove, track: usize) -> bool
    ensures { result ≡ keeps_track orders.now named track }
{
    if named.enters {
        return true;
    }
    match entry_in(orders, named.id as u64) {
        Some(entry) => entry.track.0 as usize == track,
        None => false,
    }
}

// The minute of the last of these orders, or 0.
#[tactic(auto, unfolding(crate::specs::defs::SheetFormat::last_minute))]
fn last_minute(orders: &[Order]) -> u16
    ensures { result ≡ last_minute orders.now }
{
    let count = orders.len();
    if count == 0 {
        return 0;
    }
    orders[count - 1].minute.number()
}

// The place of the track with a name.
fn place_of_track(tracks: &[Track], name: &[u8]) -> Option<usize>
    ensures value { result ≡ position (λ t. bytes_eq t.name name.now) tracks.now }
    ensures within { IfSome result (λ k. k < length tracks.now) }
{
    tracks.iter().position(|track| track.name.bytes() == name)
}

// The minute of one more order.
#[tactic(auto, unfolding(crate::specs::defs::SheetFormat::start_in))]
fn read_start(orders: &[Order], row: &Row, n: u32) -> Result<Minute, RowFault>
    ensures answer { result ≡ answer n (start_in orders.now row.now) }
    ensures fields { IfOk result (λ _. 7 ≤ length row.now) }
{
    fields_in(row, n, 7, 7)?;
    must(orders.len() < 800, n, 1, RowKind::Limit)?;
    let minute = minute_in(row, n, 2)?;
    let later = last_minute(orders) <= minute.number();
    must(later, n, 2, RowKind::Limit)?;
    Ok(minute)
}

// Which block enters or leaves by one more order.
#[tactic(auto, unfolding(crate::specs::defs::SheetFormat::move_in))]
fn read_move(orders: &[Order], row: &Row, n: u32) -> Result<StatedMove, RowFault>
    requires { 7 ≤ length row.now }
    ensures { result ≡ answer n (move_in orders.now row.now) }
{
    let enters = found(enters_of(row.field(3)), n, 3, RowKind::Kind)?;
    let id = found(parse_decimal(row.field(4)), n, 4, RowKind::Number)?;
    let known = has_entered(orders, enters, id);
    must(known, n, 4, RowKind::Unknown)?;
    let repeats = stands(orders, enters, id);
    must(!repeats, n, 4, RowKind::Repeat)?;
    must(is_within(1, 1_000_000, id), n, 4, RowKind::Limit)?;
    Ok(StatedMove {
        enters,
        id: id as u32,
    })
}

// How long its block is, and where it enters or leaves.
#[tactic(auto, unfolding(crate::specs::defs::SheetFormat::place_in))]
fn read_place(
    station: &Station,
    orders: &[Order],
    named: StatedMove,
    row: &Row,
    n: u32,
) -> Result<StatedPlace, RowFault>
    requires station { IsStation station.now }
    requires fields { 7 ≤ length row.now }
    ensures { result ≡ answer n (place_in station.now orders.now named row.now) }
{
    let length = number_in(row, n, 5, 1, 40_000)?;
    let same_length = keeps_length(orders, named, length);
    must(same_length, n, 5, RowKind::Limit)?;
    let place = place_of_track(station.tracks.as_slice(), row.field(6));
    let track = found(place, n, 6, RowKind::Unknown)?;
    let same_track = keeps_track(orders, named, track);
    must(same_track, n, 6, RowKind::Unknown)?;
    let side = side_in(row, n, 7)?;
    Ok(StatedPlace {
        length: length as u32,
        track: TrackId(track as u8),
        side,
    })
}

// The order of a record behind these orders.
fn read_order(station: &Station, orders: &[Order], row: &Row, n: u32) -> Result<Order, RowFault>
    requires { IsStation station.now }
    ensures { result ≡ answer n (order_in station.now orders.now row.now) }
{
    let minute = read_start(orders, row, n)?;
    let named = read_move(orders, row, n)?;
    let place = read_place(station, orders, named, row, n)?;
    Ok(Order {
        minute,
        enters: named.enters,
        id: named.id,
        length: place.length,
        track: place.track,
        side: place.side,
    })
}

// Adds the order of a record to these orders.
fn read_more(station: &Station, orders: &mut Vec<Order>, row: &Row, n: u32) -> Result<(), ReadError>
    requires { IsStation station.now }
    ensures { Gives (λ _. orders.new.items) result
        (answer n (more_of station.now orders.old.items row.now)) }
{
    let order = read_order(station, orders, row, n)?;
    orders.push(order)?;
    Ok(())
}

// The orders that the records so far state.
#[derive(Debug, Drop)]
struct Orders {
    orders: Vec<Order>,
}

impl Model for Orders {
    ghost use Rattle.std.specs.Prelude.{List};
    ghost use Rattle.shunt_sheet.specs.declared.records.Order.{Order};

    ghost Value = { List Order };

    ghost view = { λ s. s.orders.items };
}

impl<'r> FormatReader<'r> for Orders {
    type Context = Station;

    type Output = Items<Order>;

    ghost format = { sheet_format };

    ghost suits = { IsStation };

    #[tactic(auto, unfolding(crate::specs::defs::SheetFormat::sheet_first))]
    fn read_first(_: &'r Station, alloc: Global, row: &'r Row) -> Result<Orders, ReadError> {
        read_first(row, b"sheet")?;
        Ok(Orders {
            orders: Vec::new(alloc),
        })
    }

    #[tactic(auto, unfolding(crate::specs::defs::SheetFormat::sheet_later))]
    fn read_later(
        &mut self,
        station: &'r Station,
        _: Global,
        n: u32,
        row: &'r Row,
    ) -> Result<(), ReadError> {
        must(row.word() == b"order".as_slice(), n, 1, RowKind::Kind)?;
        read_more(station, &mut self.orders, row, n)
    }

    fn is_whole(&self, _: &'r Station) -> bool {
        true
    }

    fn into_output(self, _: &'r Station) -> Items<Order> {
        Items::from_vec(self.orders)
    }
}

/// The orders that the records state over this station, in their order, or exactly their first fault.
///
/// The station needs to be well formed. `Fault` is the least fault by record, then field, then kind; `Memory` is want of
/// memory.
pub fn read_sheet(
    alloc: Global,
    station: &Station,
    rows: &Vec<Row>,
) -> Result<Vec<Order>, ReadError>
    requires { IsStation station.now }
    ensures stated { Gives (λ v. v.items) result
        (reading (sheet_format station.now) rows.now.items) }
    ensures formed { IfOk result (λ v. AreOrders station.now v.items) }
{
    Ok(read::<Orders>(station, alloc, rows)?.into_vec())
}
