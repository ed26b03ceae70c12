// What a page shows.
use shunt_base::{Minute, Name};
use shunt_lists::Items;
use shunt_picture::Picture;
use shunt_sheet::Order;

/// A unit of an arriving train.
#[derive(Debug, Drop)]
pub struct UnitTold {
    pub train: Name,
    /// Its place in the train, from 1.
    pub place: u8,
    /// Its type.
    pub kind: Name,
}

/// A train.
#[derive(Debug, Drop)]
pub struct TrainTold {
    pub name: Name,
    /// Its platform, or the track on which it stands.
    pub place: Name,
    pub minute: Minute,
}

/// An order for whoever drives.
#[derive(Debug, Drop)]
pub struct OrderRow {
    pub order: Order,
    /// The units of its block.
    pub units: Items<UnitTold>,
    /// The train with which the block comes or goes.
    pub train: TrainTold,
    /// Whether it only says that its block stands there already: one of a standing train, or one that has come.
    pub already: bool,
    pub track: Name,
    /// The block in front of which this one stands when it has come, or which stands in its way when it goes.
    pub beside: Option<u32>,
    /// What stands on the track after it, in dm.
    pub load: u64,
    /// The length of the track in dm.
    pub length: u32,
}

/// A block that has no stay: it isn't parked, or its departing train leaves too soon.
#[derive(Debug, Drop)]
pub struct LooseRow {
    pub id: u32,
    pub units: Items<UnitTold>,
    pub arr: TrainTold,
    pub dep: TrainTold,
    /// The track on which it is parked, where it is.
    pub track: Option<Name>,
}

/// What fills a position.
#[derive(Debug, Drop)]
pub struct Filling {
    pub unit: UnitTold,
    /// The block of the unit.
    pub id: u32,
    /// The track on which that is parked, where it is.
    pub track: Option<Name>,
}

/// A position of a departing train, with what fills it: one unit where the plan has no finding of it.
#[derive(Debug, Drop)]
pub struct Seat {
    pub fillings: Items<Filling>,
}

/// A departing train with its positions in their order.
#[derive(Debug, Drop)]
pub struct DepartRow {
    pub train: TrainTold,
    pub seats: Items<Seat>,
}

/// What the blocks of a plan cost, in parts.
#[derive(Clone, Copy, Debug, PartialEq, Eq, Drop)]
pub struct Parts {
    pub splits: u64,
    pub couplings: u64,
    pub ways_in: u64,
    pub ways_out: u64,
    pub unparked: u64,
}

/// A finding in words.
#[derive(Debug, Drop)]
pub struct FindingLine {
    pub words: Items<u8>,
}

/// A plan for whoever drives or signs it.
#[derive(Debug, Drop)]
pub struct Page {
    pub station: Name,
    /// How many units the night has.
    pub units: u64,
    /// How many blocks the plan has.
    pub blocks: u64,
    pub parts: Parts,
    /// What the blocks cost.
    pub cost: u64,
    /// What the plan says that they cost.
    pub stated: u64,
    pub findings: Items<FindingLine>,
    pub picture: Picture,
    /// One for each entry and each leave, in key order.
    pub rows: Items<OrderRow>,
    pub loose: Items<LooseRow>,
    pub departs: Items<DepartRow>,
}
