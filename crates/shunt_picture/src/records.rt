// What a picture shows.
use shunt_base::{Minute, Name, Stay, TrackId, TypeId};
use shunt_blocks::Block;
use shunt_instance::Track;
use shunt_lists::Items;

/// A type of units in the legend. Its colour and its letter are those of its place there.
#[derive(Debug, Drop)]
pub struct LegendType {
    pub name: Name,
    /// The length of a unit in dm.
    pub length: u32,
    /// How it stands in the legend.
    pub words: Items<u8>,
}

/// A train above the lanes.
#[derive(Debug, Drop)]
pub struct TrainMark {
    pub name: Name,
    /// The platform to which it comes or from which it leaves, or the track on which it stands.
    pub place: Name,
    /// Whether it stands there already when the night begins.
    pub stands: bool,
    pub minute: Minute,
    /// The types of its units or positions, from its A end to its B end.
    pub kinds: Items<TypeId>,
    /// The places, from 1, of its units or positions that are in no block.
    pub bare: Items<u8>,
    /// The places of those that are in two or more blocks.
    pub twice: Items<u8>,
    /// What stands at its minute.
    pub words: Items<u8>,
    /// The places of what is bare or twice, which stand behind its words.
    pub marks: Items<u8>,
}

/// What is told of a block.
#[derive(Debug, Drop)]
pub struct Told {
    pub id: u32,
    /// Its arriving train.
    pub arr: Name,
    /// The place of its first unit there.
    pub p: u8,
    /// Its departing train.
    pub dep: Name,
    /// Its first position there.
    pub q: u8,
    /// The types of its units.
    pub kinds: Items<TypeId>,
    /// In dm.
    pub length: u32,
    /// In cost units.
    pub cost: u64,
    /// The numbers of the findings that name it, of the kinds 5 to 10.
    pub faults: Items<u8>,
}

/// A block on its track.
#[derive(Debug, Drop)]
pub struct Bar {
    pub block: Block,
    /// The bar goes from the minute of its entry to that of its leave.
    pub stay: Stay,
    /// Rows are counted down a lane, from the A end of its track to the B end.
    pub row: u16,
    pub told: Told,
}

/// How much stands on a track from a minute on.
#[derive(Clone, Copy, Debug, Drop)]
pub struct LoadLevel {
    pub minute: u16,
    /// In dm.
    pub load: u64,
}

/// A track with the blocks that stand on it during the night.
#[derive(Debug, Drop)]
pub struct Lane {
    pub track: TrackId,
    pub head: Track,
    /// Its uppermost row.
    pub first: u16,
    /// Its lowest row.
    pub last: u16,
    /// By the keys of their entries.
    pub bars: Items<Bar>,
    /// At each minute at which a block comes or goes.
    pub levels: Items<LoadLevel>,
    /// Where it begins, in pixels from the top.
    pub top: u32,
}

/// A block that has no stay: it isn't parked, or its departing train leaves too soon.
#[derive(Debug, Drop)]
pub struct Loose {
    pub told: Told,
    /// When its arriving train comes.
    pub enter: Minute,
    /// When its departing train leaves.
    pub leave: Minute,
    /// The track on which it is parked, where it is.
    pub track: Option<Name>,
    /// How it stands in the list.
    pub words: Items<u8>,
    /// The numbers of its findings, which stand before its words.
    pub marks: Items<u8>,
}

/// A night with a plan.
#[derive(Debug, Drop)]
pub struct Picture {
    pub station: Name,
    pub kinds: Items<LegendType>,
    /// The hour at which it begins.
    pub from: u16,
    /// The hour at which it ends.
    pub to: u16,
    /// How many findings the plan has.
    pub findings: u64,
    /// What its blocks cost.
    pub cost: u64,
    /// What the plan says that they cost.
    pub stated: u64,
    pub arrive: Items<TrainMark>,
    /// The row of each arriving train, of 12 pixels each.
    pub arrive_rows: Items<u16>,
    pub depart: Items<TrainMark>,
    /// The row of each departing train.
    pub depart_rows: Items<u16>,
    /// One for each track, in their order.
    pub lanes: Items<Lane>,
    pub loose: Items<Loose>,
    /// How much room an entry of the legend has, in pixels.
    pub kind_room: u32,
    /// How many of them stand in a line.
    pub kind_columns: u32,
    /// How much room an entry of the list of loose blocks has.
    pub loose_room: u32,
    /// How many of them stand in a line.
    pub loose_columns: u32,
    /// Where the line of arriving trains begins, in pixels from the top.
    pub arrive_top: u32,
    /// Where that of departing trains begins.
    pub depart_top: u32,
    /// Where the first lane begins.
    pub lanes_top: u32,
    /// Where the loose blocks begin.
    pub loose_top: u32,
    /// How wide it is, in pixels.
    pub width: u64,
    /// How high it is.
    pub height: u32,
}
