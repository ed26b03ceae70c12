// A night as plans are proposed for it: all its shapes, and the ways to park them.
ghost use Rattle.std.specs.Prelude.{◌≡◌, ◌<◌, ◌≤◌, ◌+◌, IsTrue};
ghost use Rattle.shunt_instance.specs.defs.Instance.{unit_total, position_total};
ghost use Rattle.shunt_blocks.specs.defs.Shapes.{AreRunsWithin};

use indexmap::IndexSet;
use shunt_base::{Case, Duals, Price, PriceKind};
use shunt_blocks::{
    Block, Park, Shape, are_runs_within, block_cost, block_length, has_placed, in_range, is_pair,
    track_lengths,
};
use shunt_choices::options;
use shunt_instance::{Instance, Origin};
use std::alloc::{AllocError, Global};

/// A shape by the numbers of its first unit and position, and what its stay needs.
#[derive(Clone, Copy, Debug, Drop)]
pub(crate) struct ShapeRow {
    pub(crate) shape: Shape,
    pub(crate) unit: u16,
    pub(crate) position: u16,
    pub(crate) arrives: u16,
    pub(crate) departs: u16,
    /// Leaves go by departing trains, and in each by descending places.
    pub(crate) leaves: u16,
    /// Its length in dm.
    pub(crate) long: u32,
    /// Which of the groups of shapes that can be parked alike it is in.
    pub(crate) group: usize,
    /// What its ends cost, in thousandths of a cost unit.
    pub(crate) ends: i64,
    /// The same less the duals of its units and positions.
    pub(crate) reduced: i64,
}

/// A way to park the shapes of a group.
#[derive(Clone, Copy, Debug, Drop)]
pub(crate) struct Spot {
    pub(crate) park: Park,
    /// What its ways cost, in thousandths of a cost unit.
    pub(crate) cost: i64,
    /// The same with what the prices take of a shape there.
    pub(crate) weight: i64,
}

/// What shapes have in common that can be parked alike and of which prices take the same.
#[derive(Clone, Copy, PartialEq, Eq, Hash, Drop)]
struct Likeness {
    comes: u16,
    goes: u16,
    long: u32,
    /// Which types its units have, where tracks permit some alone.
    kinds: u64,
    /// Which units it has, where one of them has come already.
    come: usize,
    /// How many of the prices are of moments before it arrives, and before it departs.
    early: usize,
    late: usize,
}

/// Shapes that can be parked alike: the places of their ways among all, and what the cheapest of their options costs but for their ends, in
/// thousandths of a cost unit.
#[derive(Clone, Copy, Debug, Drop)]
struct Group {
    from: usize,
    to: usize,
    least: i64,
}

/// The first unit of a unit's train, and the one behind its last.
#[derive(Clone, Copy, Debug, Drop)]
struct TrainUnits {
    from: u16,
    to: u16,
}

/// All shapes of a night, by units, positions and lengths, with what a case makes of them.
#[derive(Drop)]
pub(crate) struct Tables {
    rows: Vec<ShapeRow>,
    /// For each unit and position, where their shapes begin among the rows, and where the last end.
    starts: Vec<usize>,
    groups: Vec<Group>,
    /// What the shapes of each group have in common.
    likenesses: IndexSet<Likeness>,
    /// The ways of each group, the lightest first.
    spots: Vec<Spot>,
    /// For each unit its train.
    trains: Vec<TrainUnits>,
    /// For each unit the least part of a block's cost that falls on it, in thousandths of a cost unit.
    shares: Vec<i64>,
    /// The lengths of the tracks in dm.
    pub(crate) rooms: Vec<u32>,
    pub(crate) units: usize,
    pub(crate) positions: usize,
    /// What an unparked block costs, and what it weighs, in thousandths of a cost unit.
    pub(crate) unparked: i64,
    pub(crate) unparked_weight: i64,
}

/// Those from one place to before another, or none.
fn part_of<T>(all: &[T], from: usize, to: usize) -> &[T] {
    if from <= to && to <= all.len() {
        return &all[from..to];
    }
    &[]
}

/// A shape with an option as a block.
pub(crate) fn block_with(shape: Shape, park: Option<Park>, id: u32) -> Block
    ensures { result ≡ record {
      id = id;
      arr = shape.arr;
      p = shape.p;
      n = shape.n;
      dep = shape.dep;
      q = shape.q;
      park = park;
    } }
{
    Block {
        id,
        arr: shape.arr,
        p: shape.p,
        n: shape.n,
        dep: shape.dep,
        q: shape.q,
        park,
    }
}

/// What a shape costs with an option, in thousandths of a cost unit.
fn cost_with(instance: &Instance, shape: Shape, park: Option<Park>) -> i64
    requires { AreRunsWithin instance.now shape }
{
    let block = block_with(shape, park, 1);
    if !in_range(instance, &block) {
        return 0;
    }
    1000 * block_cost(instance, &block) as i64
}

/// What a kind of price counts of a length on a track of this length.
fn count_of(kind: PriceKind, room: u32, long: u32) -> u64 {
    if room == 0 {
        return 0;
    }
    match kind {
        PriceKind::Length => u64::from(long),
        PriceKind::Parts(parts) => {
            ((u64::from(parts) + 1) * u64::from(long)).saturating_sub(1) / u64::from(room)
        }
    }
}

impl ShapeRow {
    /// Whether it stands at a price's moment.
    fn is_there(&self, instance: &Instance, price: &Price) -> bool {
        if usize::from(price.train.0) >= instance.arrivals() {
            return false;
        }
        self.shape.arr.0 <= price.train.0
            && instance.arrive(price.train).minute.number() < self.departs
    }
}

/// The length of an option's track in dm.
fn room_of(instance: &Instance, park: Park) -> u32 {
    let tracks = instance.station().tracks.as_slice();
    match tracks.get(usize::from(park.track.0)) {
        Some(track) => track.length,
        None => 0,
    }
}

/// What the prices take of a shape on a track.
fn part(instance: &Instance, prices: &[Price], row: &ShapeRow, park: Park) -> i64 {
    let room = room_of(instance, park);
    let mut part: i64 = 0;
    for price in prices {
        if price.track.0 == park.track.0 && row.is_there(instance, price) {
            let taken = price
                .value
                .wrapping_mul(count_of(price.kind, room, row.long));
            part = part.wrapping_add(i64::try_from(taken).unwrap_or(0));
        }
    }
    part
}

/// Puts a way in its place among those from one place on, the lightest first.
fn sort_in(spots: &mut [Spot], from: usize) {
    let mut place = spots.len();
    'lighter: while place > 1 {
        place -= 1;
        if place <= from || spots[place - 1].weight <= spots[place].weight {
            return;
        }
        spots.swap(place - 1, place);
    }
}

/// An option, where its track is long enough.
fn long_enough(instance: &Instance, row: &ShapeRow, option: Option<Park>) -> Option<Park> {
    let park = option?;
    if row.long > room_of(instance, park) {
        return None;
    }
    Some(park)
}

/// Adds the ways to park the shapes of a group, the lightest first.
fn add_spots(
    instance: &Instance,
    prices: &[Price],
    row: &ShapeRow,
    spots: &mut Vec<Spot>,
) -> Result<(), AllocError>
    requires { AreRunsWithin instance.now row.now.shape }
{
    let from = spots.len();
    let mut options = options(instance, row.shape);
    'options: while let Some(option) = options.next() {
        if let Some(park) = long_enough(instance, row, option) {
            let cost = cost_with(instance, row.shape, option).wrapping_sub(row.ends);
            let part = part(instance, prices, row, park);
            spots.push(Spot {
                park,
                cost,
                weight: cost.wrapping_add(part),
            })?;
            sort_in(spots, from);
        }
    }
    Ok(())
}

/// The values from a place on, added up.
fn run_sum(values: &[i64], from: usize, many: u8) -> i64 {
    let mut sum: i64 = 0;
    for k in 0..usize::from(many) {
        let value = values.get(from.wrapping_add(k)).copied().unwrap_or(0);
        sum = sum.wrapping_add(value);
    }
    sum
}

/// Whether that many units from one on go with positions from one on: a unit and a position more are of the same trains, and of one type and in time.
fn goes_on(instance: &Instance, unit: usize, position: usize, many: u8) -> bool
    requires unit { unit < unit_total instance.now }
    requires position { position < position_total instance.now }
{
    // The calls tell that there are at most 160 of each.
    let units = instance.units();
    let positions = instance.positions();
    let next = unit + usize::from(many);
    let place = position + usize::from(many);
    if next >= units || place >= positions {
        return false;
    }
    if instance.unit(next).train.0 != instance.unit(unit).train.0 {
        return false;
    }
    if instance.position(place).train.0 != instance.position(position).train.0 {
        return false;
    }
    is_pair(instance, next, place)
}

/// The shape by its first unit, its first position and its length.
fn shape_at(instance: &Instance, unit: usize, position: usize, many: u8) -> Shape
    requires unit { unit < unit_total instance.now }
    requires position { position < position_total instance.now }
{
    let first = instance.unit(unit);
    let goal = instance.position(position);
    Shape {
        arr: first.train,
        p: first.place,
        n: many,
        dep: goal.train,
        q: goal.place,
    }
}

/// Which types the units of a shape have, as bits.
fn kinds_of(instance: &Instance, unit: usize, many: u8) -> u64 {
    let mut kinds: u64 = 0;
    for k in 0..usize::from(many) {
        let at = unit.wrapping_add(k);
        if at < instance.units() {
            kinds = kinds | (1u64 << (u32::from(instance.unit(at).kind.0) % 64));
        }
    }
    kinds
}

/// How many prices are of moments before a train arrives.
fn early(prices: &[Price], shape: Shape) -> usize {
    prices
        .iter()
        .filter(|price| price.train.0 < shape.arr.0)
        .count()
}

/// How many prices are of moments before a minute.
fn late(instance: &Instance, prices: &[Price], departs: u16) -> usize {
    let mut many: usize = 0;
    for price in prices {
        if usize::from(price.train.0) < instance.arrivals()
            && instance.arrive(price.train).minute.number() < departs
        {
            many = many.saturating_add(1);
        }
    }
    many
}

/// Another number for each place that a train comes from or goes to.
fn number_of(origin: Origin) -> u16 {
    match origin {
        Origin::Platform(platform) => u16::from(platform.0),
        Origin::Track(track) => 256 + u16::from(track.0),
    }
}

/// A number for the units of a shape where one of them has come already, and 0 for all others.
fn come_of(instance: &Instance, row: &ShapeRow) -> usize
    requires { AreRunsWithin instance.now row.now.shape }
{
    if !has_placed(instance, &block_with(row.shape, None, 1)) {
        return 0;
    }
    16 * usize::from(row.unit) + usize::from(row.shape.n)
}

/// What a shape has in common with others.
fn likeness_of(instance: &Instance, prices: &[Price], row: &ShapeRow) -> Likeness
    requires { AreRunsWithin instance.now row.now.shape }
{
    let kinds = if instance.station().permits.is_empty() {
        0
    } else {
        kinds_of(instance, usize::from(row.unit), row.shape.n)
    };
    Likeness {
        comes: number_of(instance.arrive(row.shape.arr).origin),
        goes: number_of(instance.depart(row.shape.dep).origin),
        long: row.long,
        kinds,
        come: come_of(instance, row),
        early: early(prices, row.shape),
        late: late(instance, prices, row.departs),
    }
}

/// The least cost of these ways, and of no way.
fn least_of(spots: &[Spot], unparked: i64) -> i64 {
    let mut least = unparked;
    for spot in spots {
        least = least.min(spot.cost);
    }
    least
}

/// Lowers that many numbers from one on to another, where they are greater.
fn lower(numbers: &mut [i64], from: usize, many: u8, most: i64) {
    for k in 0..usize::from(many) {
        if let Some(number) = numbers.get_mut(from.wrapping_add(k)) {
            *number = most.min(*number);
        }
    }
}

/// The leave of a shape among all leaves.
fn leaves_at(shape: Shape) -> u16 {
    16 * u16::from(shape.dep.0) + u16::from(9u8.saturating_sub(shape.q))
}

/// A shape, in no group yet.
fn row_at(
    instance: &Instance,
    duals: &Duals,
    unit: usize,
    position: usize,
    shape: Shape,
) -> ShapeRow
    requires within { AreRunsWithin instance.now shape }
    requires unit { unit < unit_total instance.now }
    requires position { position < position_total instance.now }
    ensures { result.shape ≡ shape }
{
    // The calls tell that there are at most 160 of each.
    instance.units();
    instance.positions();
    let unparked = 1000 * i64::from(instance.station().unparked);
    let ends = cost_with(instance, shape, None).wrapping_sub(unparked);
    let alphas = run_sum(duals.alpha.as_slice(), unit, shape.n);
    let betas = run_sum(duals.beta.as_slice(), position, shape.n);
    ShapeRow {
        shape,
        unit: unit as u16,
        position: position as u16,
        arrives: instance.arrive(shape.arr).minute.number(),
        departs: instance.depart(shape.dep).minute.number(),
        leaves: leaves_at(shape),
        long: block_length(instance, &block_with(shape, None, 1)),
        group: 0,
        ends,
        reduced: ends.wrapping_sub(alphas.wrapping_add(betas)),
    }
}

/// The train of a unit.
fn train_of(instance: &Instance, unit: usize) -> TrainUnits
    requires { unit < unit_total instance.now }
{
    // The call tells that there are at most 160 units.
    instance.units();
    let arr = instance.unit(unit).train;
    let from = instance.first_unit(arr);
    let many = instance.arrive(arr).units.len();
    TrainUnits {
        from: from as u16,
        to: (from + many) as u16,
    }
}

/// The trains of all units. Err is want of memory.
fn trains(alloc: Global, instance: &Instance) -> Result<Vec<TrainUnits>, AllocError> {
    let mut trains = Vec::with_capacity(alloc, instance.units())?;
    for unit in 0..instance.units() {
        trains.push(train_of(instance, unit))?;
    }
    Ok(trains)
}

impl Tables {
    /// Adds a shape, and its group where that is a new one.
    fn add_row(
        &mut self,
        instance: &Instance,
        prices: &[Price],
        row: ShapeRow,
    ) -> Result<(), AllocError>
        requires { AreRunsWithin instance.now row.shape }
    {
        let likeness = likeness_of(instance, prices, &row);
        let (group, is_new) = self.likenesses.insert_full(likeness)?;
        if is_new {
            self.add_group(instance, prices, &row)?;
        }
        self.rows.push(ShapeRow { group, ..row })?;
        Ok(())
    }

    /// Adds the group of a shape, with its ways.
    fn add_group(
        &mut self,
        instance: &Instance,
        prices: &[Price],
        row: &ShapeRow,
    ) -> Result<(), AllocError>
        requires { AreRunsWithin instance.now row.now.shape }
    {
        let from = self.spots.len();
        add_spots(instance, prices, row, &mut self.spots)?;
        let to = self.spots.len();
        let least = least_of(part_of(&self.spots, from, to), self.unparked);
        self.groups.push(Group { from, to, least })?;
        Ok(())
    }

    /// The least that a shape costs for each of its units.
    fn share_of(&self, row: &ShapeRow) -> i64 {
        let least = match self.groups.get(row.group) {
            Some(group) => group.least,
            None => 0,
        };
        let cost = row.ends.wrapping_add(least);
        cost.checked_div(i64::from(row.shape.n)).unwrap_or(0)
    }

    /// Finds for each unit the least part of a block's cost that falls on it. Err is want of memory.
    fn find_shares(&mut self, alloc: Global) -> Result<(), AllocError> {
        let mut shares = vec![in alloc; i64::MAX; self.units]?;
        for row in &self.rows {
            let share = self.share_of(row);
            lower(&mut shares, usize::from(row.unit), row.shape.n, share);
        }
        self.shares = shares;
        Ok(())
    }

    /// Adds the shapes that begin at a unit and a position, the shortest first.
    fn add_rows(
        &mut self,
        instance: &Instance,
        duals: &Duals,
        unit: usize,
        position: usize,
    ) -> Result<(), AllocError>
        requires unit { unit < unit_total instance.now }
        requires position { position < position_total instance.now }
    {
        for many in 0u8..8 {
            if !goes_on(instance, unit, position, many) {
                return Ok(());
            }
            let shape = shape_at(instance, unit, position, many + 1);
            if are_runs_within(instance, shape) {
                let row = row_at(instance, duals, unit, position, shape);
                self.add_row(instance, duals.prices.as_slice(), row)?;
            }
        }
        Ok(())
    }

    /// Adds the shapes that begin at a unit.
    fn add_rows_from(
        &mut self,
        instance: &Instance,
        duals: &Duals,
        unit: usize,
    ) -> Result<(), AllocError>
        requires { unit < unit_total instance.now }
    {
        for position in 0..instance.positions() {
            self.starts.push(self.rows.len())?;
            self.add_rows(instance, duals, unit, position)?;
        }
        Ok(())
    }

    /// The tables of a night with a case. Err is want of memory.
    pub(crate) fn new(
        alloc: Global,
        instance: &Instance,
        case: &Case,
    ) -> Result<Tables, AllocError> {
        let unparked = 1000 * i64::from(instance.station().unparked);
        let mut tables = Tables {
            rows: Vec::new(alloc),
            starts: Vec::new(alloc),
            groups: Vec::new(alloc),
            likenesses: IndexSet::new(alloc),
            spots: Vec::new(alloc),
            trains: trains(alloc, instance)?,
            shares: Vec::new(alloc),
            rooms: track_lengths(alloc, instance)?,
            units: instance.units(),
            positions: instance.positions(),
            unparked,
            unparked_weight: unparked.wrapping_add(case.multiplier),
        };
        for unit in 0..instance.units() {
            tables.add_rows_from(instance, &case.duals, unit)?;
        }
        tables.starts.push(tables.rows.len())?;
        tables.find_shares(alloc)?;
        Ok(tables)
    }

    /// The first unit of a unit's train, and the one behind its last.
    pub(crate) fn train_of(&self, unit: usize) -> (usize, usize) {
        match self.trains.get(unit) {
            Some(train) => (usize::from(train.from), usize::from(train.to)),
            None => (0, 0),
        }
    }

    /// What blocks cost at least that have that many units from one on, in thousandths of a cost unit.
    pub(crate) fn share(&self, unit: usize, many: u8) -> i64 {
        run_sum(&self.shares, unit, many)
    }

    /// What a whole plan costs at least, in thousandths of a cost unit.
    pub(crate) fn all_shares(&self) -> i64 {
        let mut sum: i64 = 0;
        for share in &self.shares {
            sum = sum.wrapping_add(*share);
        }
        sum
    }

    /// The length of a track in dm.
    pub(crate) fn room(&self, track: usize) -> u32 {
        self.rooms.get(track).copied().unwrap_or(0)
    }

    /// How many shapes there are.
    pub(crate) fn len(&self) -> usize {
        self.rows.len()
    }

    /// The shape at a place.
    pub(crate) fn row(&self, place: usize) -> Option<ShapeRow> {
        self.rows.get(place).copied()
    }

    /// Where the shapes of a unit and a position begin.
    fn start(&self, unit: usize, position: usize) -> usize {
        let place = unit.wrapping_mul(self.positions).wrapping_add(position);
        self.starts.get(place).copied().unwrap_or(0)
    }

    /// The shapes that begin at units from one to before another.
    pub(crate) fn rows_between(&self, from: usize, to: usize) -> &[ShapeRow] {
        part_of(&self.rows, self.start(from, 0), self.start(to, 0))
    }

    /// The shapes that begin at a unit and a position, the shortest first.
    pub(crate) fn rows_at(&self, unit: usize, position: usize) -> &[ShapeRow] {
        let next = position.wrapping_add(1);
        part_of(
            &self.rows,
            self.start(unit, position),
            self.start(unit, next),
        )
    }

    /// The ways to park a shape, the lightest first.
    pub(crate) fn spots_of(&self, row: &ShapeRow) -> &[Spot] {
        match self.groups.get(row.group) {
            Some(group) => part_of(&self.spots, group.from, group.to),
            None => &[],
        }
    }
}
