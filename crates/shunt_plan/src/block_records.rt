// Records of blocks, which plans and pins share.
ghost use Rattle.std.specs.Prelude.{◌≡◌, ◌≤◌, ◌<◌, ◌+◌, ◌==◌, ◌||◌, IsTrue, length, IfOk};
ghost use Rattle.shunt_rows.specs.declared.fault.RowKind.TheVariants as kinds;
ghost use Rattle.shunt_rows.specs.defs.Checks.{answer};
ghost use Rattle.shunt_rows.specs.defs.Given.{Gives};
ghost use Rattle.shunt_plan.specs.defs.BlockRecords.{first_in, arr_in, dep_in, track_in, arr_units};
ghost use Rattle.shunt_plan.specs.defs.BlockRecords.{dep_units, unparked_in, parked_in, option_in};
ghost use Rattle.shunt_plan.specs.defs.BlockRecords.{has_id, id_in, runs_of, block_of, blocks_of};

use shunt_base::{ArrId, DepId, TrackId, parse_decimal};
use shunt_blocks::{Block, Park};
use shunt_instance::Instance;
use shunt_rows::{
    ReadError, Row, RowFault, RowKind, fields_in, found, is_within, must, number_in, side_in,
};

/// The first record of a file: this word, and version 1. Else Kind or Fields at field 1, Number or Limit at field 2.
pub fn read_first(row: &Row, word: &[u8]) -> Result<(), RowFault>
    ensures { result ≡ answer 1 (first_in word.now tt row.now) }
{
    must(row.word() == word, 1, 1, RowKind::Kind)?;
    fields_in(row, 1, 2, 2)?;
    number_in(row, 1, 2, 1, 1)?;
    Ok(())
}

fn unknown(n: u32, k: u32) -> RowFault
    ensures { result ≡ record { row = n; field = k; kind = kinds.Unknown } }
{
    RowFault {
        row: n,
        field: k,
        kind: RowKind::Unknown,
    }
}

/// The arriving train at field `k` of record `n`: else Unknown.
pub fn read_arr(instance: &Instance, row: &Row, n: u32, k: u32) -> Result<ArrId, RowFault>
    requires first { 1 ≤ k }
    requires last { k ≤ length row.now }
    ensures answer { result ≡ answer n (arr_in instance.now row.now k) }
    ensures within { IfOk result (λ a. a.0 < length instance.now.arrive) }
{
    match instance.arr_named(row.field(k as usize)) {
        Some(arr) => Ok(arr),
        None => Err(unknown(n, k)),
    }
}

/// The departing train at field `k` of record `n`: else Unknown.
pub fn read_dep(instance: &Instance, row: &Row, n: u32, k: u32) -> Result<DepId, RowFault>
    requires first { 1 ≤ k }
    requires last { k ≤ length row.now }
    ensures answer { result ≡ answer n (dep_in instance.now row.now k) }
    ensures within { IfOk result (λ d. d.0 < length instance.now.depart) }
{
    match instance.dep_named(row.field(k as usize)) {
        Some(dep) => Ok(dep),
        None => Err(unknown(n, k)),
    }
}

/// The track at field `k` of record `n`: else Unknown.
pub fn read_track(instance: &Instance, row: &Row, n: u32, k: u32) -> Result<TrackId, RowFault>
    requires first { 1 ≤ k }
    requires last { k ≤ length row.now }
    ensures { result ≡ answer n (track_in instance.now.station row.now k) }
{
    match instance.track_named(row.field(k as usize)) {
        Some(track) => Ok(track),
        None => Err(unknown(n, k)),
    }
}

// How many units the arriving train has.
#[tactic(auto, unfolding(crate::specs::defs::BlockRecords::arr_units))]
fn arr_units(instance: &Instance, arr: ArrId) -> u64
    requires { arr.0 < length instance.now.arrive }
    ensures exact { result ≡ arr_units instance.now arr }
    ensures few { result ≤ 8 }
{
    instance.arrive(arr).units.len() as u64
}

// How many positions the departing train has.
#[tactic(auto, unfolding(crate::specs::defs::BlockRecords::dep_units))]
fn dep_units(instance: &Instance, dep: DepId) -> u64
    requires { dep.0 < length instance.now.depart }
    ensures exact { result ≡ dep_units instance.now dep }
    ensures few { result ≤ 8 }
{
    instance.depart(dep).units.len() as u64
}

#[tactic(auto, unfolding(crate::specs::defs::BlockRecords::unparked_in))]
fn read_unparked(row: &Row, n: u32, k: u32) -> Result<Option<Park>, RowFault>
    requires first { 1 ≤ k }
    requires last { k ≤ length row.now }
    ensures { result ≡ answer n (unparked_in row.now k) }
{
    must(
        row.field(k as usize) == b"unparked".as_slice(),
        n,
        k,
        RowKind::Kind,
    )?;
    Ok(None)
}

#[tactic(auto, unfolding(crate::specs::defs::BlockRecords::parked_in))]
fn read_parked(instance: &Instance, row: &Row, n: u32, k: u32) -> Result<Option<Park>, RowFault>
    requires first { 1 ≤ k }
    requires small { k ≤ 8 }
    requires last { k + 3 ≤ length row.now }
    ensures { result ≡ answer n (parked_in instance.now.station row.now k) }
{
    must(
        row.field(k as usize) == b"park".as_slice(),
        n,
        k,
        RowKind::Kind,
    )?;
    let track = read_track(instance, row, n, k + 1)?;
    let entry = side_in(row, n, k + 2)?;
    let leave = side_in(row, n, k + 3)?;
    Ok(Some(Park {
        track,
        side_in: entry,
        side_out: leave,
    }))
}

/// The option from field `k` of record `n` on: `unparked` where it is the last field, else `park,TRACK,IN,OUT`.
///
/// Another word and a side that is none are Kind, a track that isn't the station's is Unknown.
#[tactic(auto, unfolding(crate::specs::defs::BlockRecords::option_in))]
pub fn read_option(instance: &Instance, row: &Row, n: u32, k: u32) -> Result<Option<Park>, RowFault>
    requires first { 1 ≤ k }
    requires small { k ≤ 8 }
    requires last { IsTrue (length row.now == k || length row.now == k + 3) }
    ensures { result ≡ answer n (option_in instance.now.station row.now k) }
{
    if row.len() == k as usize {
        return read_unparked(row, n, k);
    }
    read_parked(instance, row, n, k)
}

#[tactic(auto, unfolding(crate::specs::defs::BlockRecords::has_id))]
pub(crate) fn has_id(blocks: &[Block], id: u64) -> bool
    ensures { result ≡ has_id blocks.now id }
{
    blocks.iter().any(|block| block.id as u64 == id)
}

// The id at field `k` of one more block.
fn read_id(blocks: &[Block], row: &Row, n: u32, k: u32) -> Result<u32, RowFault>
    requires first { 1 ≤ k }
    requires last { k ≤ length row.now }
    ensures { result ≡ answer n (id_in blocks.now row.now k) }
{
    let id = found(parse_decimal(row.field(k as usize)), n, k, RowKind::Number)?;
    let repeats = has_id(blocks, id);
    must(!repeats, n, k, RowKind::Repeat)?;
    must(is_within(1, 1_000_000, id), n, k, RowKind::Limit)?;
    Ok(id as u32)
}

// The block of a record, with its option yet to come.
#[tactic(auto, unfolding(crate::specs::defs::BlockRecords::runs_of))]
fn read_runs(instance: &Instance, blocks: &[Block], row: &Row, n: u32) -> Result<Block, RowFault>
    ensures answer { result ≡ answer n (runs_of instance.now blocks.now row.now) }
    ensures fields { IfOk result (λ _. IsTrue (length row.now == 8 || length row.now == 11)) }
{
    let len = row.len();
    must(len == 8 || len == 11, n, 1, RowKind::Fields)?;
    must(blocks.len() < 400, n, 1, RowKind::Limit)?;
    let id = read_id(blocks, row, n, 2)?;
    let arr = read_arr(instance, row, n, 3)?;
    let units = arr_units(instance, arr);
    let p = number_in(row, n, 4, 1, units)?;
    let count = number_in(row, n, 5, 1, units + 1 - p)?;
    let dep = read_dep(instance, row, n, 6)?;
    let most = (dep_units(instance, dep) + 1).saturating_sub(count);
    let q = number_in(row, n, 7, 1, most)?;
    Ok(Block {
        id,
        arr,
        p: p as u8,
        n: count as u8,
        dep,
        q: q as u8,
        park: None,
    })
}

// The block of a record behind these blocks.
fn read_block(instance: &Instance, blocks: &[Block], row: &Row, n: u32) -> Result<Block, RowFault>
    ensures { result ≡ answer n (block_of instance.now blocks.now row.now) }
{
    let mut block = read_runs(instance, blocks, row, n)?;
    block.park = read_option(instance, row, n, 8)?;
    Ok(block)
}

/// Adds the block of a record to these blocks.
pub(crate) fn read_more(
    instance: &Instance,
    blocks: &mut Vec<Block>,
    row: &Row,
    n: u32,
) -> Result<(), ReadError>
    ensures { Gives (λ _. blocks.new.items) result
        (answer n (blocks_of instance.now blocks.old.items row.now)) }
{
    let block = read_block(instance, blocks, row, n)?;
    blocks.push(block)?;
    Ok(())
}
