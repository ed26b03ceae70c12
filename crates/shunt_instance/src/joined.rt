// A night: the station joined with the timetable.
ghost use Rattle.std.specs.Prelude.{◌≡◌, ◌+◌, ◌<◌, ◌≤◌, ℕ, false, IsTrue, Some, IfOk, IfSome};
ghost use Rattle.std.specs.Prelude.{length, slice_get, position, bytes_eq};
ghost use Rattle.shunt_lists.specs.defs.Members.{AreDistinct};
ghost use Rattle.shunt_instance.specs.defs.Words.{route_cost, permits, is_standing, is_open_at};
ghost use Rattle.shunt_instance.specs.defs.Words.{names_of, train_at, train_of_name, track_names};
ghost use Rattle.shunt_instance.specs.defs.Words.{track_of_name};
ghost use Rattle.shunt_instance.specs.defs.Wellformed.{IsStation, IsTimetable, IsTrain};
ghost use Rattle.shunt_instance.specs.defs.Instance.{night_of, IsInstance, unit_total};
ghost use Rattle.shunt_instance.specs.defs.Instance.{position_total, unit_at, position_at, ready};
ghost use Rattle.shunt_instance.specs.defs.Instance.{leaves, first_unit, first_position};
ghost use Rattle.shunt_instance.specs.defs.Instance.{arr_of_name, dep_of_name, IsUnitAt};
ghost use Rattle.shunt_instance.specs.defs.Instance.{IsPositionAt};

use crate::lookups::{cost_table, named_table, pair_table, permit_cell, route_cell};
use crate::records::{Position, Station, Timetable, Train, Unit};
use crate::train_numbers::{
    first_numbers, leave_minutes, number_positions, number_units, ready_minutes, sorted,
};
use shunt_base::{ArrId, DepId, Minute, PlatformId, Side, TrackId, TypeId};
use std::alloc::{AllocError, Global};
use std::marker::Model;

/// One night: a station and its trains in their order, with their units and positions numbered.
///
/// Arriving trains are numbered from 0 by minute and then by file order, and so are departing trains. Units are numbered
/// from 0 through the arriving trains, and positions through the departing trains, each train from its first listed unit.
/// Contracts see the station and the two lists of trains. No call but `join` takes memory.
#[derive(Drop)]
pub struct Instance {
    station: Station,
    arrive: Vec<Train>,
    depart: Vec<Train>,
    units: Vec<Unit>,
    positions: Vec<Position>,
    ready: Vec<u16>,
    leaves: Vec<Minute>,
    first_units: Vec<usize>,
    first_positions: Vec<usize>,
    costs: Vec<Option<u32>>,
    named: Vec<bool>,
    pairs: Vec<bool>,
}

impl Model for Instance {
    ghost use Rattle.shunt_instance.specs.defs.Instance.{Night};

    ghost Value = { Night };

    ghost use Rattle.shunt_instance.specs.defs.Tables.{AreTables};

    ghost view = { λ a.
        record { station = a.station; arrive = a.arrive.items; depart = a.depart.items } };

    ghost invariant = { λ a. AreTables
        (record { station = a.station; arrive = a.arrive.items; depart = a.depart.items })
        a.units.items a.positions.items a.ready.items a.leaves.items a.first_units.items
        a.first_positions.items a.costs.items a.named.items a.pairs.items };
}

impl Instance {
    /// The night of a well-formed station and a timetable that is well formed over it. After a refusal both are gone.
    pub fn join(
        alloc: Global,
        station: Station,
        timetable: Timetable,
    ) -> Result<Instance, AllocError>
        requires station { IsStation station }
        requires timetable { IsTimetable station timetable }
        ensures { IfOk result (λ i. i ≡ night_of station timetable) }
    {
        let Timetable { arrive, depart } = timetable;
        let arrive = sorted(arrive)?;
        let depart = sorted(depart)?;
        let units = number_units(alloc, &arrive)?;
        let positions = number_positions(alloc, &depart)?;
        let ready = ready_minutes(alloc, &station, &arrive, &units)?;
        let leaves = leave_minutes(alloc, &depart, &positions)?;
        let first_units = first_numbers(alloc, &arrive)?;
        let first_positions = first_numbers(alloc, &depart)?;
        let costs = cost_table(alloc, station.routes.as_slice())?;
        let named = named_table(alloc, station.permits.as_slice())?;
        let pairs = pair_table(alloc, station.permits.as_slice())?;
        Ok(Instance {
            station,
            arrive,
            depart,
            units,
            positions,
            ready,
            leaves,
            first_units,
            first_positions,
            costs,
            named,
            pairs,
        })
    }

    /// How many units there are, at most 160.
    #[tactic(auto, unfolding(crate::specs::defs::Instance::IsInstance))]
    pub fn units(&self) -> usize
        ensures exact { result ≡ unit_total self.now }
        ensures few { result ≤ 160 }
        ensures formed { IsInstance self.now }
    {
        self.units.len()
    }

    /// How many positions there are, at most 160.
    #[tactic(auto, unfolding(crate::specs::defs::Instance::IsInstance))]
    pub fn positions(&self) -> usize
        ensures exact { result ≡ position_total self.now }
        ensures few { result ≤ 160 }
        ensures formed { IsInstance self.now }
    {
        self.positions.len()
    }

    /// The unit with a number.
    pub fn unit(&self, u: usize) -> Unit
        requires { u < unit_total self.now }
        ensures exact { result ≡ unit_at self.now u }
        ensures facts { IsUnitAt self.now u result }
    {
        self.units[u]
    }

    /// The position with a number.
    pub fn position(&self, v: usize) -> Position
        requires { v < position_total self.now }
        ensures exact { result ≡ position_at self.now v }
        ensures facts { IsPositionAt self.now v result }
    {
        self.positions[v]
    }

    /// When the unit with a number is ready, in minutes, at most 4,319.
    pub fn ready(&self, u: usize) -> u16
        requires { u < unit_total self.now }
        ensures exact { result ≡ ready self.now u }
        ensures small { result < 4320 }
    {
        self.ready[u]
    }

    /// When the position with a number leaves.
    pub fn leaves(&self, v: usize) -> Minute
        requires { v < position_total self.now }
        ensures exact { result ≡ leaves self.now v }
        ensures small { result < 2880 }
    {
        self.leaves[v]
    }

    /// The arriving train with a number.
    pub fn arrive(&self, train: ArrId) -> &Train
        requires { train.0 < length self.now.arrive }
        ensures exact { result.now ≡ train_at self.now.arrive train.0 }
        ensures facts { IsTrain self.now.station result.now }
    {
        &self.arrive[train.0 as usize]
    }

    /// The departing train with a number.
    pub fn depart(&self, train: DepId) -> &Train
        requires { train.0 < length self.now.depart }
        ensures exact { result.now ≡ train_at self.now.depart train.0 }
        ensures facts { IsTrain self.now.station result.now }
        ensures from_platform { is_standing result.now ≡ false }
    {
        &self.depart[train.0 as usize]
    }

    /// How many arriving trains there are, at most 100.
    #[tactic(auto, unfolding(crate::specs::defs::Instance::IsInstance))]
    pub fn arrivals(&self) -> usize
        ensures exact { result ≡ length self.now.arrive }
        ensures few { result ≤ 100 }
        ensures formed { IsInstance self.now }
    {
        self.arrive.len()
    }

    /// How many departing trains there are, at most 100.
    #[tactic(auto, unfolding(crate::specs::defs::Instance::IsInstance))]
    pub fn departures(&self) -> usize
        ensures exact { result ≡ length self.now.depart }
        ensures few { result ≤ 100 }
        ensures formed { IsInstance self.now }
    {
        self.depart.len()
    }

    /// The station.
    #[tactic(auto, unfolding(crate::specs::defs::Instance::IsInstance))]
    pub fn station(&self) -> &Station
        ensures exact { result.now ≡ self.now.station }
        ensures station { IsStation result.now }
        ensures formed { IsInstance self.now }
    {
        &self.station
    }

    /// The number of an arriving train's unit at place 1.
    pub fn first_unit(&self, train: ArrId) -> usize
        requires { train.0 < length self.now.arrive }
        ensures exact { result ≡ first_unit self.now train.0 }
        ensures within { result + length (train_at self.now.arrive train.0).units
            ≤ unit_total self.now }
        ensures few { unit_total self.now ≤ 160 }
    {
        self.first_units[train.0 as usize]
    }

    /// The number of a departing train's position at place 1.
    pub fn first_position(&self, train: DepId) -> usize
        requires { train.0 < length self.now.depart }
        ensures exact { result ≡ first_position self.now train.0 }
        ensures within { result + length (train_at self.now.depart train.0).units
            ≤ position_total self.now }
        ensures few { position_total self.now ≤ 160 }
    {
        self.first_positions[train.0 as usize]
    }

    /// The cost of the route between a platform and a track's side. None exactly when the station has no such route.
    pub fn route(&self, platform: PlatformId, track: TrackId, side: Side) -> Option<u32>
        requires platform { platform.0 < length self.now.station.platforms }
        requires track { track.0 < length self.now.station.tracks }
        ensures exact { result ≡ route_cost self.now.station platform track side }
        ensures cost { IfSome result (λ c. c ≤ 1000000) }
        ensures open_at { IfSome result (λ c. IsTrue (is_open_at self.now.station track side)) }
    {
        self.costs[route_cell(platform, track, side)]
    }

    /// Whether a track permits a type: no permit names the track, or one names both.
    pub fn permits(&self, track: TrackId, kind: TypeId) -> bool
        requires track { track.0 < length self.now.station.tracks }
        requires kind { kind.0 < length self.now.station.types }
        ensures { result ≡ permits self.now.station track kind }
    {
        !self.named[track.0 as usize] || self.pairs[permit_cell(track, kind)]
    }

    /// The arriving train with a name. None exactly when no arriving train has it.
    pub fn arr_named(&self, name: &[u8]) -> Option<ArrId>
        ensures exact { result ≡ arr_of_name self.now name.now }
        ensures some { IfSome result
            (λ a. slice_get (names_of self.now.arrive) a.0 ≡ Some name.now) }
        ensures only { (k : ℕ) → slice_get (names_of self.now.arrive) k ≡ Some name.now
            → result ≡ Some (record { 0 = k }) }
    {
        match self.arr_place(name) {
            Some(k) => Some(ArrId(k as u8)),
            None => None,
        }
    }

    /// The departing train with a name. None exactly when no departing train has it.
    pub fn dep_named(&self, name: &[u8]) -> Option<DepId>
        ensures exact { result ≡ dep_of_name self.now name.now }
        ensures some { IfSome result
            (λ d. slice_get (names_of self.now.depart) d.0 ≡ Some name.now) }
        ensures only { (k : ℕ) → slice_get (names_of self.now.depart) k ≡ Some name.now
            → result ≡ Some (record { 0 = k }) }
    {
        match self.dep_place(name) {
            Some(k) => Some(DepId(k as u8)),
            None => None,
        }
    }

    /// The track with a name. None exactly when no track has it.
    pub fn track_named(&self, name: &[u8]) -> Option<TrackId>
        ensures exact { result ≡ track_of_name self.now.station name.now }
        ensures some { IfSome result
            (λ t. slice_get (track_names self.now.station) t.0 ≡ Some name.now) }
        ensures only { (k : ℕ) → slice_get (track_names self.now.station) k ≡ Some name.now
            → result ≡ Some (record { 0 = k }) }
    {
        match self.track_place(name) {
            Some(k) => Some(TrackId(k as u8)),
            None => None,
        }
    }

    // The number of the arriving train with a name.
    fn arr_place(&self, name: &[u8]) -> Option<usize>
        ensures exact { result ≡ train_of_name self.now.arrive name.now }
        ensures few { IfSome result (λ k. k < 256) }
        ensures distinct { AreDistinct (names_of self.now.arrive) }
    {
        self.arrive
            .iter()
            .position(|train| train.name.bytes() == name)
    }

    // The number of the departing train with a name.
    fn dep_place(&self, name: &[u8]) -> Option<usize>
        ensures exact { result ≡ train_of_name self.now.depart name.now }
        ensures few { IfSome result (λ k. k < 256) }
        ensures distinct { AreDistinct (names_of self.now.depart) }
    {
        self.depart
            .iter()
            .position(|train| train.name.bytes() == name)
    }

    // The number of the track with a name.
    fn track_place(&self, name: &[u8]) -> Option<usize>
        ensures exact { result ≡ position (λ t. bytes_eq t.name name.now) self.now.station.tracks }
        ensures few { IfSome result (λ k. k < 256) }
        ensures distinct { AreDistinct (track_names self.now.station) }
    {
        let tracks = self.station.tracks.as_slice();
        tracks.iter().position(|track| track.name.bytes() == name)
    }
}
