// The files over a night.
ghost use Rattle.std.specs.Prelude.{◌≡◌};
ghost use Rattle.shunt_blocks.specs.defs.Lists.{AreInRange};
ghost use Rattle.shunt_drivers.specs.defs.CrewFormat.{crew_format, IsCrew};
ghost use Rattle.shunt_plan.specs.defs.Edits.{AreTurns, edits_format};
ghost use Rattle.shunt_plan.specs.defs.PinsFormat.{pins_format};
ghost use Rattle.shunt_plan.specs.defs.PlanFormat.{plan_format};
ghost use Rattle.shunt_plan.specs.defs.Plans.{IsPlanInRange};
ghost use Rattle.shunt_proof.specs.defs.CertificateFormat.{certificate_format};
ghost use Rattle.shunt_proof.specs.defs.Certificates.{IsCertificate};
ghost use Rattle.shunt_rows.specs.declared.words.FileWord.TheVariants as words;
ghost use Rattle.shunt_rows.specs.defs.Formats.{reading};
ghost use Rattle.shunt_zones.specs.defs.ZonesFormat.{zones_format, IsZones};

use crate::inputs::{HasNight, InputFile, Inputs};
use shunt_blocks::Block;
use shunt_drivers::{Crew, read_crew};
use shunt_lists::Items;
use shunt_plan::{Plan, Turn, read_edits, read_pins, read_plan};
use shunt_proof::{Certificate, read_certificate};
use shunt_rows::{FileWord, ReadError, Row};
use shunt_zones::{Zones, read_zones};
use std::alloc::Global;

/// A plan file over a night.
#[derive(Clone, Copy, Drop)]
pub struct PlanFile<'n>(pub &'n str);

impl<I: Inputs> InputFile<I> for PlanFile<'_>
where
    I::Value: HasNight,
{
    type Value = Plan;

    ghost word = { words.Plan };

    ghost name = { λ f. f.0.now };

    ghost states = { λ x rows. reading (plan_format (I.Value.night x)) rows };

    ghost formed = { λ x p. IsPlanInRange (I.Value.night x) p };

    fn word(&self) -> FileWord {
        FileWord::Plan
    }

    fn name(&self) -> &str {
        self.0
    }

    fn read(&self, alloc: Global, over: &I::Value, rows: &Vec<Row>) -> Result<Plan, ReadError> {
        read_plan(alloc, over.night(), rows)
    }
}

/// The file of another plan over a night.
#[derive(Clone, Copy, Drop)]
pub struct OtherFile<'n>(pub &'n str);

impl<I: Inputs> InputFile<I> for OtherFile<'_>
where
    I::Value: HasNight,
{
    type Value = Plan;

    ghost word = { words.Other };

    ghost name = { λ f. f.0.now };

    ghost states = { λ x rows. reading (plan_format (I.Value.night x)) rows };

    ghost formed = { λ x p. IsPlanInRange (I.Value.night x) p };

    fn word(&self) -> FileWord {
        FileWord::Other
    }

    fn name(&self) -> &str {
        self.0
    }

    fn read(&self, alloc: Global, over: &I::Value, rows: &Vec<Row>) -> Result<Plan, ReadError> {
        read_plan(alloc, over.night(), rows)
    }
}

/// A certificate file over a night.
#[derive(Clone, Copy, Drop)]
pub struct CertificateFile<'n>(pub &'n str);

impl<I: Inputs> InputFile<I> for CertificateFile<'_>
where
    I::Value: HasNight,
{
    type Value = Certificate;

    ghost word = { words.Certificate };

    ghost name = { λ f. f.0.now };

    ghost states = { λ x rows. reading (certificate_format (I.Value.night x)) rows };

    ghost formed = { λ x c. IsCertificate (I.Value.night x) c };

    fn word(&self) -> FileWord {
        FileWord::Certificate
    }

    fn name(&self) -> &str {
        self.0
    }

    fn read(
        &self,
        alloc: Global,
        over: &I::Value,
        rows: &Vec<Row>,
    ) -> Result<Certificate, ReadError> {
        read_certificate(alloc, over.night(), rows)
    }
}

/// A pins file over a night.
#[derive(Clone, Copy, Drop)]
pub struct PinsFile<'n>(pub &'n str);

impl<I: Inputs> InputFile<I> for PinsFile<'_>
where
    I::Value: HasNight,
{
    type Value = Items<Block>;

    ghost word = { words.Pins };

    ghost name = { λ f. f.0.now };

    ghost states = { λ x rows. reading (pins_format (I.Value.night x)) rows };

    ghost formed = { λ x pins. AreInRange (I.Value.night x) pins };

    fn word(&self) -> FileWord {
        FileWord::Pins
    }

    fn name(&self) -> &str {
        self.0
    }

    fn read(
        &self,
        alloc: Global,
        over: &I::Value,
        rows: &Vec<Row>,
    ) -> Result<Items<Block>, ReadError> {
        Ok(Items::from_vec(read_pins(alloc, over.night(), rows)?))
    }
}

/// An edits file over a night.
#[derive(Clone, Copy, Drop)]
pub struct EditsFile<'n>(pub &'n str);

impl<I: Inputs> InputFile<I> for EditsFile<'_>
where
    I::Value: HasNight,
{
    type Value = Items<Turn>;

    ghost word = { words.Edits };

    ghost name = { λ f. f.0.now };

    ghost states = { λ x rows. reading (edits_format (I.Value.night x)) rows };

    ghost formed = { λ x turns. AreTurns (I.Value.night x) turns };

    fn word(&self) -> FileWord {
        FileWord::Edits
    }

    fn name(&self) -> &str {
        self.0
    }

    fn read(
        &self,
        alloc: Global,
        over: &I::Value,
        rows: &Vec<Row>,
    ) -> Result<Items<Turn>, ReadError> {
        Ok(Items::from_vec(read_edits(alloc, over.night(), rows)?))
    }
}

/// A zones file over the station of a night.
#[derive(Clone, Copy, Drop)]
pub struct ZonesFile<'n>(pub &'n str);

impl<I: Inputs> InputFile<I> for ZonesFile<'_>
where
    I::Value: HasNight,
{
    type Value = Zones;

    ghost word = { words.Zones };

    ghost name = { λ f. f.0.now };

    ghost states = { λ x rows. reading (zones_format (I.Value.night x).station) rows };

    ghost formed = { λ x z. IsZones (I.Value.night x).station z };

    fn word(&self) -> FileWord {
        FileWord::Zones
    }

    fn name(&self) -> &str {
        self.0
    }

    fn read(&self, alloc: Global, over: &I::Value, rows: &Vec<Row>) -> Result<Zones, ReadError> {
        read_zones(alloc, over.night().station(), rows)
    }
}

/// A crew file over the station of a night.
#[derive(Clone, Copy, Drop)]
pub struct CrewFile<'n>(pub &'n str);

impl<I: Inputs> InputFile<I> for CrewFile<'_>
where
    I::Value: HasNight,
{
    type Value = Crew;

    ghost word = { words.Crew };

    ghost name = { λ f. f.0.now };

    ghost states = { λ x rows. reading (crew_format (I.Value.night x).station) rows };

    ghost formed = { λ x c. IsCrew (I.Value.night x).station c };

    fn word(&self) -> FileWord {
        FileWord::Crew
    }

    fn name(&self) -> &str {
        self.0
    }

    fn read(&self, alloc: Global, over: &I::Value, rows: &Vec<Row>) -> Result<Crew, ReadError> {
        read_crew(alloc, over.night().station(), rows)
    }
}
