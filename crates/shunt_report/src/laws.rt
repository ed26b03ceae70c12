//! What follows from the definitions of this crate.
ghost use Rattle.std.specs.Prelude.{◌≡◌, All, List, length};
ghost use Rattle.shunt_instance.specs.defs.Instance.{Night, IsInstance};
ghost use Rattle.shunt_blocks.specs.declared.records.Block.{Block};
ghost use Rattle.shunt_plan.specs.declared.records.Plan.{Plan};
ghost use Rattle.shunt_plan.specs.defs.Plans.{IsPlanInRange};
ghost use Rattle.shunt_proof.specs.declared.records.Certificate.{Certificate};
ghost use Rattle.shunt_proof.specs.defs.Certificates.{IsCertificate};
ghost use Rattle.shunt_checker.specs.declared.verdict.Verdict.{Verdict};
ghost use Rattle.shunt_checker.specs.defs.Verdicts.{IsVerdict};
ghost use Rattle.shunt_zones.specs.declared.records.Zones.{Zones};
ghost use Rattle.shunt_zones.specs.defs.ZonesFormat.{IsZones};
ghost use Rattle.shunt_zones.specs.defs.Meetings.{meets_in};
ghost use Rattle.shunt_zones.specs.defs.Loads.{loads_in};
ghost use Rattle.shunt_blocks.specs.defs.Lists.{IsFeasible};
ghost use Rattle.shunt_compare.specs.declared.records.Comparison.{Comparison};
ghost use Rattle.shunt_compare.specs.defs.Changes.{IsComparison};
ghost use Rattle.shunt_report.specs.defs.ComparisonTexts.{IsComparisonOfNight};
ghost use Rattle.shunt_report.specs.defs.VerdictTexts.{IsVerdictOfNight};
ghost use Rattle.shunt_report.specs.defs.ZonesTexts.{IsMeetOf};

use shunt_blocks::laws::{places, stays_of_blocks};

/// What the verdict on a certificate tells is of the night.
pub fn verdicts()
    ensures { (night : Night) (pins : List Block) (plan : Plan) (c : Certificate) (v : Verdict)
        → IsCertificate night c → IsVerdict night pins plan c v → IsVerdictOfNight night v }
{}

/// The meets of the moves of a plan in range, with zones that a file can state over the station, have these zones and minutes of two
/// days; and there is one load for each zone.
pub fn meets()
    ensures each { (night : Night) (zones : Zones) (plan : Plan) → IsInstance night
        → IsZones night.station zones → IsPlanInRange night plan
        → All (IsMeetOf zones) (meets_in night zones plan) }
    ensures loads { (night : Night) (zones : Zones) (plan : Plan)
        → length (loads_in night zones plan) ≡ length zones.names }
{
    // The call says what the stays of blocks are.
    stays_of_blocks();
}

/// What one feasible plan does otherwise than another is of the night.
pub fn comparisons()
    ensures { (night : Night) (was now : List Block) (c : Comparison) → IsFeasible night was
        → IsFeasible night now → IsComparison night was now c → IsComparisonOfNight night c }
{
    places();
}
