//! What follows from the definitions of this crate.
ghost use Rattle.std.specs.Prelude.{◌≡◌, ◌≤◌, List, ℕ, Ok, length};
ghost use Rattle.shunt_rows.specs.defs.FirstFault.{Tells};
ghost use Rattle.shunt_rows.specs.defs.Formats.{reading};
ghost use Rattle.shunt_rows.specs.defs.Records.{text_of_rows};
ghost use Rattle.shunt_instance.specs.declared.records.Station.{Station};
ghost use Rattle.shunt_instance.specs.defs.Instance.{Night, IsInstance};
ghost use Rattle.shunt_instance.specs.defs.Wellformed.{IsStation};
ghost use Rattle.shunt_blocks.specs.declared.records.Block.{Block};
ghost use Rattle.shunt_blocks.specs.defs.Lists.{AreInRange, IsFeasible};
ghost use Rattle.shunt_sheet.specs.declared.records.Order.{Order};
ghost use Rattle.shunt_sheet.specs.defs.Orders.{orders_in};
ghost use Rattle.shunt_sheet.specs.defs.SheetFormat.{sheet_format, AreOrders};
ghost use Rattle.shunt_sheet.specs.defs.SheetRows.{rows_of, ReadsAsSheet};
ghost use Rattle.shunt_sheet.specs.defs.FollowedOrders.{InWords, LeavesNone};

use shunt_blocks::laws as blocks_laws;

/// Over each station, records state orders or have a first fault, and never both, and reading them says which.
pub fn sheet_or_first_fault()
    ensures { (station : Station) (rows : List (List (List ℕ)))
        → Tells (sheet_format station) rows }
{}

/// The orders that records state are at most 800, their minutes don't fall, each block enters once and leaves at most once
/// after that, with the length and the track of its entry.
pub fn stated_orders_are_formed()
    ensures { (station : Station) (rows : List (List (List ℕ))) (orders : List Order)
        → reading (sheet_format station) rows ≡ Ok orders → AreOrders station orders }
{}

/// The records of such orders state them, and their text reads back as them and has at most 40,808 bytes.
pub fn texts_of_sheets()
    ensures rows { (station : Station) (orders : List Order) → IsStation station
        → AreOrders station orders
        → reading (sheet_format station) (rows_of station orders) ≡ Ok orders }
    ensures again { (station : Station) (orders : List Order) → IsStation station
        → AreOrders station orders
        → ReadsAsSheet station orders (text_of_rows (rows_of station orders)) }
    ensures short { (station : Station) (orders : List Order) → IsStation station
        → AreOrders station orders → length (text_of_rows (rows_of station orders)) ≤ 40808 }
{}

/// Following orders is the run of them in their order: it is Through exactly when that goes through, with as many blocks as then
/// stand on tracks; it is Blocked or Over exactly at the first order that can't be done, which is a leave of a block that isn't at
/// its side, or an entry that would leave this load.
pub fn following_in_words()
    ensures { (station : Station) (orders : List Order) → InWords station orders }
{}

/// The sheet of a feasible plan reads back to the plan's entries and leaves in key order, and following it goes through with no
/// block left.
pub fn sheets_of_plans()
    ensures formed { (night : Night) (blocks : List Block) → IsInstance night
        → AreInRange night blocks → AreOrders night.station (orders_in night blocks) }
    ensures again { (night : Night) (blocks : List Block) → IsInstance night
        → IsFeasible night blocks → ReadsAsSheet night.station (orders_in night blocks)
        (text_of_rows (rows_of night.station (orders_in night blocks))) }
    ensures followed { (night : Night) (blocks : List Block) → IsInstance night
        → IsFeasible night blocks → LeavesNone night.station (orders_in night blocks) }
{
    // The calls say what the stays of blocks are, how long blocks are, and which lists are in range.
    blocks_laws::stays_of_blocks();
    blocks_laws::places();
    blocks_laws::feasible_lists();
}
