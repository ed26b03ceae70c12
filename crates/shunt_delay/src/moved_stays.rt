// The stays of one train, moved on the timelines of all.
ghost use Rattle.std.specs.Prelude.{◌≡◌, ◌⊎◌, ◌↔◌, ◌+◌, ◌≤◌, IsTrue, List, length, map};
ghost use Rattle.shunt_lists.specs.defs.Members.{In};
ghost use Rattle.shunt_base.specs.declared.keys.Stay.{Stay as OneStay};
ghost use Rattle.shunt_base.specs.defs.Keys.{AreStays};
ghost use Rattle.shunt_stays.specs.defs.Run.{GoesThrough};
ghost use Rattle.shunt_delay.specs.defs.Kept.{later, IsApart, CanCome, Hold};

use crate::late::later;
use shunt_base::Stay;
use shunt_timeline::Timelines;

/// Stays come, that many minutes later. It takes no memory.
pub(crate) fn put(timelines: &mut Timelines, own: &[Stay], minutes: u16)
    requires { CanCome own.now minutes timelines.old }
    ensures members { (s : OneStay) → In s timelines.new.stays
        ↔ In s (map (later minutes) own.now) ⊎ In s timelines.old.stays }
    ensures lengths { timelines.new.lengths ≡ timelines.old.lengths }
    ensures room { timelines.new.spare + length timelines.new.stays ≡ timelines.old.spare
        + length timelines.old.stays }
{
    for stay in own {
        timelines.insert(later(stay, minutes));
    }
}

/// The stays with the ids of these go. It takes no memory.
pub(crate) fn take(timelines: &mut Timelines, own: &[Stay])
    ensures members { (s : OneStay) → In s timelines.new.stays
        ↔ In s timelines.old.stays × IsApart own.now s }
    ensures lengths { timelines.new.lengths ≡ timelines.old.lengths }
    ensures room { timelines.new.spare + length timelines.new.stays ≡ timelines.old.spare
        + length timelines.old.stays }
{
    for stay in own {
        timelines.remove(stay.id);
    }
}

/// Whether the run of all stays goes through once these have come, that many minutes later. The timelines hold what they held.
///
/// It takes no memory.
pub(crate) fn goes_through(timelines: &mut Timelines, own: &[Stay], minutes: u16) -> bool
    requires { CanCome own.now minutes timelines.old }
    ensures through { (stays : List OneStay) → AreStays stays → ((s : OneStay) → In s stays
        ↔ In s (map (later minutes) own.now) ⊎ In s timelines.old.stays) → IsTrue result
        → GoesThrough timelines.old.lengths stays }
    ensures same { Hold timelines.old timelines.new }
{
    put(timelines, own, minutes);
    let clash = timelines.clash();
    take(timelines, own);
    clash.pairs == 0 && clash.over == 0
}
