// How faults are counted.
ghost use Rattle.shunt_store.specs.defs.Causes.{one_more, IsOneMore, Rose};
ghost use Rattle.std.specs.Prelude.{◌≡◌, ◌≤◌};

/// One fault more. The count stays at its last value.
pub fn one_fault_more(faults: u64) -> u64
    ensures value { result ≡ one_more faults }
    ensures counted { IsOneMore faults result }
    ensures rose { Rose faults result }
    ensures later { faults ≤ result }
{
    if faults < u64::MAX {
        faults + 1
    } else {
        faults
    }
}
