// The first shortage of units.
ghost use Rattle.std.specs.Prelude.{◌≡◌, ◌<◌, ℕ, true, length, IsTrue, IsFalse, IfNone, IfSome};
ghost use Rattle.shunt_instance.specs.defs.Matching.{entry_at, RisesByKind};
ghost use Rattle.shunt_matching.specs.defs.Counts.{is_of_kind, count_by_minute};
ghost use Rattle.shunt_matching.specs.defs.Shortages.{IsEven, IsEnoughBy, IsFirstUneven, IsLateAt};

use crate::entries::{Entries, count_by, count_first, has_kind};

/// A type with its numbers of units and of positions, which differ.
#[derive(Clone, Copy)]
pub(crate) struct Uneven {
    pub kind: u8,
    pub arrive: u32,
    pub depart: u32,
}

/// The first of these types whose units and positions differ in number.
pub(crate) fn first_uneven<U: Entries, V: Entries>(
    us: &U,
    vs: &V,
    um: &[bool],
    vm: &[bool],
    kinds: u8,
) -> Option<Uneven>
    ensures none { IfNone result
        ((k : ℕ) → k < kinds → IsEven (U.entries us.now) (V.entries vs.now) um.now vm.now k) }
    ensures some { IfSome result (λ s. IsFirstUneven (U.entries us.now)
        (V.entries vs.now) um.now vm.now s.kind s.arrive s.depart) }
    ensures known { IfSome result (λ s. s.kind < kinds) }
{
    for kind in 0..kinds {
        let arrive = count_first(us, um, kind, us.len());
        let depart = count_first(vs, vm, kind, vs.len());
        if arrive != depart {
            return Some(Uneven {
                kind,
                arrive,
                depart,
            });
        }
    }
    None
}

/// Whether the position is of this type, and more positions leave by its minute than units are ready by then.
fn is_late_at<U: Entries, V: Entries>(
    us: &U,
    vs: &V,
    um: &[bool],
    vm: &[bool],
    kind: u8,
    v: usize,
) -> bool
    requires { v < length (V.entries vs.now) }
    ensures late { IsTrue result → is_of_kind (V.entries vs.now) vm.now kind v ≡ true }
    ensures short { let minute = (entry_at (V.entries vs.now) v).minute in
        IsTrue result →
        count_by_minute (U.entries us.now) um.now kind minute
        < count_by_minute (V.entries vs.now) vm.now kind minute }
    ensures enough { let minute = (entry_at (V.entries vs.now) v).minute in
        IsFalse result → is_of_kind (V.entries vs.now) vm.now kind v ≡ true →
        IsEnoughBy (U.entries us.now) (V.entries vs.now) um.now vm.now kind minute }
{
    if !has_kind(vs, vm, kind, v) {
        return false;
    }
    let minute = vs.minute(v);
    count_by(us, um, kind, minute) < count_by(vs, vm, kind, minute)
}

/// The first position of this type by whose minute more positions leave than units are ready.
fn first_late_of<U: Entries, V: Entries>(
    us: &U,
    vs: &V,
    um: &[bool],
    vm: &[bool],
    kind: u8,
) -> Option<usize>
    requires { RisesByKind (V.entries vs.now) }
    ensures none { IfNone result
        ((m : ℕ) → IsEnoughBy (U.entries us.now) (V.entries vs.now) um.now vm.now kind m) }
    ensures some { IfSome result
        (IsLateAt (U.entries us.now) (V.entries vs.now) um.now vm.now kind) }
{
    for v in 0..vs.len() {
        if is_late_at(us, vs, um, vm, kind, v) {
            return Some(v);
        }
    }
    None
}

/// A type and a position of it.
#[derive(Clone, Copy)]
pub(crate) struct Late {
    pub kind: u8,
    pub position: usize,
}

/// The first of these types that has a position by whose minute more positions leave than units are ready.
pub(crate) fn first_late<U: Entries, V: Entries>(
    us: &U,
    vs: &V,
    um: &[bool],
    vm: &[bool],
    kinds: u8,
) -> Option<Late>
    requires { RisesByKind (V.entries vs.now) }
    ensures none { IfNone result ((k m : ℕ) → k < kinds →
        IsEnoughBy (U.entries us.now) (V.entries vs.now) um.now vm.now k m) }
    ensures some { IfSome result (λ s.
        IsLateAt (U.entries us.now) (V.entries vs.now) um.now vm.now s.kind s.position) }
    ensures before { IfSome result (λ s. (k m : ℕ) → k < s.kind →
        IsEnoughBy (U.entries us.now) (V.entries vs.now) um.now vm.now k m) }
    ensures known { IfSome result (λ s. s.kind < kinds) }
{
    for kind in 0..kinds {
        if let Some(position) = first_late_of(us, vs, um, vm, kind) {
            return Some(Late { kind, position });
        }
    }
    None
}
