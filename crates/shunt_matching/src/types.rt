//! Why no matching exists.
use shunt_base::{Minute, TypeId};

/// The first shortage of units.
///
/// `Balance` comes where a type's units and positions differ in number, and names the first such type with its numbers
/// of units and of positions. If all types agree, `ByMinute` names the first type, and its least minute, by which
/// more of its positions leave (`need`) than of its units are ready (`have`), both counted at that minute or before.
#[derive(Clone, Copy, Debug, PartialEq, Eq)]
pub enum Shortage {
    Balance {
        kind: TypeId,
        arrive: u32,
        depart: u32,
    },
    ByMinute {
        kind: TypeId,
        minute: Minute,
        need: u32,
        have: u32,
    },
}
