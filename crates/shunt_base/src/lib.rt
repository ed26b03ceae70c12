//! The small types of the project, and how names, numbers and minutes are spelled.
#![tactic(auto)]

mod copies;
mod duals;
mod ids;
mod keys;
pub mod laws;
mod minute;
mod name;
mod number;

pub use copies::{copy_cases, copy_duals, copy_name};
pub use duals::{Case, Cases, Duals, Price, PriceKind};
pub use ids::{ArrId, DepId, PlatformId, Side, TrackId, TypeId};
pub use keys::{EventKey, Stay, compare_keys};
pub use minute::{Minute, minute_bytes, parse_minute};
pub use name::{Name, Naming, PlainNames, is_name};
pub use number::{parse_decimal, parse_signed};
