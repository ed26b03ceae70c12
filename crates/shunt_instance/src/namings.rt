// Types and tracks are known by their names.
use crate::records::{Track, UnitType};
use shunt_base::Naming;

/// The names of types of units.
pub struct TypeNames;

impl Naming for TypeNames {
    type Thing = UnitType;

    ghost name = { λ t. t.name };

    fn name_of(kind: &UnitType) -> &[u8] {
        kind.name.bytes()
    }
}

/// The names of tracks.
pub struct TrackNames;

impl Naming for TrackNames {
    type Thing = Track;

    ghost name = { λ t. t.name };

    fn name_of(track: &Track) -> &[u8] {
        track.name.bytes()
    }
}
