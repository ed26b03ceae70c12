// Versions and their numbers in files.
ghost use Rattle.std.specs.Prelude.{◌≡◌};
ghost use Rattle.shunt_rows.specs.defs.Checks.{answer};
ghost use Rattle.shunt_proof.specs.defs.Numbers.{number_of, version_with};
ghost use Rattle.shunt_proof.specs.defs.CertificateFormat.{version_in};

use crate::records::Version;
use shunt_rows::{Row, RowFault, RowKind, fields_in, must, number_in};

// The greatest number that is read.
const NEWEST: u64 = 2;

/// The number of a version.
pub(crate) fn number_of(version: Version) -> u64
    ensures { result ≡ number_of version }
{
    match version {
        Version::Prices => 1,
        Version::Stacks => 2,
    }
}

fn version_with(number: u64) -> Version
    ensures { result ≡ version_with number }
{
    if number == 2 {
        return Version::Stacks;
    }
    Version::Prices
}

/// The first record of a file: its version.
#[tactic(auto, unfolding(crate::specs::defs::CertificateFormat::version_in))]
pub(crate) fn read_version(row: &Row) -> Result<Version, RowFault>
    ensures { result ≡ answer 1 (version_in row.now) }
{
    must(row.word() == b"certificate".as_slice(), 1, 1, RowKind::Kind)?;
    fields_in(row, 1, 2, 2)?;
    let number = number_in(row, 1, 2, 1, NEWEST)?;
    Ok(version_with(number))
}
