// Whether cases hold on small nights, and what they bound.
ghost use Rattle.std.specs.Prelude.{IfSome};
ghost use Rattle.shunt_choices.specs.defs.Paths.{IsTrailOf};
ghost use Rattle.shunt_prices.specs.defs.Limits.{AreCases};
ghost use Rattle.shunt_proof.specs.defs.Certificates.{IsCertificate};

use crate::files::{field, joined, joined_rows, night, signed, word};
use shunt_base::Cases;
use shunt_blocks::{Block, in_range};
use shunt_choices::Path;
use shunt_dual::{cases_bound, cases_hold};
use shunt_instance::Instance;
use shunt_plan::read_pins;
use shunt_proof::{Certificate, NodeDuals, read_certificate};
use shunt_rows::Row;
use std::alloc::Global;
use std::rt::Files;

// The certificate of one leaf with the cases of a text.
fn leaf(alloc: Global, night: &Instance, cases: &[u8]) -> Option<Certificate>
    ensures { IfSome result (IsCertificate night.now) }
{
    let front = joined(alloc, b"certificate,1\nnode,0,leaf,new\n", cases)?;
    let rows = joined_rows(alloc, &front, b"\nend,0,0,1\n")?;
    match read_certificate(alloc, night, &rows) {
        Ok(certificate) => Some(certificate),
        Err(_) => None,
    }
}

// The cases of the root of a certificate of the night.
fn root_cases<'c>(night: &Instance, certificate: &'c Certificate) -> Option<&'c Cases>
    requires { IsCertificate night.now certificate.now }
    ensures { IfSome result (λ cases. AreCases night.now cases.now) }
{
    let Some(root) = certificate.nodes.as_slice().first() else {
        return None;
    };
    match &root.duals {
        NodeDuals::New(cases) => Some(cases),
        _ => None,
    }
}

// The path of one pin, or of none.
fn path_of(alloc: Global, night: &Instance, pins: &[Block]) -> Option<Path>
    ensures { IfSome result (IsTrailOf night.now) }
{
    let [pin] = pins else {
        return start(alloc, night);
    };
    if !in_range(night, pin) {
        return None;
    }
    match Path::start_with(alloc, night, &[*pin]) {
        Ok(path) => Some(path),
        Err(_) => None,
    }
}

fn start(alloc: Global, night: &Instance) -> Option<Path>
    ensures { IfSome result (IsTrailOf night.now) }
{
    match Path::start(alloc, night) {
        Ok(path) => Some(path),
        Err(_) => None,
    }
}

// The path of the pins of a text.
fn path(alloc: Global, night: &Instance, pins: &[u8]) -> Option<Path>
    ensures { IfSome result (IsTrailOf night.now) }
{
    let rows = joined_rows(alloc, b"pins,1\n", pins)?;
    match read_pins(alloc, night, &rows) {
        Ok(pins) => path_of(alloc, night, &pins),
        Err(_) => None,
    }
}

// Whether cases hold at a path as a word says, and bound it by this.
fn answers(night: &Instance, path: &Path, cases: &Cases, holds: &str, least: i64) -> bool
    requires path { IsTrailOf night.now path.now }
    requires cases { AreCases night.now cases.now }
{
    let word = if cases_hold(night, path, cases) {
        "yes"
    } else {
        "no"
    };
    word == holds && cases_bound(night, path, cases) == least
}

// Whether the cases of a record hold at its path, and bound it, as it says.
fn is_bounded_from(alloc: Global, night: &Instance, path: &Path, row: &Row) -> Option<bool>
    requires { IsTrailOf night.now path.now }
{
    let least = signed(row, 5)?;
    let leaf = leaf(alloc, night, field(row, 3))?;
    match root_cases(night, &leaf) {
        Some(cases) => Some(answers(night, path, cases, word(row, 4), least)),
        None => None,
    }
}

// Whether the cases of a record do so over its night.
fn is_bounded_in(alloc: Global, night: &Instance, row: &Row) -> Option<bool> {
    match path(alloc, night, field(row, 2)) {
        Some(path) => is_bounded_from(alloc, night, &path, row),
        None => None,
    }
}

/// A record is a night, a pin or none, cases as a certificate has them, whether they hold, and what they bound.
pub(crate) fn is_bounded(rt: &(impl Files + AllocGlobal), row: &Row) -> Option<bool> {
    match night(rt, word(row, 1)) {
        Some(night) => is_bounded_in(rt.alloc(), &night, row),
        None => None,
    }
}
