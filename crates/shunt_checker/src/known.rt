// Which cases are known to hold, and need no second test.
ghost use Rattle.std.specs.Prelude.{◌≡◌, ◌↔◌, IsTrue, IfSome, IfNone, false};
ghost use Rattle.std.specs.List.{Contains};

use shunt_base::{Case, Cases, Duals, Price};

/// Whether these values are the same.
fn are_same_values(one: &[i64], other: &[i64]) -> bool
    ensures { IsTrue result ↔ (one.now ≡ other.now) }
{
    one == other
}

/// Whether these prices are the same.
fn are_same_prices(one: &[Price], other: &[Price]) -> bool
    ensures { IsTrue result ↔ (one.now ≡ other.now) }
{
    one == other
}

/// Whether these duals are the same.
fn are_same_duals(one: &Duals, other: &Duals) -> bool
    ensures { IsTrue result ↔ (one.now ≡ other.now) }
{
    are_same_values(one.alpha.as_slice(), other.alpha.as_slice())
        && are_same_values(one.beta.as_slice(), other.beta.as_slice())
        && are_same_prices(one.prices.as_slice(), other.prices.as_slice())
}

/// Whether these cases are the same.
fn is_same_case(one: &Case, other: &Case) -> bool
    ensures { IsTrue result ↔ (one.now ≡ other.now) }
{
    one.to == other.to
        && one.multiplier == other.multiplier
        && are_same_duals(&one.duals, &other.duals)
}

/// Whether one of these cases is the same as another.
fn has_case(cases: &Cases, case: &Case) -> bool
    ensures { IsTrue result ↔ Contains cases.now case.now }
{
    for k in 0..cases.len() {
        if is_same_case(case, cases.get(k)) {
            return true;
        }
    }
    false
}

/// Whether a case is among those that are known to hold.
pub(crate) fn is_known(known: Option<&Cases>, case: &Case) -> bool
    ensures some { IfSome known.entry (λ cases. IsTrue result ↔ Contains cases.now case.now) }
    ensures none { IfNone known.entry (result ≡ false) }
{
    match known {
        Some(cases) => has_case(cases, case),
        None => false,
    }
}
