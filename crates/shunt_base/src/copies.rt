// Copies of names, duals and cases.
ghost use Rattle.std.specs.Prelude.{◌≡◌, IfOk};

use crate::duals::{Case, Cases, Duals};
use crate::name::Name;
use shunt_lists::Items;
use std::alloc::{AllocError, Global};

/// The same name again. Err is want of memory.
pub fn copy_name(alloc: Global, name: &Name) -> Result<Name, AllocError>
    ensures { IfOk result (λ n. n ≡ name.now) }
{
    Name::new(alloc, name.bytes())
}

/// The same duals again. Err is want of memory.
pub fn copy_duals(alloc: Global, duals: &Duals) -> Result<Duals, AllocError>
    ensures { IfOk result (λ d. d ≡ duals.now) }
{
    let alpha = Vec::from_slice(alloc, duals.alpha.as_slice())?;
    let beta = Vec::from_slice(alloc, duals.beta.as_slice())?;
    let prices = Vec::from_slice(alloc, duals.prices.as_slice())?;
    Ok(Duals {
        alpha: Items::from_vec(alpha),
        beta: Items::from_vec(beta),
        prices: Items::from_vec(prices),
    })
}

fn copy_case(alloc: Global, case: &Case) -> Result<Case, AllocError>
    ensures { IfOk result (λ c. c ≡ case.now) }
{
    let duals = copy_duals(alloc, &case.duals)?;
    Ok(Case {
        to: case.to,
        multiplier: case.multiplier,
        duals,
    })
}

/// The same cases again. Err is want of memory.
pub fn copy_cases(alloc: Global, cases: &Cases) -> Result<Cases, AllocError>
    ensures { IfOk result (λ c. c ≡ cases.now) }
{
    let count = cases.len();
    let first = copy_case(alloc, cases.get(0))?;
    if count == 1 {
        return Ok(Cases::one(first));
    }
    let second = copy_case(alloc, cases.get(1))?;
    Ok(Cases::two(first, second))
}
