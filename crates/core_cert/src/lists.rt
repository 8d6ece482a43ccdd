// The names of a case, as lists.
ghost use Rattle.std.specs.Prelude.{◌≡◌, IfOk};
ghost use Rattle.core_cert.specs.Faults.{instrument_names, pool_names};

use core_book::Case;
use core_rows::Name;
use std::alloc::{AllocError, Global};

/// The names of a case, each list in the order of the case.
#[derive(Drop)]
pub(crate) struct NameLists {
    pub(crate) instruments: Vec<Name>,
    pub(crate) scenarios: Vec<Name>,
    pub(crate) pools: Vec<Name>,
}

/// The names of the instruments, in order.
fn instrument_names(alloc: Global, case: &Case) -> Result<Vec<Name>, AllocError>
    ensures { IfOk result (λ v. v.items ≡ instrument_names case.now) }
{
    let mut names = Vec::with_capacity(alloc, case.instruments())?;
    for i in 0..case.instruments() {
        names.push(case.instrument(i).name)?;
    }
    Ok(names)
}

/// The names of the scenarios, in order.
fn scenario_names(alloc: Global, case: &Case) -> Result<Vec<Name>, AllocError>
    ensures { IfOk result (λ v. v.items ≡ case.now.scenarios) }
{
    let mut names = Vec::with_capacity(alloc, case.scenarios())?;
    for k in 0..case.scenarios() {
        names.push(case.scenario(k))?;
    }
    Ok(names)
}

/// The names of the pools, in order.
fn pool_names(alloc: Global, case: &Case) -> Result<Vec<Name>, AllocError>
    ensures { IfOk result (λ v. v.items ≡ pool_names case.now) }
{
    let mut names = Vec::with_capacity(alloc, case.pools())?;
    for p in 0..case.pools() {
        names.push(case.pool(p).name)?;
    }
    Ok(names)
}

impl NameLists {
    /// The names of a case.
    pub(crate) fn of_case(alloc: Global, case: &Case) -> Result<NameLists, AllocError>
        ensures instruments { IfOk result (λ lists.
            lists.instruments.items ≡ instrument_names case.now) }
        ensures scenarios { IfOk result (λ lists. lists.scenarios.items ≡ case.now.scenarios) }
        ensures pools { IfOk result (λ lists. lists.pools.items ≡ pool_names case.now) }
    {
        Ok(NameLists {
            instruments: instrument_names(alloc, case)?,
            scenarios: scenario_names(alloc, case)?,
            pools: pool_names(alloc, case)?,
        })
    }
}
