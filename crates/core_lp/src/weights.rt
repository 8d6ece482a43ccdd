// What the pools weigh the instruments with.
ghost use Rattle.std.specs.Prelude.{◌≡◌, ◌^◌, ◌<◌, ◌≤◌, length, map, unsigned_abs, IfOk};
ghost use Rattle.core_sums.specs.Places.{below};
ghost use Rattle.core_book.specs.WellFormed.{IsCase};
ghost use Rattle.core_lp.specs.CaseProgramme.{weight_in, weights_in, weights_of};

use core_book::Case;
use std::alloc::{AllocError, Global};

/// By instrument, the weight that a pool gives it, 0 where it is no member.
fn weights_in(alloc: Global, case: &Case, pool: usize) -> Result<Vec<i64>, AllocError>
    requires { IsCase case.now }
    ensures { IfOk result (λ weights. weights.items ≡ weights_in case.now pool) }
{
    let mut weights = vec![in alloc; 0i64; case.instruments()]?;
    for m in 0..case.members() {
        let member = case.member(m);
        if member.pool == pool {
            weights[member.instrument] = member.weight;
        }
    }
    Ok(weights)
}

/// The weights of all pools, by pool and instrument.
pub(crate) fn weights(alloc: Global, case: &Case) -> Result<Vec<Vec<i64>>, AllocError>
    requires { IsCase case.now }
    ensures { IfOk result (λ all. map (λ list. list.items) all.items ≡ weights_of case.now) }
{
    let mut all = Vec::with_capacity(alloc, case.pools())?;
    for pool in 0..case.pools() {
        all.push(weights_in(alloc, case, pool)?)?;
    }
    Ok(all)
}

/// The weight that a pool gives an instrument: at most 10^6.
pub(crate) fn weight(case: &Case, all: &[Vec<i64>], pool: usize, instrument: usize) -> i64
    requires kept { IsCase case.now }
    requires all { map (λ list. list.items) all.now ≡ weights_of case.now }
    requires pool { pool < length case.now.pools }
    requires instrument { instrument < length case.now.instruments }
    ensures value { result ≡ weight_in case.now pool instrument }
    ensures small { unsigned_abs result ≤ 10 ^ 6 }
{
    all[pool][instrument]
}
