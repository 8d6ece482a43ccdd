// The text of a certificate, kind by kind.
ghost use Rattle.std.specs.Prelude.{◌≡◌, ◌<◌, ◌≤◌, ◌++◌, OnOk, IfOk, length};
ghost use Rattle.core_rows.specs.Written.{rows_text};
ghost use Rattle.core_model.specs.Fits.{CalendarFits, Fits, IsWithin128, WeightsFit, IsPlainlyRefusing};
ghost use Rattle.core_model.specs.Closing.{IsClosingDay};
ghost use Rattle.core_model.specs.Layout.{plan_of};
ghost use Rattle.core_rows.specs.Fields.{most_bytes};
ghost use Rattle.core_cert.specs.Written.{amount_records, cert_text, closing_records, constraint_records, day_amounts, day_limits, full_records, instrument_limits, limit_records, line_amounts, pool_days, pool_records, refusing_records, scenario_days, scenario_records};

use crate::record::{put_amount, put_day, put_first, put_full, put_limit, put_number, put_word};
use core_book::Case;
use core_model::{Calendar, Cert, Weights};
use std::alloc::{AllocError, Global};

/// Prints the amounts of a line on a day, by tier.
fn put_day_amounts(
    alloc: Global,
    out: &mut Vec<u8>,
    case: &Case,
    calendar: &Calendar,
    l: usize,
    u: u8,
) -> Result<(), AllocError>
    requires line { l < length case.now.lines }
    requires day { IsClosingDay case.now u }
    requires fits { CalendarFits case.now calendar.now }
    ensures { OnOk result (out.new.items ≡ out.old.items
        ++ rows_text (day_amounts case.now (plan_of case.now calendar.now) l u)) }
{
    for j in 1..=case.tiers() {
        put_amount(alloc, out, case, l, u, j, calendar.amount(case, l, u, j))?;
    }
    Ok(())
}

/// Prints the amounts of a line, by closing day.
fn put_line_amounts(
    alloc: Global,
    out: &mut Vec<u8>,
    case: &Case,
    calendar: &Calendar,
    l: usize,
) -> Result<(), AllocError>
    requires line { l < length case.now.lines }
    requires fits { CalendarFits case.now calendar.now }
    ensures { OnOk result (out.new.items ≡ out.old.items
        ++ rows_text (line_amounts case.now (plan_of case.now calendar.now) l)) }
{
    for u in 1..=case.horizon() {
        put_day_amounts(alloc, out, case, calendar, l, u)?;
    }
    Ok(())
}

/// Prints the amounts of every line.
fn put_amounts(
    alloc: Global,
    out: &mut Vec<u8>,
    case: &Case,
    calendar: &Calendar,
) -> Result<(), AllocError>
    requires { CalendarFits case.now calendar.now }
    ensures { OnOk result (out.new.items ≡ out.old.items
        ++ rows_text (amount_records case.now (plan_of case.now calendar.now))) }
{
    for l in 0..case.lines() {
        put_line_amounts(alloc, out, case, calendar, l)?;
    }
    Ok(())
}

/// Prints the weights of a scenario, by house day.
fn put_scenario_days(
    alloc: Global,
    out: &mut Vec<u8>,
    case: &Case,
    weights: &Weights,
    k: usize,
) -> Result<(), AllocError>
    requires scenario { k < length case.now.scenarios }
    requires fits { WeightsFit case.now weights.now }
    ensures { OnOk result (out.new.items
        ≡ out.old.items ++ rows_text (scenario_days case.now weights.now k)) }
{
    for t in 0..=case.last() {
        let weight = weights.scenario_on(case, k, t);
        put_day(alloc, out, b"scenario", case.scenario(k), t, weight)?;
    }
    Ok(())
}

/// Prints the weights of every scenario.
fn put_scenarios(
    alloc: Global,
    out: &mut Vec<u8>,
    case: &Case,
    weights: &Weights,
) -> Result<(), AllocError>
    requires { WeightsFit case.now weights.now }
    ensures { OnOk result (out.new.items
        ≡ out.old.items ++ rows_text (scenario_records case.now weights.now)) }
{
    for k in 0..case.scenarios() {
        put_scenario_days(alloc, out, case, weights, k)?;
    }
    Ok(())
}

/// Prints the weights of an instrument's limits on a day, by tier.
fn put_day_limits(
    alloc: Global,
    out: &mut Vec<u8>,
    case: &Case,
    weights: &Weights,
    i: usize,
    u: u8,
) -> Result<(), AllocError>
    requires instrument { i < length case.now.instruments }
    requires day { IsClosingDay case.now u }
    requires fits { WeightsFit case.now weights.now }
    ensures { OnOk result (out.new.items
        ≡ out.old.items ++ rows_text (day_limits case.now weights.now i u)) }
{
    for j in 1..=case.tiers() {
        put_limit(alloc, out, case, i, u, j, weights.limit_on(case, i, u, j))?;
    }
    Ok(())
}

/// Prints the weights of an instrument's limits, by closing day.
fn put_instrument_limits(
    alloc: Global,
    out: &mut Vec<u8>,
    case: &Case,
    weights: &Weights,
    i: usize,
) -> Result<(), AllocError>
    requires instrument { i < length case.now.instruments }
    requires fits { WeightsFit case.now weights.now }
    ensures { OnOk result (out.new.items
        ≡ out.old.items ++ rows_text (instrument_limits case.now weights.now i)) }
{
    for u in 1..=case.horizon() {
        put_day_limits(alloc, out, case, weights, i, u)?;
    }
    Ok(())
}

/// Prints the weights of every instrument's limits.
fn put_limits(
    alloc: Global,
    out: &mut Vec<u8>,
    case: &Case,
    weights: &Weights,
) -> Result<(), AllocError>
    requires { WeightsFit case.now weights.now }
    ensures { OnOk result (out.new.items
        ≡ out.old.items ++ rows_text (limit_records case.now weights.now)) }
{
    for i in 0..case.instruments() {
        put_instrument_limits(alloc, out, case, weights, i)?;
    }
    Ok(())
}

/// Prints the weights of a pool's cap, by closing day.
fn put_pool_days(
    alloc: Global,
    out: &mut Vec<u8>,
    case: &Case,
    weights: &Weights,
    p: usize,
) -> Result<(), AllocError>
    requires pool { p < length case.now.pools }
    requires fits { WeightsFit case.now weights.now }
    ensures { OnOk result (out.new.items
        ≡ out.old.items ++ rows_text (pool_days case.now weights.now p)) }
{
    for u in 1..=case.horizon() {
        let weight = weights.pool_on(case, p, u);
        put_day(alloc, out, b"pool", case.pool(p).name, u, weight)?;
    }
    Ok(())
}

/// Prints the weights of every pool's caps.
fn put_pools(
    alloc: Global,
    out: &mut Vec<u8>,
    case: &Case,
    weights: &Weights,
) -> Result<(), AllocError>
    requires { WeightsFit case.now weights.now }
    ensures { OnOk result (out.new.items
        ≡ out.old.items ++ rows_text (pool_records case.now weights.now)) }
{
    for p in 0..case.pools() {
        put_pool_days(alloc, out, case, weights, p)?;
    }
    Ok(())
}

/// Prints the weights of every line's full closing.
fn put_fulls(
    alloc: Global,
    out: &mut Vec<u8>,
    case: &Case,
    weights: &Weights,
) -> Result<(), AllocError>
    requires { WeightsFit case.now weights.now }
    ensures { OnOk result (out.new.items
        ≡ out.old.items ++ rows_text (full_records case.now weights.now)) }
{
    for l in 0..case.lines() {
        put_full(alloc, out, case, l, weights.full_of(case, l))?;
    }
    Ok(())
}

/// Prints the weights of the limits, the pools and the lines.
fn put_constraints(
    alloc: Global,
    out: &mut Vec<u8>,
    case: &Case,
    weights: &Weights,
) -> Result<(), AllocError>
    requires { WeightsFit case.now weights.now }
    ensures { OnOk result (out.new.items
        ≡ out.old.items ++ rows_text (constraint_records case.now weights.now)) }
{
    put_limits(alloc, out, case, weights)?;
    put_pools(alloc, out, case, weights)?;
    put_fulls(alloc, out, case, weights)
}

/// Prints a calendar, its loss with the margin, and its weights.
fn put_closing(
    alloc: Global,
    out: &mut Vec<u8>,
    case: &Case,
    calendar: &Calendar,
    loss: i128,
    weights: &Weights,
) -> Result<(), AllocError>
    requires calendar { CalendarFits case.now calendar.now }
    requires loss { IsWithin128 loss }
    requires weights { WeightsFit case.now weights.now }
    ensures { OnOk result (out.new.items
        ≡ out.old.items ++ rows_text (closing_records case.now
        (plan_of case.now calendar.now) loss weights.now)) }
{
    put_number(alloc, out, b"closes", calendar.den)?;
    put_amounts(alloc, out, case, calendar)?;
    put_number(alloc, out, b"loss", loss)?;
    put_number(alloc, out, b"margin", loss.max(0))?;
    put_number(alloc, out, b"weights", weights.den)?;
    put_scenarios(alloc, out, case, weights)?;
    put_constraints(alloc, out, case, weights)
}

/// Prints weights that refuse every calendar.
fn put_refusal(
    alloc: Global,
    out: &mut Vec<u8>,
    case: &Case,
    weights: &Weights,
) -> Result<(), AllocError>
    requires { WeightsFit case.now weights.now }
    ensures { OnOk result (out.new.items
        ≡ out.old.items ++ rows_text (refusing_records case.now weights.now)) }
{
    put_word(alloc, out, b"cannot")?;
    put_number(alloc, out, b"weights", weights.den)?;
    put_constraints(alloc, out, case, weights)
}

/// The text of a certificate that fits the case: records in one order, each ended by a line feed. A number that is 0
/// has no record, nor has a scenario's weight where the certificate refuses. Where an instrument of the case has more
/// than one tier, the version is 2 and amounts and limits name their tier, else it is 1 and they name none. The text
/// takes at most 4,194,304 bytes. The only error is want of memory.
pub fn write_cert(alloc: Global, case: &Case, cert: &Cert) -> Result<Vec<u8>, AllocError>
    requires fits { Fits case.now cert.now }
    requires refusing { IsPlainlyRefusing cert.now }
    ensures text { IfOk result (λ text. text.items ≡ cert_text case.now cert.now) }
    ensures size { IfOk result (λ text. length text.items ≤ most_bytes) }
{
    // Every case keeps the bounds that the size of the text stands on.
    case.well_formed();
    let mut out = Vec::new(alloc);
    put_first(alloc, &mut out, case)?;
    match cert {
        Cert::Closes {
            calendar,
            loss,
            weights,
        } => put_closing(alloc, &mut out, case, calendar, *loss, weights)?,
        Cert::Cannot { weights } => put_refusal(alloc, &mut out, case, weights)?,
    }
    put_word(alloc, &mut out, b"end")?;
    Ok(out)
}
