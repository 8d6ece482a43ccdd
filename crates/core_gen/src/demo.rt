// The text of a demo case.
ghost use Rattle.std.specs.Prelude.{◌≡◌, ◌≤◌, ◌++◌, ◌∷◌, [], length, OnOk, IfOk};
ghost use Rattle.core_sums.specs.Places.{days_to, each};
ghost use Rattle.core_rows.specs.Fields.{most_bytes};
ghost use Rattle.core_rows.specs.Written.{rows_text};
ghost use Rattle.core_gen.specs.Demo.{demo_text, instrument_records, path_records, scenario_records};
ghost use Rattle.core_gen.specs.Closed.{DemosClose};
ghost use Rattle.core_gen.specs.States.{DemoTextsState};

use crate::record::{put_end, put_heading, put_instrument, put_path, put_scenario};
use std::alloc::{AllocError, Global};

/// Prints the instruments 1 to n, each with its limits and its position.
fn put_instruments(alloc: Global, out: &mut Vec<u8>, n: u8) -> Result<(), AllocError>
    requires { 1 ≤ n }
    ensures { OnOk result (out.new.items
        ≡ out.old.items ++ rows_text (each (days_to n) instrument_records)) }
{
    for i in 1..=n {
        put_instrument(alloc, out, i)?;
    }
    Ok(())
}

/// Prints the paths of the instruments 1 to n in a scenario.
fn put_paths(alloc: Global, out: &mut Vec<u8>, n: u8, k: u8) -> Result<(), AllocError>
    requires least { 1 ≤ n }
    requires scenario { k ≤ 4 }
    ensures { OnOk result (out.new.items ≡ out.old.items ++ rows_text (path_records n k)) }
{
    for i in 1..=n {
        put_path(alloc, out, k, i)?;
    }
    Ok(())
}

/// Prints the scenarios, each with the paths of the instruments 1 to n.
fn put_scenarios(alloc: Global, out: &mut Vec<u8>, n: u8) -> Result<(), AllocError>
    requires { 1 ≤ n }
    ensures { OnOk result (out.new.items
        ≡ out.old.items ++ rows_text (each (days_to 4) (scenario_records n))) }
{
    for k in 1..=4 {
        put_scenario(alloc, out, k)?;
        put_paths(alloc, out, n, k)?;
    }
    Ok(())
}

/// The text of the demo case of `n` futures, 1 to 32: the house from 2024-01-01 with the closing days 1 to 5 and the
/// house days 0 to 6, the market MKT without holidays, and for each i from 1 to `n` a future Ii of multiplier i with a
/// limit of 10 on each closing day and a position of 30. In scenario Kk, for k from 1 to 4, each price is 1000 - k t on
/// house day t. The only error is want of memory.
pub fn demo_case(alloc: Global, n: u8) -> Result<Vec<u8>, AllocError>
    requires least { 1 ≤ n }
    requires most { n ≤ 32 }
    ensures text { IfOk result (λ text. text.items ≡ demo_text n) }
    ensures size { IfOk result (λ text. length text.items ≤ most_bytes) }
{
    let mut out = Vec::new(alloc);
    put_heading(alloc, &mut out)?;
    put_instruments(alloc, &mut out, n)?;
    put_scenarios(alloc, &mut out, n)?;
    put_end(alloc, &mut out)?;
    Ok(out)
}

/// The law of demo cases: the text of each states a well-formed case, and one calendar closes it, ten of each line on
/// each of the days 1 to 3.
pub fn demo_case_law()
    ensures states { DemoTextsState }
    ensures closes { DemosClose }
{}
