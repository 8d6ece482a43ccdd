// The records of a demo case, one by one.
ghost use Rattle.std.specs.Prelude.{◌≡◌, ◌≤◌, ◌++◌, ◌∷◌, [], map, decimal, OnOk, IfOk};
ghost use Rattle.std.specs.String.{string_bytes};
ghost use Rattle.core_rows.specs.Written.{IsPlainRow, rows_text};
ghost use Rattle.core_gen.specs.Demo.{demo_prices, end_record, heading_records, instrument_name, instrument_records, path_record, scenario_name, scenario_record};

use core_rows::{Fields, put_row};
use std::alloc::{AllocError, Global};

/// Appends words to a record.
fn push_words(fields: &mut Fields, words: &[&str]) -> Result<(), AllocError>
    ensures { OnOk result (fields.new ≡ fields.old ++ map (λ w. w.now) words.now) }
{
    for word in words {
        fields.push(word.as_bytes())?;
    }
    Ok(())
}

/// Appends numbers to a record.
fn push_numbers(fields: &mut Fields, numbers: &[u16]) -> Result<(), AllocError>
    ensures { OnOk result (fields.new ≡ fields.old ++ map decimal numbers.now) }
{
    for number in numbers {
        fields.push_number(i128::from(*number))?;
    }
    Ok(())
}

/// Prints a record of words and then numbers.
fn put_record(
    alloc: Global,
    out: &mut Vec<u8>,
    words: &[&str],
    numbers: &[u16],
) -> Result<(), AllocError>
    requires { IsPlainRow (map (λ w. w.now) words.now) }
    ensures { OnOk result (out.new.items ≡ out.old.items
        ++ rows_text ((map (λ w. w.now) words.now ++ map decimal numbers.now) ∷ [])) }
{
    let mut fields = Fields::make(alloc);
    push_words(&mut fields, words)?;
    push_numbers(&mut fields, numbers)?;
    put_row(alloc, out, &fields)
}

/// The name of an instrument.
fn instrument_name(alloc: Global, i: u8) -> Result<String, AllocError>
    ensures { IfOk result (λ name. string_bytes name ≡ instrument_name i) }
{
    format!(in alloc; "I{i}")
}

/// The name of a scenario.
fn scenario_name(alloc: Global, k: u8) -> Result<String, AllocError>
    ensures { IfOk result (λ name. string_bytes name ≡ scenario_name k) }
{
    format!(in alloc; "K{k}")
}

/// The prices in a scenario, by house day.
fn prices(k: u8) -> [u16; 7]
    requires { k ≤ 4 }
    ensures { result ≡ demo_prices k }
{
    let k = u16::from(k);
    [
        1000,
        1000 - k,
        1000 - k * 2,
        1000 - k * 3,
        1000 - k * 4,
        1000 - k * 5,
        1000 - k * 6,
    ]
}

/// Prints the version, the house and the market.
pub(crate) fn put_heading(alloc: Global, out: &mut Vec<u8>) -> Result<(), AllocError>
    ensures { OnOk result (out.new.items ≡ out.old.items ++ rows_text heading_records) }
{
    put_record(alloc, out, &["core", "1"], &[])?;
    put_record(alloc, out, &["house", "2024-01-01"], &[5, 6])?;
    put_record(alloc, out, &["market", "MKT"], &[])
}

/// Prints an instrument, its limits and its position.
pub(crate) fn put_instrument(alloc: Global, out: &mut Vec<u8>, i: u8) -> Result<(), AllocError>
    ensures { OnOk result (out.new.items ≡ out.old.items ++ rows_text (instrument_records i)) }
{
    let text = instrument_name(alloc, i)?;
    let name = text.as_str();
    put_record(
        alloc,
        out,
        &["instr", name, "future", "MKT"],
        &[u16::from(i), 1, 1],
    )?;
    put_record(alloc, out, &["limit", name], &[10; 5])?;
    put_record(alloc, out, &["position", name], &[30])
}

/// Prints a scenario.
pub(crate) fn put_scenario(alloc: Global, out: &mut Vec<u8>, k: u8) -> Result<(), AllocError>
    ensures { OnOk result (out.new.items
        ≡ out.old.items ++ rows_text (scenario_record k ∷ [])) }
{
    let text = scenario_name(alloc, k)?;
    put_record(alloc, out, &["scenario", text.as_str()], &[])
}

/// Prints the path of an instrument in a scenario.
pub(crate) fn put_path(alloc: Global, out: &mut Vec<u8>, k: u8, i: u8) -> Result<(), AllocError>
    requires { k ≤ 4 }
    ensures { OnOk result (out.new.items ≡ out.old.items ++ rows_text (path_record k i ∷ [])) }
{
    let scenario = scenario_name(alloc, k)?;
    let instrument = instrument_name(alloc, i)?;
    put_record(
        alloc,
        out,
        &["path", scenario.as_str(), instrument.as_str()],
        &prices(k),
    )
}

/// Prints the end.
pub(crate) fn put_end(alloc: Global, out: &mut Vec<u8>) -> Result<(), AllocError>
    ensures { OnOk result (out.new.items ≡ out.old.items ++ rows_text (end_record ∷ [])) }
{
    put_record(alloc, out, &["end"], &[])
}
