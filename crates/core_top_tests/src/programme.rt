// The programme of a case by name.
use core_case::read_case;
use core_case_tests::books::TWO_SCENARIOS;
use core_flows::Flows;
use core_lp::{Built, build, ranks_of, variables};
use core_run_tests::programmes::TWO_SCENARIOS as ROWS;
use std::alloc::Global;
use std::test::Fail;

/// The names of its columns and of its rows, in their order.
const COLS: [&str; 3] = [
    "Close { line: 0, day: 1, tier: 1 }",
    "Close { line: 0, day: 2, tier: 1 }",
    "Loss",
];

const NAMES: [&str; 10] = [
    "Full { line: 0 }",
    "Back { line: 0 }",
    "Limit { instrument: 0, day: 1, tier: 1 }",
    "Limit { instrument: 0, day: 2, tier: 1 }",
    "Loss { scenario: 0, day: 1 }",
    "Loss { scenario: 0, day: 2 }",
    "Loss { scenario: 0, day: 3 }",
    "Loss { scenario: 1, day: 1 }",
    "Loss { scenario: 1, day: 2 }",
    "Loss { scenario: 1, day: 3 }",
];

/// What is wrong with the columns, the rows or their numbers.
fn fault_of(alloc: Global, built: &Built) -> Result<(), Fail> {
    let programme = built.programme();
    if programme.cols() != COLS.len() || programme.rows() != NAMES.len() {
        return Err(Fail::from("another size"));
    }
    for j in 0..COLS.len() {
        if format!(in alloc; "{:?}", built.col(j))?.as_str() != COLS[j] {
            return Err(Fail::from("another column"));
        }
    }
    for i in 0..NAMES.len() {
        if format!(in alloc; "{:?}", built.row(i))?.as_str() != NAMES[i] {
            return Err(Fail::from("another row"));
        }
        if programme.bound(i) != ROWS[i].1 {
            return Err(Fail::from("another bound"));
        }
        for j in 0..COLS.len() {
            if programme.entry(i, j) != ROWS[i].0[j] {
                return Err(Fail::from("another number"));
            }
        }
    }
    Ok(())
}

#[test]
fn names_and_numbers_of_two_scenarios(rt: HostRuntime) -> Result<(), Fail> {
    let alloc = rt.alloc();
    let case = read_case(alloc, TWO_SCENARIOS.as_bytes())?;
    let flows = Flows::make(alloc, &case)?;
    let built = build(alloc, &case, &flows)?;
    fault_of(alloc, &built)?;
    assert_eq!(rt; variables(&case), 13);
    let ranks = ranks_of(alloc, &built, *b"CFBLPS")?;
    assert_eq!(rt; ranks.len(), 13);
    Ok(())
}
