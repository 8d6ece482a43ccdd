// The margin of a case over stores that are refused memory at one pivot.
use core_case::{Case, read_case};
use core_case_tests::books::{TWO_SCENARIOS, TWO_SCENARIOS_CLOSING};
use core_cert::write_cert;
use core_margin::{MarginFault, margin_over};
use core_rules::{Cand, Rule};
use core_run_tests::refuse::Refuse;
use exact_frac::{Frac64, Frac128};
use std::alloc::Global;
use std::test::Fail;

/// A book whose second pivot leaves 128 bits, and whose first leaves 64.
const WIDE: &str = "core,1\nhouse,2024-01-01,1,1\nmarket,MKT\ninstr,X,security,MKT,1000000,1,0\n\
    instr,Y,security,MKT,1000000,1,0\nlimit,X,1\nlimit,Y,1\nscenario,A\n\
    path,A,X,1000000000000,1000000000000\npath,A,Y,1,1\nscenario,B\n\
    path,B,X,999999999999,999999999999\npath,B,Y,1000000000000,1000000000000\n\
    collateral,X,1\ncollateral,Y,1\ncash,1,-1000000000000000\nend\n";

/// The text of the certificate over stores whose A-th pivot at 64 bits, and B-th at 128, has no memory; none of them
/// has where the number is 0. Or the fault.
fn over<const A: u64, const B: u64>(
    alloc: Global,
    case: &Case,
) -> Result<Result<Vec<u8>, MarginFault>, Fail> {
    let rule = Rule::keep(0, |kept: &Cand, next: &Cand| next.var < kept.var);
    match margin_over::<Refuse<Frac64, A>, Refuse<Frac128, B>, _>(alloc, case, &rule, 100_000) {
        Ok(cert) => Ok(Ok(write_cert(alloc, case, &cert)?)),
        Err(fault) => Ok(Err(fault)),
    }
}

#[test]
fn a_run_begins_at_64_bits_and_goes_on_at_128(rt: HostRuntime) -> Result<(), Fail> {
    let alloc = rt.alloc();
    let case = read_case(alloc, TWO_SCENARIOS.as_bytes())?;
    let closing = Ok(Vec::from_slice(alloc, TWO_SCENARIOS_CLOSING.as_bytes())?);
    assert_eq!(rt; over::<1, 0>(alloc, &case)?, Err(MarginFault::NoMemory));
    assert_eq!(rt; over::<4, 0>(alloc, &case)?, Err(MarginFault::NoMemory));
    assert_eq!(rt; over::<5, 0>(alloc, &case)?, closing);
    assert_eq!(rt; over::<0, 1>(alloc, &case)?, closing);
    let wide = read_case(alloc, WIDE.as_bytes())?;
    assert_eq!(rt; over::<0, 1>(alloc, &wide)?, Err(MarginFault::NoMemory));
    assert_eq!(rt;
        over::<0, 0>(alloc, &wide)?,
        Err(MarginFault::Pivot { pivot: 2 })
    );
    Ok(())
}
