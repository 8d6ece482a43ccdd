// Demo cases.
use core_case::read_case;
use core_gen::demo_case;
use std::alloc::Global;
use std::process::Abort;
use std::test::Fail;

/// The demo case of one instrument.
const ONE: &str =
    "core,1\nhouse,2024-01-01,5,6\nmarket,MKT\ninstr,I1,future,MKT,1,1,1\nlimit,I1,10,10,10,10,10\nposition,I1,30\n\
    scenario,K1\npath,K1,I1,1000,999,998,997,996,995,994\n\
    scenario,K2\npath,K2,I1,1000,998,996,994,992,990,988\n\
    scenario,K3\npath,K3,I1,1000,997,994,991,988,985,982\n\
    scenario,K4\npath,K4,I1,1000,996,992,988,984,980,976\nend\n";

#[test]
fn a_demo_case_is_printed(rt: HostRuntime) -> Result<(), Fail> {
    let text = demo_case(rt.alloc(), 1)?;
    assert_eq!(rt; text.as_slice(), ONE.as_bytes());
    Ok(())
}

fn check_sizes(rt: &impl Abort, alloc: Global, n: u8) -> Result<(), Fail> {
    assert!(rt; 1 <= n && n <= 32);
    let text = demo_case(alloc, n)?;
    let case = read_case(alloc, &text)?;
    let count = usize::from(n);
    assert!(rt; case.horizon() == 5 && case.last() == 6);
    assert!(rt; case.scenarios() == 4 && case.lines() == count && case.instruments() == count);
    assert!(rt; case.instrument(count - 1).mult == i64::from(n));
    Ok(())
}

#[test]
fn demo_cases_are_read_back(rt: HostRuntime) -> Result<(), Fail> {
    for n in [1, 3, 32] {
        check_sizes(&rt, rt.alloc(), n)?;
    }
    Ok(())
}
