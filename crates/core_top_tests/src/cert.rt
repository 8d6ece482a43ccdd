// The text of a certificate. The rows of tests/rows show each fault of one.
use core_case::read_case;
use core_case_tests::books::{
    DIP, LIMIT_OF_NINE, LIMIT_REFUSAL, SWING, TWO_SCENARIOS, TWO_SCENARIOS_CLOSING,
};
use core_cert::{CertFault, read_cert, write_cert};
use std::alloc::Global;
use std::test::Fail;

/// Two instruments, two scenarios, a pool and both sides, with two closing days.
const LARGE: &str = "core,1\nhouse,2024-01-01,2,3\nmarket,MKT\ninstr,IND,future,MKT,1,1,1\n\
    instr,BND,security,MKT,1,1,0\nlimit,IND,10,10\nlimit,BND,10,10\npool,ALL,20\nmember,ALL,IND,1\n\
    scenario,UP\nscenario,DOWN\npath,UP,IND,1,2,3,4\npath,UP,BND,9,9,9,9\npath,DOWN,IND,4,3,2,1\n\
    path,DOWN,BND,9,8,7,6\nposition,IND,10\ncollateral,BND,5\nend\n";

/// The reader judges neither the signs nor what the numbers show.
const EVERY_KIND: &str =
    "cert,1\ncloses,2\namount,IND,position,1,4\namount,IND,position,2,-6\namount,BND,collateral,2,5\n\
    loss,-3\nmargin,0\nweights,-7\nscenario,UP,3,2\nscenario,DOWN,0,5\nlimit,IND,2,1\nlimit,BND,1,9\n\
    pool,ALL,1,3\nfull,IND,position,-4\nfull,BND,collateral,1\nend\n";

const SWING_CLOSING: &str = "cert,1\ncloses,10000000000000000000000000\n\
    amount,IND,position,2,100000000000000000000000000\n\
    loss,100000000000000000000000000000000000000\n\
    margin,100000000000000000000000000000000000000\nweights,1\nscenario,SWING,2,1\n\
    full,IND,position,1000000000000\nend\n";

/// Reads a case and a certificate of it, and writes the certificate back.
fn written_back(alloc: Global, case: &str, text: &str) -> Result<Vec<u8>, Fail> {
    if case.len() > 4_194_304 || text.len() > 4_194_304 {
        return Err(Fail::from("too long"));
    }
    let case = read_case(alloc, case.as_bytes())?;
    let cert = read_cert(alloc, &case, text.as_bytes())?;
    Ok(write_cert(alloc, &case, &cert)?)
}

#[test]
fn certificates_are_written_back(rt: HostRuntime) -> Result<(), Fail> {
    for (case, text) in [
        (LARGE, EVERY_KIND),
        (SWING, SWING_CLOSING),
        (TWO_SCENARIOS, TWO_SCENARIOS_CLOSING),
        (LIMIT_OF_NINE, LIMIT_REFUSAL),
    ] {
        let written = written_back(rt.alloc(), case, text)?;
        assert_eq!(rt; written.as_slice(), text.as_bytes(), "of {text}");
    }
    Ok(())
}

#[test]
fn a_case_is_no_certificate(rt: HostRuntime) -> Result<(), Fail> {
    let case = read_case(rt.alloc(), DIP.as_bytes())?;
    let fault = read_cert(rt.alloc(), &case, DIP.as_bytes()).err();
    assert!(rt; matches!(fault, Some(CertFault::Bad { row: 1, code: 1 })));
    Ok(())
}
