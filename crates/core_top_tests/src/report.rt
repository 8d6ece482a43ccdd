// The report of a certificate.
use core_case::read_case;
use core_case_tests::books::{SMALL, SMALL_CLOSING, SWING, TWO_SCENARIOS, TWO_SCENARIOS_CLOSING};
use core_cert::read_cert;
use core_check::check;
use core_report::{ReportFault, report};
use std::alloc::Global;
use std::test::Fail;

/// The report of a certificate of a case, or why there is none.
fn reported(alloc: Global, case: &str, cert: &str) -> Result<Result<Vec<u8>, ReportFault>, Fail> {
    if case.len() > 4_194_304 || cert.len() > 4_194_304 {
        return Err(Fail::from("too long"));
    }
    let case = read_case(alloc, case.as_bytes())?;
    let cert = read_cert(alloc, &case, cert.as_bytes())?;
    match check(alloc, &case, &cert) {
        Ok(()) => Ok(report(alloc, &case, &cert)),
        Err(_) => Err(Fail::from("not valid")),
    }
}

const LIMITS_TOO_SMALL: &str =
    "core,1\nhouse,2024-01-01,5,6\nmarket,MKT\ninstr,IND,future,MKT,1,1,1\n\
limit,IND,10,10,10,10,10\nscenario,FLAT\npath,FLAT,IND,100,100,100,100,100,100,100\nposition,IND,100\nend\n";

const LIMITS_REFUSAL: &str =
    "cert,1\ncannot\nweights,1\nlimit,IND,1,1\nlimit,IND,2,1\nlimit,IND,3,1\nlimit,IND,4,1\n\
limit,IND,5,1\nfull,IND,position,1\nend\n";

const LIMITS_REPORT: &str =
    "report,cannot\nshort,50,1\nfull,IND,position,1,1\nlimit,2024-01-02,IND,1,1\n\
limit,2024-01-03,IND,1,1\nlimit,2024-01-04,IND,1,1\nlimit,2024-01-05,IND,1,1\nlimit,2024-01-08,IND,1,1\nend\n";

const TWO_SCENARIOS_REPORT: &str =
    "report,closes\nloss,16,3\nmargin,16,3\ncharge,6\nclose,2024-01-02,SHR,position,4,9\n\
close,2024-01-03,SHR,position,5,9\nlimit,2024-01-02,SHR,4,9,1\nlimit,2024-01-03,SHR,5,9,1\nledger,A,2024-01-01,0,1,0,1\n\
ledger,A,2024-01-02,32,9,32,9\nledger,A,2024-01-03,10,9,14,3\nledger,A,2024-01-04,-10,1,-16,3\ntop,1,A,2024-01-04,16,3\n\
top,2,B,2024-01-04,16,3\ntop,3,A,2024-01-01,0,1\ntop,4,B,2024-01-01,0,1\ntop,5,B,2024-01-02,-4,3\nend\n";

const TIERS: &str =
    "core,3\nhouse,2024-01-01,1,2\nmarket,MKT\ninstr,IND,future,MKT,1,1,1,0\nlimit,IND,6\ntier,IND,3,10\n\
scenario,DOWN\npath,DOWN,IND,100,90,90\nposition,IND,10\nend\n";

const TIERS_CLOSING: &str =
    "cert,2\ncloses,1\namount,IND,position,1,1,6\namount,IND,position,1,2,4\nloss,112\nmargin,112\n\
weights,1\nscenario,DOWN,2,1\nlimit,IND,1,1,3\nfull,IND,position,13\nend\n";

const TIERS_REPORT: &str =
    "report,closes\nloss,112,1\nmargin,112,1\ncharge,112\nclose,2024-01-02,IND,position,1,6,1\n\
close,2024-01-02,IND,position,2,4,1\nlimit,2024-01-02,IND,1,6,1,6\nlimit,2024-01-02,IND,2,4,1,10\n\
ledger,DOWN,2024-01-01,0,1,0,1\nledger,DOWN,2024-01-02,0,1,0,1\nledger,DOWN,2024-01-03,-112,1,-112,1\n\
top,1,DOWN,2024-01-03,112,1\ntop,2,DOWN,2024-01-01,0,1\ntop,3,DOWN,2024-01-02,0,1\nend\n";

pub(crate) const SMALL_REPORT: &str =
    "report,closes\nloss,100,1\nmargin,100,1\ncharge,100\nclose,2024-01-02,IND,position,10,1\n\
limit,2024-01-02,IND,10,1,10\nledger,DOWN,2024-01-01,0,1,0,1\nledger,DOWN,2024-01-02,0,1,0,1\n\
ledger,DOWN,2024-01-03,-100,1,-100,1\ntop,1,DOWN,2024-01-03,100,1\ntop,2,DOWN,2024-01-01,0,1\ntop,3,DOWN,2024-01-02,0,1\nend\n";

pub(crate) const SWING_CLOSING: &str = "cert,1\ncloses,10000000000000000000000000\n\
amount,IND,position,2,100000000000000000000000000\nloss,100000000000000000000000000000000000000\n\
margin,100000000000000000000000000000000000000\nweights,1\nscenario,SWING,2,1\nfull,IND,position,1000000000000\nend\n";

const EXPIRING: &str = "core,2\nhouse,2024-01-01,5,6\nmarket,MKT\ninstr,IND,future,MKT,1,1,1,5\n\
limit,IND,10,10,10,10,10\npool,ALL,10\nmember,ALL,IND,1\nscenario,FLAT\npath,FLAT,IND,100,100,100,100,100,100,100\n\
position,IND,100\nend\n";

const EXPIRING_CLOSING: &str =
    "cert,1\ncloses,1\namount,IND,position,1,10\namount,IND,position,2,10\n\
amount,IND,position,3,10\namount,IND,position,4,10\namount,IND,position,5,60\nloss,0\nmargin,0\nweights,1\n\
scenario,FLAT,0,1\nend\n";

const EXPIRING_REPORT: &str =
    "report,closes\nloss,0,1\nmargin,0,1\ncharge,0\nclose,2024-01-02,IND,position,10,1\n\
close,2024-01-03,IND,position,10,1\nclose,2024-01-04,IND,position,10,1\nclose,2024-01-05,IND,position,10,1\n\
close,2024-01-08,IND,position,60,1\nlimit,2024-01-02,IND,10,1,10\nlimit,2024-01-03,IND,10,1,10\n\
limit,2024-01-04,IND,10,1,10\nlimit,2024-01-05,IND,10,1,10\npool,2024-01-02,ALL,10,1,10\npool,2024-01-03,ALL,10,1,10\n\
pool,2024-01-04,ALL,10,1,10\npool,2024-01-05,ALL,10,1,10\nledger,FLAT,2024-01-01,0,1,0,1\n\
ledger,FLAT,2024-01-02,0,1,0,1\nledger,FLAT,2024-01-03,0,1,0,1\nledger,FLAT,2024-01-04,0,1,0,1\n\
ledger,FLAT,2024-01-05,0,1,0,1\nledger,FLAT,2024-01-08,0,1,0,1\nledger,FLAT,2024-01-09,0,1,0,1\n\
top,1,FLAT,2024-01-01,0,1\ntop,2,FLAT,2024-01-02,0,1\ntop,3,FLAT,2024-01-03,0,1\ntop,4,FLAT,2024-01-04,0,1\n\
top,5,FLAT,2024-01-05,0,1\nend\n";

#[test]
fn a_certificate_is_reported(rt: HostRuntime) -> Result<(), Fail> {
    let alloc = rt.alloc();
    for (case, cert, expected) in [
        (SMALL, SMALL_CLOSING, SMALL_REPORT),
        (TWO_SCENARIOS, TWO_SCENARIOS_CLOSING, TWO_SCENARIOS_REPORT),
        (TIERS, TIERS_CLOSING, TIERS_REPORT),
        (EXPIRING, EXPIRING_CLOSING, EXPIRING_REPORT),
        (LIMITS_TOO_SMALL, LIMITS_REFUSAL, LIMITS_REPORT),
    ] {
        let text = reported(alloc, case, cert)??;
        assert_eq!(rt; text.as_slice(), expected.as_bytes(), "of {expected}");
    }
    Ok(())
}

#[test]
fn a_report_stops_where_a_replay_leaves(rt: HostRuntime) -> Result<(), Fail> {
    let fault = reported(rt.alloc(), SWING, SWING_CLOSING)?.err();
    let expected = Some(ReportFault::TooWide {
        scenario: 0,
        day: 2,
    });
    assert_eq!(rt; fault, expected);
    Ok(())
}
