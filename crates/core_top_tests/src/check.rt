// The check of a certificate. The rows of tests/rows show each condition of it.
use core_case::read_case;
use core_case_tests::books::{LIMIT_REFUSAL, SMALL, SMALL_CLOSING};
use core_cert::read_cert;
use core_check::{CheckFault, check, showing_law, valid_law, weights_bound, weights_refuse};
use std::test::Fail;

#[test]
fn weights_refuse_where_their_bound_is_above_nought(rt: HostRuntime) -> Result<(), Fail> {
    let alloc = rt.alloc();
    let case = read_case(alloc, SMALL.as_bytes())?;
    let closing = read_cert(alloc, &case, SMALL_CLOSING.as_bytes())?;
    let refusal = read_cert(alloc, &case, LIMIT_REFUSAL.as_bytes())?;
    assert_eq!(rt; check(alloc, &case, &closing), Ok(()));
    let expected = CheckFault::No {
        condition: 12,
        place: 1,
    };
    assert_eq!(rt; check(alloc, &case, &refusal), Err(expected));
    weights_bound();
    weights_refuse();
    valid_law();
    showing_law();
    Ok(())
}
