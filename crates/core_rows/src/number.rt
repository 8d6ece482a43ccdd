// The whole numbers that fields write.
ghost use Rattle.std.specs.Prelude.{◌≡◌, ◌≤◌, ◌+◌, ◌-◌, ◌*◌, ◌^◌, if◌then◌else◌, Some, None, IfSome, length};
ghost use Rattle.std.specs.List.{list_all};
ghost use Rattle.core_rows.specs.Fields.{all_digits, at_most, digits_value, is_digit, positive, whole, wide};

/// The number that a field of at most 19 digits writes. It fits 64 bits, so no digit is tested against the width.
fn short_digits(field: &[u8]) -> Option<u64>
    requires { length field.now ≤ 19 }
    ensures { result ≡ all_digits field.now }
{
    let mut value = 0u64;
    for b in field {
        if !b.is_ascii_digit() {
            return None;
        }
        value = value * 10 + u64::from(*b - b'0');
    }
    Some(value)
}

/// The value with one more digit at its end, where it is at most the greatest.
fn with_digit(value: u128, digit: u8, greatest: u128) -> Option<u128>
    ensures { result ≡ at_most greatest (Some (value * 10 + digit)) }
{
    let value = value.checked_mul(10)?.checked_add(u128::from(digit))?;
    if value <= greatest { Some(value) } else { None }
}

/// The number that a field of any number of digits writes, where it is at most the greatest.
fn long_digits(field: &[u8], greatest: u128) -> Option<u128>
    ensures value { result
        ≡ (if list_all is_digit field.now
        then at_most greatest (Some (digits_value field.now)) else None) }
    ensures bound { IfSome result (λ n. n ≤ greatest) }
{
    let mut value = 0u128;
    for b in field {
        if !b.is_ascii_digit() {
            return None;
        }
        value = with_digit(value, *b - b'0', greatest)?;
    }
    Some(value)
}

/// The number that a field of digits writes, where it is at most the greatest.
pub(crate) fn digits(field: &[u8], greatest: u128) -> Option<u128>
    ensures value { result
        ≡ (if list_all is_digit field.now
        then at_most greatest (Some (digits_value field.now)) else None) }
    ensures bound { IfSome result (λ n. n ≤ greatest) }
{
    if field.len() > 19 {
        return long_digits(field, greatest);
    }
    let value = u128::from(short_digits(field)?);
    if value <= greatest { Some(value) } else { None }
}

/// The number that digits write, the first of which is not 0, where it is at most the greatest.
fn positive(field: &[u8], greatest: u128) -> Option<u128>
    ensures value { result ≡ at_most greatest (positive field.now) }
    ensures bound { IfSome result (λ n. n ≤ greatest) }
{
    match field.first() {
        None | Some(b'0') => None,
        _ => digits(field, greatest),
    }
}

/// The number that digits write, the first of which is not 0, where it is at most 2^63 - 1. A number of more than 19
/// digits is above that.
fn short_positive(field: &[u8]) -> Option<u64>
    ensures value { result ≡ at_most (2 ^ 63 - 1) (positive field.now) }
    ensures bound { IfSome result (λ n. n ≤ 2 ^ 63 - 1) }
{
    if field.len() > 19 {
        return None;
    }
    match field {
        [] | [b'0', ..] => None,
        _ => {
            let value = short_digits(field)?;
            if value <= i64::MAX as u64 {
                Some(value)
            } else {
                None
            }
        }
    }
}

/// The number that a field writes: `0`, or an optional `-`, a digit 1 to 9 and any digits. None exactly where the
/// field is outside this grammar, or the absolute value is above 2^63 - 1.
pub fn whole(field: &[u8]) -> Option<i64>
    ensures { result ≡ whole field.now }
{
    match field {
        [b'-', digits @ ..] => {
            let n = short_positive(digits)?;
            Some(-(n as i64))
        }
        [b'0'] => Some(0),
        _ => {
            let n = short_positive(field)?;
            Some(n as i64)
        }
    }
}

/// The number that a field writes, as `whole`, with an absolute value of at most 2^127 - 1.
pub fn wide(field: &[u8]) -> Option<i128>
    ensures { result ≡ wide field.now }
{
    match field {
        [b'-', digits @ ..] => {
            let n = positive(digits, i128::MAX as u128)?;
            Some(-(n as i128))
        }
        [b'0'] => Some(0),
        _ => {
            let n = positive(field, i128::MAX as u128)?;
            Some(n as i128)
        }
    }
}
