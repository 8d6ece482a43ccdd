// The prices of a path, which are judged as they are read.
ghost use Rattle.std.specs.Prelude.{◌≡◌, true, None, IfOk, IfSome, drop};
ghost use Rattle.std.specs.List.{list_all};
ghost use Rattle.core_case.specs.Kinds.{heading_view};
ghost use Rattle.core_case.specs.Faults.{is_price, shape_fault};
ghost use Rattle.core_case.specs.Stated.{numbers_from};
ghost use Rattle.core_case.specs.declared.kinds.RecordKind.TheVariants.{Path};

use crate::forms::LARGEST_PRICE;
use crate::heading::Heading;
use crate::kinds::{RecordKind, is_kind};
use core_rows::{Fields, name_of, whole};
use std::alloc::{AllocError, Global};

/// The numbers in the fields of a record from the third after the kind on, None where one of these fields is no price.
fn prices_from(alloc: Global, row: &Fields) -> Result<Option<Vec<i64>>, AllocError>
    ensures sound { IfOk result (λ found. IfSome found (λ _.
        list_all is_price (drop 3 row.now) ≡ true)) }
    ensures stated { IfOk result (λ found. IfSome found (λ prices.
        prices.items ≡ numbers_from 3 row.now)) }
{
    let mut prices = Vec::with_capacity(alloc, row.len().saturating_sub(3))?;
    for i in 3..row.len() {
        match whole(row.word(i)) {
            Some(price) if -LARGEST_PRICE <= price && price <= LARGEST_PRICE => {
                prices.push(price)?
            }
            _ => return Ok(None),
        }
    }
    Ok(Some(prices))
}

/// The prices of the record of a path whose fields are as they are to be. None where it is no such record.
pub(crate) fn sound_prices(
    alloc: Global,
    heading: Heading,
    row: &Fields,
) -> Result<Option<Vec<i64>>, AllocError>
    ensures sound { IfOk result (λ found. IfSome found (λ _.
        shape_fault (heading_view heading) row.now Path ≡ None)) }
    ensures stated { IfOk result (λ found. IfSome found (λ prices.
        prices.items ≡ numbers_from 3 row.now)) }
{
    if !is_kind(RecordKind::Path, row)
        || row.len() != heading.last + 4
        || name_of(row.word(1)).is_none()
        || name_of(row.word(2)).is_none()
    {
        return Ok(None);
    }
    prices_from(alloc, row)
}
