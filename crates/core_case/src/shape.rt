// The faults of a record by itself.
ghost use Rattle.std.specs.Prelude.{◌≡◌, Some, None, IsTrue, IfOk, IfErr};
ghost use Rattle.core_case.specs.Kinds.{forms, heading_view};
ghost use Rattle.core_case.specs.Faults.{form_fault, order_step, own_fault, range_fault, shape_fault, zero_step};
ghost use Rattle.core_case.specs.declared.kinds.RecordKind.TheVariants.{Path};

use crate::faults::RecordFault;
use crate::fields::number_in;
use crate::forms::{Form, field_count, field_in_range, form_at};
use crate::heading::Heading;
use crate::kinds::RecordKind;
use core_rows::{Fields, Shape, fault_unless, fields_fault};

/// What the fields of a record of a kind are to be, in a case with this heading.
#[derive(Drop)]
struct RecordShape<'a> {
    heading: Heading,
    row: &'a Fields,
    kind: RecordKind,
}

impl<'a> Shape for RecordShape<'a> {
    type Form = Form;

    type Fault = RecordFault;

    ghost forms = { λ a. forms (heading_view a.heading) a.row.now a.kind };

    ghost form_fault = { form_fault };

    ghost range_fault = { range_fault };

    fn count(&self) -> usize {
        field_count(self.heading, self.row, self.kind)
    }

    fn form_at(&self, place: usize) -> Form {
        form_at(self.heading, self.row, self.kind, place)
    }

    fn judge(form: Form, word: &[u8]) -> Result<Option<RecordFault>, RecordFault>
        ensures form { IfOk result (λ _. form_fault form word.now ≡ None) }
        ensures range { IfOk result (λ fault. range_fault form word.now ≡ fault) }
        ensures fault { IfErr result (λ fault. form_fault form word.now ≡ Some fault) }
    {
        let in_range = field_in_range(form, word)?;
        Ok(fault_unless(in_range, RecordFault::OutOfRange))
    }
}

/// The fault of a record that does not stand in its place: `core` is the first, `house` the second.
fn order_fault(place: usize, kind: RecordKind) -> Option<RecordFault>
    ensures { result ≡ order_step place kind }
{
    let in_order = match place {
        0 => true,
        1 => kind == RecordKind::House,
        _ => kind != RecordKind::Core && kind != RecordKind::House,
    };
    fault_unless(in_order, RecordFault::OutOfOrder)
}

/// The fault of a position of 0.
fn zero_fault(row: &Fields, kind: RecordKind) -> Option<RecordFault>
    ensures { result ≡ zero_step row.now kind }
{
    fault_unless(
        kind != RecordKind::Position || number_in(row, 2) != 0,
        RecordFault::OutOfRange,
    )
}

/// The fault of the fields of a record of this kind. `priced` says that those of a path were found to be sound.
fn shape_fault(
    heading: Heading,
    row: &Fields,
    kind: RecordKind,
    priced: bool,
) -> Option<RecordFault>
    requires { IsTrue priced → shape_fault (heading_view heading) row.now Path ≡ None }
    ensures { result ≡ shape_fault (heading_view heading) row.now kind }
{
    match kind {
        RecordKind::Path if priced => None,
        _ => {
            let shape = RecordShape { heading, row, kind };
            fields_fault(&shape, row, RecordFault::FieldCount)
        }
    }
}

/// The fault of a record of this kind by itself, where so many records came before. `priced` says that the fields of a
/// path were found to be sound.
pub(crate) fn own_fault(
    place: usize,
    heading: Heading,
    row: &Fields,
    kind: RecordKind,
    priced: bool,
) -> Option<RecordFault>
    requires { IsTrue priced → shape_fault (heading_view heading) row.now Path ≡ None }
    ensures { result ≡ own_fault place (forms (heading_view heading) row.now kind) row.now kind }
{
    if let Some(fault) = order_fault(place, kind) {
        return Some(fault);
    }
    if let Some(fault) = shape_fault(heading, row, kind, priced) {
        return Some(fault);
    }
    zero_fault(row, kind)
}
