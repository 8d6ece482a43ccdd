// The faults of a record's fields.
ghost use Rattle.std.specs.Prelude.{◌≡◌, Some, None, IfOk, IfErr};
ghost use Rattle.core_cert.specs.Kinds.{forms};
ghost use Rattle.core_cert.specs.Faults.{fields_fault, form_fault, range_fault};

use crate::faults::RecordFault;
use crate::forms::{Form, field_count, form_at, form_fault, range_fault};
use crate::kinds::RecordKind;
use core_book::Case;
use core_rows::{Fields, Shape};

/// What the fields of a record of a kind are to be, in a certificate of a case.
#[derive(Drop)]
struct RecordShape<'a> {
    case: &'a Case,
    kind: RecordKind,
}

impl<'a> Shape for RecordShape<'a> {
    type Form = Form;

    type Fault = RecordFault;

    ghost forms = { λ a. forms a.case.now a.kind };

    ghost form_fault = { form_fault };

    ghost range_fault = { range_fault };

    fn count(&self) -> usize {
        field_count(self.case, self.kind)
    }

    fn form_at(&self, place: usize) -> Form {
        form_at(self.case, self.kind, place)
    }

    fn judge(form: Form, word: &[u8]) -> Result<Option<RecordFault>, RecordFault>
        ensures form { IfOk result (λ _. form_fault form word.now ≡ None) }
        ensures range { IfOk result (λ fault. range_fault form word.now ≡ fault) }
        ensures fault { IfErr result (λ fault. form_fault form word.now ≡ Some fault) }
    {
        match form_fault(form, word) {
            Some(fault) => Err(fault),
            None => Ok(range_fault(form, word)),
        }
    }
}

/// The fault of the fields of a record of this kind: their number, their forms, their ranges.
pub(crate) fn fields_fault(case: &Case, row: &Fields, kind: RecordKind) -> Option<RecordFault>
    ensures { result ≡ fields_fault (forms case.now kind) row.now }
{
    core_rows::fields_fault(&RecordShape { case, kind }, row, RecordFault::FieldCount)
}
