// The faults of a record's fields, by the forms that they are to have.
ghost use Rattle.std.specs.Prelude.{◌≡◌, Some, None, IfOk, IfErr, drop, length, suc};
ghost use Rattle.core_rows.specs.Steps.{by_form, fault_unless, fields_fault, first_of};

use crate::fields::Fields;

/// What the fields of a record are to be: one form for each field after the first.
pub trait Shape {
    ghost use Rattle.std.specs.Prelude.{◌≡◌, ◌<◌, ℕ, List, Option, Some, None, IfOk, IfErr, get_or, length};

    /// What a field is to be.
    type Form: Copy;

    /// Why a record is faulty.
    type Fault: Copy;

    /// The forms of the fields after the first, in order.
    ghost forms: { Self → List Self.Form };

    /// The fault of a field that has not its form.
    ghost form_fault: { Self.Form → List ℕ → Option Self.Fault };

    /// The fault of a field that is out of its range.
    ghost range_fault: { Self.Form → List ℕ → Option Self.Fault };

    /// How many fields there are after the first.
    fn count(&self) -> usize
        ensures { result ≡ length (forms self.now) };

    /// The form of the field at a place after the first.
    fn form_at(&self, place: usize) -> Self::Form
        requires { place < length (forms self.now) }
        ensures { result ≡ get_or (forms self.now) place result };

    /// The fault of a field of this form that is out of its range, or as an error that of one that has not the form.
    fn judge(form: Self::Form, word: &[u8]) -> Result<Option<Self::Fault>, Self::Fault>
        ensures form { IfOk result (λ _. form_fault form word.now ≡ None) }
        ensures range { IfOk result (λ fault. range_fault form word.now ≡ fault) }
        ensures fault { IfErr result (λ fault. form_fault form word.now ≡ Some fault) };
}

/// The fault where the test fails.
pub fn fault_unless<X: Copy>(passes: bool, fault: X) -> Option<X>
    ensures { result ≡ fault_unless passes fault }
{
    if passes { None } else { Some(fault) }
}

/// The first fault of fields that are out of their ranges, or as an error the first of fields that have not their forms.
fn ranges_fault<S: Shape>(shape: &S, row: &Fields) -> Result<Option<S::Fault>, S::Fault>
    requires { length row.now ≡ suc (length (S.forms shape.now)) }
    ensures form { IfOk result (λ _.
        first_of (by_form S.form_fault (S.forms shape.now) (drop 1 row.now)) ≡ None) }
    ensures range { IfOk result (λ fault.
        first_of (by_form S.range_fault (S.forms shape.now) (drop 1 row.now)) ≡ fault) }
    ensures fault { IfErr result (λ fault.
        first_of (by_form S.form_fault (S.forms shape.now) (drop 1 row.now)) ≡ Some fault) }
{
    let mut first = None;
    for i in 1..row.len() {
        let fault = S::judge(shape.form_at(i - 1), row.word(i))?;
        first = first.or(fault);
    }
    Ok(first)
}

/// The first fault of the fields of a record: `miscounted` where their number is not the shape's, else that of the first
/// field that has not its form, else that of the first that is out of its range.
pub fn fields_fault<S: Shape>(shape: &S, row: &Fields, miscounted: S::Fault) -> Option<S::Fault>
    ensures { result
        ≡ fields_fault miscounted S.form_fault S.range_fault (S.forms shape.now) row.now }
{
    if row.len() == 0 || row.len() - 1 != shape.count() {
        return Some(miscounted);
    }
    match ranges_fault(shape, row) {
        Ok(fault) => fault,
        Err(fault) => Some(fault),
    }
}
