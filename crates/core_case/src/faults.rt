// The faults of a record, and their codes.
ghost use Rattle.std.specs.Prelude.{◌≡◌};
ghost use Rattle.core_case.specs.Codes.{code_of};

/// Why a record is faulty.
#[derive(Clone, Copy, Debug, PartialEq, Eq)]
pub(crate) enum RecordFault {
    /// The first record is no `core`.
    FirstNotCore,
    /// The version is not 1, 2 or 3.
    UnknownVersion,
    /// The first field is the word of no kind of the version.
    UnknownKind,
    /// The second record is no `house`, or another is `core` or `house`.
    OutOfOrder,
    /// The number of fields is not the kind's.
    FieldCount,
    /// A field that is to be a name is none.
    NotAName,
    /// A field that is to be a number is none.
    NotANumber,
    /// A field that is to be a date is none.
    NotADate,
    /// The kind of an instrument is neither `future` nor `security`.
    NotAnInstrumentKind,
    /// A number or a date is out of its range.
    OutOfRange,
    /// A name is not declared.
    Undeclared,
    /// The record repeats an earlier one.
    Repeated,
    /// There are too many records of the kind.
    TooMany,
    /// The collateral is of a future.
    CollateralOfFuture,
    /// A security has an expiry.
    ExpiryOfSecurity,
    /// At the end a scenario, a limit or a path is missing.
    Incomplete,
    /// The record stands after `end`.
    AfterEnd,
    /// No record is `end`.
    EndMissing,
}

impl RecordFault {
    /// The number of the fault in the format, 1 to 18.
    pub(crate) fn code(self) -> u8
        ensures { result ≡ code_of self }
    {
        match self {
            RecordFault::FirstNotCore => 1,
            RecordFault::UnknownVersion => 2,
            RecordFault::UnknownKind => 3,
            RecordFault::OutOfOrder => 4,
            RecordFault::FieldCount => 5,
            RecordFault::NotAName => 6,
            RecordFault::NotANumber => 7,
            RecordFault::NotADate => 8,
            RecordFault::NotAnInstrumentKind => 9,
            RecordFault::OutOfRange => 10,
            RecordFault::Undeclared => 11,
            RecordFault::Repeated => 12,
            RecordFault::TooMany => 13,
            RecordFault::CollateralOfFuture => 14,
            RecordFault::Incomplete => 15,
            RecordFault::AfterEnd => 16,
            RecordFault::EndMissing => 17,
            RecordFault::ExpiryOfSecurity => 18,
        }
    }
}
