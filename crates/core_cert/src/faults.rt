// The faults of a record of a certificate, and their codes.
ghost use Rattle.std.specs.Prelude.{◌≡◌};
ghost use Rattle.core_cert.specs.Codes.{code_of};

/// Why a record of a certificate is faulty.
#[derive(Clone, Copy, Debug, PartialEq, Eq)]
pub(crate) enum RecordFault {
    /// The first record is no `cert`.
    FirstNotCert,
    /// The version is not that of a certificate of the case.
    OtherVersion,
    /// The first field is the word of no kind.
    UnknownKind,
    /// The kind may not stand after the record before it.
    OutOfOrder,
    /// The number of fields is not the kind's.
    FieldCount,
    /// A field that is to be a name is none.
    NotAName,
    /// A field that is to be a number is none.
    NotANumber,
    /// A field that is to be a side is none.
    NotASide,
    /// A day or a tier is out of its range, or a numerator that may not be 0 is 0.
    OutOfRange,
    /// The case has no scenario, instrument or pool of the name.
    NotInCase,
    /// The instrument has no line of the side.
    NoSuchLine,
    /// The key is not above the one before it in its kind.
    NotRising,
    /// The margin is not the loss floored at nought.
    NotTheMargin,
    /// The record stands after `end`.
    AfterEnd,
    /// No record is `end`.
    EndMissing,
}

impl RecordFault {
    /// The number of the fault in the format, 1 to 15.
    pub(crate) fn code(self) -> u8
        ensures { result ≡ code_of self }
    {
        match self {
            RecordFault::FirstNotCert => 1,
            RecordFault::OtherVersion => 2,
            RecordFault::UnknownKind => 3,
            RecordFault::OutOfOrder => 4,
            RecordFault::FieldCount => 5,
            RecordFault::NotAName => 6,
            RecordFault::NotANumber => 7,
            RecordFault::NotASide => 8,
            RecordFault::OutOfRange => 9,
            RecordFault::NotInCase => 10,
            RecordFault::NoSuchLine => 11,
            RecordFault::NotRising => 12,
            RecordFault::NotTheMargin => 13,
            RecordFault::AfterEnd => 14,
            RecordFault::EndMissing => 15,
        }
    }
}
