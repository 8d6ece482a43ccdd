// The kinds of records of a case.
ghost use Rattle.std.specs.Prelude.{◌≡◌};
ghost use Rattle.core_case.specs.Kinds.{has_kind, is_kind, kind_of, word_of};

use core_rows::{Fields, same};

/// What a record is of, by its first field.
#[derive(Clone, Copy, Debug, PartialEq, Eq, Hash)]
pub(crate) enum RecordKind {
    Core,
    House,
    Market,
    Holiday,
    Instrument,
    Limit,
    Tier,
    Pool,
    Member,
    Scenario,
    Path,
    Position,
    Collateral,
    Cash,
    End,
}

/// Each kind.
const KINDS: [RecordKind; 15] = [
    RecordKind::Core,
    RecordKind::House,
    RecordKind::Market,
    RecordKind::Holiday,
    RecordKind::Instrument,
    RecordKind::Limit,
    RecordKind::Tier,
    RecordKind::Pool,
    RecordKind::Member,
    RecordKind::Scenario,
    RecordKind::Path,
    RecordKind::Position,
    RecordKind::Collateral,
    RecordKind::Cash,
    RecordKind::End,
];

impl RecordKind {
    /// The first field of a record of the kind.
    fn word(self) -> &'static [u8]
        ensures { result.now ≡ word_of self }
    {
        match self {
            RecordKind::Core => b"core",
            RecordKind::House => b"house",
            RecordKind::Market => b"market",
            RecordKind::Holiday => b"holiday",
            RecordKind::Instrument => b"instr",
            RecordKind::Limit => b"limit",
            RecordKind::Tier => b"tier",
            RecordKind::Pool => b"pool",
            RecordKind::Member => b"member",
            RecordKind::Scenario => b"scenario",
            RecordKind::Path => b"path",
            RecordKind::Position => b"position",
            RecordKind::Collateral => b"collateral",
            RecordKind::Cash => b"cash",
            RecordKind::End => b"end",
        }
    }
}

/// Whether a record is of a kind.
pub(crate) fn is_kind(kind: RecordKind, row: &Fields) -> bool
    ensures { result ≡ is_kind kind row.now }
{
    same(row.word(0), kind.word())
}

/// Whether a version of the format has a kind: tiers come with version 3.
fn has_kind(version: usize, kind: RecordKind) -> bool
    ensures { result ≡ has_kind version kind }
{
    kind != RecordKind::Tier || 3 <= version
}

/// The kind of a record in a version, none where its first field is the word of no kind that the version has.
pub(crate) fn kind_of(version: usize, row: &Fields) -> Option<RecordKind>
    ensures { result ≡ kind_of version row.now }
{
    KINDS
        .iter()
        .copied()
        .find(|kind| has_kind(version, *kind) && is_kind(*kind, row))
}
