// The kinds of records of a certificate.
ghost use Rattle.std.specs.Prelude.{◌≡◌};
ghost use Rattle.core_cert.specs.Kinds.{after_weights, followers, is_kind, kind_of, word_of};

use core_rows::{Fields, same};

/// What a record of a certificate is of, by its first field.
#[derive(Clone, Copy, Debug, PartialEq, Eq)]
pub(crate) enum RecordKind {
    Cert,
    Closes,
    Cannot,
    Amount,
    Loss,
    Margin,
    Weights,
    Scenario,
    Limit,
    Pool,
    Full,
    End,
}

/// Each kind.
const KINDS: [RecordKind; 12] = [
    RecordKind::Cert,
    RecordKind::Closes,
    RecordKind::Cannot,
    RecordKind::Amount,
    RecordKind::Loss,
    RecordKind::Margin,
    RecordKind::Weights,
    RecordKind::Scenario,
    RecordKind::Limit,
    RecordKind::Pool,
    RecordKind::Full,
    RecordKind::End,
];

impl RecordKind {
    /// The first field of a record of the kind.
    fn word(self) -> &'static [u8]
        ensures { result.now ≡ word_of self }
    {
        match self {
            RecordKind::Cert => b"cert",
            RecordKind::Closes => b"closes",
            RecordKind::Cannot => b"cannot",
            RecordKind::Amount => b"amount",
            RecordKind::Loss => b"loss",
            RecordKind::Margin => b"margin",
            RecordKind::Weights => b"weights",
            RecordKind::Scenario => b"scenario",
            RecordKind::Limit => b"limit",
            RecordKind::Pool => b"pool",
            RecordKind::Full => b"full",
            RecordKind::End => b"end",
        }
    }
}

/// Whether a record is of a kind.
pub(crate) fn is_kind(kind: RecordKind, row: &Fields) -> bool
    ensures { result ≡ is_kind kind row.now }
{
    same(row.word(0), kind.word())
}

/// The kind of a record, none where its first field is the word of no kind.
pub(crate) fn kind_of(row: &Fields) -> Option<RecordKind>
    ensures { result ≡ kind_of row.now }
{
    KINDS.iter().copied().find(|kind| is_kind(*kind, row))
}

/// The kinds that may stand after the weights. A certificate that refuses has no scenario.
fn after_weights(refusing: bool) -> &'static [RecordKind]
    ensures { result.now ≡ after_weights refusing }
{
    if refusing {
        &[
            RecordKind::Limit,
            RecordKind::Pool,
            RecordKind::Full,
            RecordKind::End,
        ]
    } else {
        &[
            RecordKind::Scenario,
            RecordKind::Limit,
            RecordKind::Pool,
            RecordKind::Full,
            RecordKind::End,
        ]
    }
}

/// The kinds that may stand after a kind, in a calendar's certificate or in one that refuses.
pub(crate) fn followers(refusing: bool, kind: RecordKind) -> &'static [RecordKind]
    ensures { result.now ≡ followers refusing kind }
{
    match kind {
        RecordKind::Cert => &[RecordKind::Closes, RecordKind::Cannot],
        RecordKind::Closes | RecordKind::Amount => &[RecordKind::Amount, RecordKind::Loss],
        RecordKind::Cannot | RecordKind::Margin => &[RecordKind::Weights],
        RecordKind::Loss => &[RecordKind::Margin],
        RecordKind::Weights => after_weights(refusing),
        RecordKind::Scenario => after_weights(false),
        RecordKind::Limit => &[
            RecordKind::Limit,
            RecordKind::Pool,
            RecordKind::Full,
            RecordKind::End,
        ],
        RecordKind::Pool => &[RecordKind::Pool, RecordKind::Full, RecordKind::End],
        RecordKind::Full => &[RecordKind::Full, RecordKind::End],
        RecordKind::End => &[],
    }
}
