// The answers of a call, and the text of each.
ghost use Rattle.std.specs.Prelude.{◌≡◌, ◌∷◌, [], ◌++◌, decimal, IfOk};
ghost use Rattle.core_top.specs.Answers.{answer_status, answer_text, cert_status, fields_of, reply_status, reply_text, word_of, Says};

use core_model::Cert;
use core_rows::{Fields, put_row};
use std::alloc::{AllocError, Global};

/// A file that a command reads.
#[derive(Clone, Copy, Debug)]
pub(crate) enum File {
    Case,
    Cert,
}

impl File {
    /// The word that is printed of it.
    fn word(self) -> &'static [u8]
        ensures { result.now ≡ word_of self }
    {
        match self {
            File::Case => b"case",
            File::Cert => b"cert",
        }
    }
}

/// An answer of one printed line.
#[derive(Clone, Copy, Debug)]
pub(crate) enum Reply {
    /// 2 `usage`.
    Usage,
    /// 6 `fault,read,FILE`.
    Unread(File),
    /// 3 or 9 `bad,FILE,ROW,CODE`.
    Bad { file: File, row: u32, code: u8 },
    /// 0 `accepted,closes`.
    AcceptedCloses,
    /// 0 `accepted,cannot`.
    AcceptedCannot,
    /// 10 `refused,CONDITION,PLACE`.
    Refused { condition: u8, place: u32 },
    /// 4 `wide,check,CONDITION,PLACE`.
    Wide { condition: u8, place: u32 },
    /// 4 `wide,pivot,PIVOT`.
    WidePivot { pivot: u64 },
    /// 4 `wide,common`.
    WideCommon,
    /// 5 `spent,BUDGET`.
    Spent { budget: u64 },
}

impl Reply {
    fn status(self) -> u8
        ensures { result ≡ reply_status self }
    {
        match self {
            Reply::AcceptedCloses | Reply::AcceptedCannot => 0,
            Reply::Usage => 2,
            Reply::Bad {
                file: File::Case,
                ..
            } => 3,
            Reply::Wide { .. } | Reply::WidePivot { .. } | Reply::WideCommon => 4,
            Reply::Spent { .. } => 5,
            Reply::Unread(_) => 6,
            Reply::Bad {
                file: File::Cert,
                ..
            } => 9,
            Reply::Refused { .. } => 10,
        }
    }

    fn fields(self, alloc: Global) -> Result<Fields, AllocError>
        ensures { IfOk result (λ fields. fields ≡ fields_of self) }
    {
        match self {
            Reply::Usage => one(alloc, b"usage"),
            Reply::Unread(file) => {
                let mut fields = pair(alloc, b"fault", b"read")?;
                fields.push(file.word())?;
                Ok(fields)
            }
            Reply::Bad { file, row, code } => {
                let fields = pair(alloc, b"bad", file.word())?;
                with_numbers(fields, row, u32::from(code))
            }
            Reply::AcceptedCloses => pair(alloc, b"accepted", b"closes"),
            Reply::AcceptedCannot => pair(alloc, b"accepted", b"cannot"),
            Reply::Refused { condition, place } => {
                let fields = one(alloc, b"refused")?;
                with_numbers(fields, u32::from(condition), place)
            }
            Reply::Wide { condition, place } => {
                let fields = pair(alloc, b"wide", b"check")?;
                with_numbers(fields, u32::from(condition), place)
            }
            Reply::WidePivot { pivot } => with_number(pair(alloc, b"wide", b"pivot")?, pivot),
            Reply::WideCommon => pair(alloc, b"wide", b"common"),
            Reply::Spent { budget } => with_number(one(alloc, b"spent")?, budget),
        }
    }
}

/// A record of one word.
pub(crate) fn one(alloc: Global, word: &[u8]) -> Result<Fields, AllocError>
    ensures { IfOk result (λ fields. fields ≡ word.now ∷ []) }
{
    let mut fields = Fields::make(alloc);
    fields.push(word)?;
    Ok(fields)
}

/// A record of two words.
pub(crate) fn pair(alloc: Global, first: &[u8], second: &[u8]) -> Result<Fields, AllocError>
    ensures { IfOk result (λ fields. fields ≡ first.now ∷ second.now ∷ []) }
{
    let mut fields = Fields::make(alloc);
    fields.push(first)?;
    fields.push(second)?;
    Ok(fields)
}

/// A record, and after it a number.
pub(crate) fn with_number(fields: Fields, number: u64) -> Result<Fields, AllocError>
    ensures { IfOk result (λ all. all ≡ fields ++ (decimal number ∷ [])) }
{
    let mut fields = fields;
    fields.push_number(i128::from(number))?;
    Ok(fields)
}

/// A record, and after it two numbers.
fn with_numbers(fields: Fields, first: u32, second: u32) -> Result<Fields, AllocError>
    ensures { IfOk result (λ all. all ≡ fields ++ (decimal first ∷ decimal second ∷ [])) }
{
    let mut fields = fields;
    fields.push_number(i128::from(first))?;
    fields.push_number(i128::from(second))?;
    Ok(fields)
}

/// What a call answers: a reply, or a text that its command has made.
#[derive(Drop)]
pub(crate) enum Answer {
    Said(Reply),
    Printed { status: u8, text: Vec<u8> },
}

/// What is due: a status and the text of the output.
#[derive(Drop)]
pub(crate) struct Due {
    pub(crate) status: u8,
    pub(crate) text: Vec<u8>,
}

/// A reply as the whole output.
pub(crate) fn said(alloc: Global, reply: Reply) -> Result<Due, AllocError>
    ensures { IfOk result (Says (reply_status reply) (reply_text reply)) }
{
    let fields = reply.fields(alloc)?;
    let mut text = Vec::new(alloc);
    put_row(alloc, &mut text, &fields)?;
    Ok(Due {
        status: reply.status(),
        text,
    })
}

/// An answer as the whole output.
pub(crate) fn output(alloc: Global, answer: Answer) -> Result<Due, AllocError>
    ensures { IfOk result (Says (answer_status answer) (answer_text answer)) }
{
    match answer {
        Answer::Said(reply) => said(alloc, reply),
        Answer::Printed { status, text } => Ok(Due { status, text }),
    }
}

/// The status with which a certificate is printed.
pub(crate) fn cert_status(cert: &Cert) -> u8
    ensures { result ≡ cert_status cert.now }
{
    match cert {
        Cert::Closes { .. } => 0,
        Cert::Cannot { .. } => 1,
    }
}
