// A certificate for a case, judged before a command does its own part with it.
ghost use Rattle.std.specs.Prelude.{◌≡◌, None, Some, Ok, IfNone, IfSome, IfOk, IfErr, OnOk};
ghost use Rattle.core_io.specs.States.{KeepsBytes, KeepsCounts};
ghost use Rattle.core_case.specs.Stated.{case_of_bytes};
ghost use Rattle.core_cert.specs.Stated.{cert_of_bytes};
ghost use Rattle.core_model.specs.Check.{verdict, Passed};
ghost use Rattle.core_model.specs.Fits.{Fits};
ghost use Rattle.core_model.specs.Shows.{Shows};
ghost use Rattle.core_top.specs.Words.{words_of};
ghost use Rattle.core_top.specs.Answers.{Ends};
ghost use Rattle.core_top.specs.Around.{Between};
ghost use Rattle.core_top.specs.Files.{Nothing, ReadAs};
ghost use Rattle.core_top.specs.Judged.{cert_words, cert_words_view, AtJudged, Judged};

use crate::answers::Reply;
use crate::files::{case_under, cert_under};
use crate::stop::Stop;
use core_case::Case;
use core_check::{CheckFault, check};
use core_io::Shelf;
use core_model::Cert;
use std::alloc::Global;

/// The names of the case and of the certificate, which are not empty.
#[derive(Clone, Copy, Debug)]
pub(crate) struct Words<'a> {
    pub(crate) case: &'a str,
    pub(crate) cert: &'a str,
}

/// The words as those of a command with this name, none where they are not.
pub(crate) fn words_of<'a>(command: &str, words: &'a [String]) -> Option<Words<'a>>
    ensures none { IfNone result (cert_words command.now (words_of words.now) ≡ None) }
    ensures some { IfSome result (λ asked. cert_words command.now (words_of words.now)
        ≡ Some (cert_words_view asked)) }
{
    match words {
        [verb, case, cert] if verb.as_str() == command && !case.is_empty() && !cert.is_empty() => {
            Some(Words {
                case: case.as_str(),
                cert: cert.as_str(),
            })
        }
        _ => None,
    }
}

/// A case, and a certificate for it that the check accepts.
#[derive(Drop)]
pub(crate) struct Accepted {
    pub(crate) case: Case,
    pub(crate) cert: Cert,
}

/// Judges a certificate: goes on where every condition of its check holds.
fn judge(alloc: Global, case: &Case, cert: &Cert) -> Result<(), Stop>
    requires { Fits case.now cert.now }
    ensures passed { OnOk result (verdict case.now cert.now ≡ Passed) }
    ensures shows { OnOk result (Shows case.now cert.now) }
    ensures ends { IfErr result (Ends (Judged case.now cert.now (Nothing cert.now))) }
{
    match check(alloc, case, cert) {
        Ok(()) => Ok(()),
        Err(CheckFault::No { condition, place }) => {
            Err(Stop::Said(Reply::Refused { condition, place }))
        }
        Err(CheckFault::TooWide { condition, place }) => {
            Err(Stop::Said(Reply::Wide { condition, place }))
        }
        Err(CheckFault::NoMemory) => Err(Stop::NoMemory),
    }
}

/// Reads the case under a name, then the certificate under another, and judges it.
pub(crate) fn accepted_under<S: Shelf>(
    alloc: Global,
    shelf: &mut S,
    case: &str,
    cert: &str,
) -> Result<Accepted, Stop>
    ensures case { IfOk result (λ read. ReadAs case_of_bytes
        ((S.state shelf.old).told case.now) (Ok read.case)) }
    ensures cert { IfOk result (λ read. ReadAs (cert_of_bytes read.case)
        ((S.state shelf.old).told cert.now) (Ok read.cert)) }
    ensures fits { IfOk result (λ read. Fits read.case read.cert) }
    ensures passed { IfOk result (λ read. verdict read.case read.cert ≡ Passed) }
    ensures shows { IfOk result (λ read. Shows read.case read.cert) }
    ensures ends { IfErr result (Ends (Between (S.state shelf.old) (S.state shelf.new)
        (λ told rose. AtJudged told rose case.now cert.now (λ c. Nothing)))) }
    ensures kept { KeepsBytes (S.state shelf.old) (S.state shelf.new) }
    ensures counts { KeepsCounts (S.state shelf.old) (S.state shelf.new) }
{
    let case = case_under(alloc, shelf, case)?;
    let cert = cert_under(alloc, shelf, &case, cert)?;
    judge(alloc, &case, &cert)?;
    Ok(Accepted { case, cert })
}
