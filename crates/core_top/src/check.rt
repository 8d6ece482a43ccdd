// `check CASE CERT`: the judgement of a certificate for a case.
ghost use Rattle.std.specs.Prelude.{◌≡◌};
ghost use Rattle.core_io.specs.States.{KeepsBytes, KeepsCounts};
ghost use Rattle.core_top.specs.Answers.{ComesTo};
ghost use Rattle.core_top.specs.Around.{Between};
ghost use Rattle.core_top.specs.Judged.{cert_words_view};
ghost use Rattle.core_top.specs.Check.{accepted_reply, CheckDue};

use crate::answers::{Answer, Reply};
use crate::judged::{Words, accepted_under};
use crate::stop::Stop;
use core_io::Shelf;
use core_model::Cert;
use std::alloc::Global;

/// The reply to a certificate that is accepted.
fn accepted(cert: &Cert) -> Reply
    ensures { result ≡ accepted_reply cert.now }
{
    match cert {
        Cert::Closes { .. } => Reply::AcceptedCloses,
        Cert::Cannot { .. } => Reply::AcceptedCannot,
    }
}

/// Reads the case, then the certificate, judges it and says that it is accepted.
pub(crate) fn answer<S: Shelf>(alloc: Global, shelf: &mut S, asked: &Words) -> Result<Answer, Stop>
    ensures due { ComesTo (Between (S.state shelf.old) (S.state shelf.new)
        (CheckDue (cert_words_view asked.now))) result }
    ensures kept { KeepsBytes (S.state shelf.old) (S.state shelf.new) }
    ensures counts { KeepsCounts (S.state shelf.old) (S.state shelf.new) }
{
    let read = accepted_under(alloc, shelf, asked.case, asked.cert)?;
    Ok(Answer::Said(accepted(&read.cert)))
}
