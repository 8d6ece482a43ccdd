// `report CASE CERT`: the report of a certificate that the check accepts.
ghost use Rattle.std.specs.Prelude.{◌≡◌, ◌∷◌, [], codes, decimal, IfOk};
ghost use Rattle.core_rows.specs.Fields.{row_text};
ghost use Rattle.core_io.specs.States.{KeepsBytes, KeepsCounts};
ghost use Rattle.core_model.specs.Check.{verdict, Passed};
ghost use Rattle.core_model.specs.Fits.{Fits};
ghost use Rattle.core_model.specs.Shows.{Shows};
ghost use Rattle.core_top.specs.Answers.{ComesTo};
ghost use Rattle.core_top.specs.Around.{Between};
ghost use Rattle.core_top.specs.Judged.{cert_words_view};
ghost use Rattle.core_top.specs.Report.{ReportDue, Reports};

use crate::answers::{Answer, pair, with_number};
use crate::judged::{Words, accepted_under};
use crate::stop::Stop;
use core_case::Case;
use core_io::Shelf;
use core_model::Cert;
use core_report::{ReportFault, report};
use core_rows::{Name, put_row};
use std::alloc::{AllocError, Global};

/// The line of a replay that leaves 128 bits: `wide,report,SCENARIO,DAY`.
fn leaving_text(alloc: Global, scenario: Name, day: u8) -> Result<Vec<u8>, AllocError>
    ensures { IfOk result (λ text. text.items
        ≡ row_text (codes "wide" ∷ codes "report" ∷ scenario ∷ decimal day ∷ [])) }
{
    let mut fields = pair(alloc, b"wide", b"report")?;
    fields.push(scenario.bytes())?;
    let fields = with_number(fields, u64::from(day))?;
    let mut text = Vec::new(alloc);
    put_row(alloc, &mut text, &fields)?;
    Ok(text)
}

/// The answer to a certificate that the check accepts: its report, or where a replay leaves 128 bits.
fn reported(alloc: Global, case: &Case, cert: &Cert) -> Result<Answer, Stop>
    requires fits { Fits case.now cert.now }
    requires passed { verdict case.now cert.now ≡ Passed }
    requires shows { Shows case.now cert.now }
    ensures { ComesTo (Reports case.now cert.now) result }
{
    match report(alloc, case, cert) {
        Ok(text) => Ok(Answer::Printed { status: 0, text }),
        Err(ReportFault::TooWide { scenario, day }) => {
            let text = leaving_text(alloc, case.scenario(scenario), day)?;
            Ok(Answer::Printed { status: 4, text })
        }
        Err(ReportFault::NoMemory) => Err(Stop::NoMemory),
    }
}

/// Reads the case, then the certificate, judges it and makes its report.
pub(crate) fn answer<S: Shelf>(alloc: Global, shelf: &mut S, asked: &Words) -> Result<Answer, Stop>
    ensures due { ComesTo (Between (S.state shelf.old) (S.state shelf.new)
        (ReportDue (cert_words_view asked.now))) result }
    ensures kept { KeepsBytes (S.state shelf.old) (S.state shelf.new) }
    ensures counts { KeepsCounts (S.state shelf.old) (S.state shelf.new) }
{
    let read = accepted_under(alloc, shelf, asked.case, asked.cert)?;
    reported(alloc, &read.case, &read.cert)
}
