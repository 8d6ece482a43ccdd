// The report of a certificate.
ghost use Rattle.std.specs.Prelude.{◌≡◌, ◌≤ℤ◌, ◌++◌, ◌∷◌, [], codes, pos, IsTrue, OnOk, IfOk, IfErr};
ghost use Rattle.core_rows.specs.Written.{rows_text};
ghost use Rattle.core_model.specs.Check.{verdict, Passed};
ghost use Rattle.core_model.specs.Fits.{Fits, IsWithin128};
ghost use Rattle.core_model.specs.OfCase.{planned};
ghost use Rattle.core_model.specs.Shows.{Shows};
ghost use Rattle.core_cert.specs.Written.{is_plain_word};
ghost use Rattle.core_replay.specs.Answers.{IsLedger, IsWorstLoss};
ghost use Rattle.core_report.specs.Ranking.{AreTop};
ghost use Rattle.core_report.specs.Records.{cannot_records, closes_records, loss_records, ratio_record, rounded_up};
ghost use Rattle.core_report.specs.Report.{IsClosesReport, IsReport, StopsClosing, StopsReport};

use crate::accepted::{AcceptedCalendar, AcceptedWeights};
use crate::closes::{put_closes, put_limits, put_pools};
use crate::dates::Dates;
use crate::fault::ReportFault;
use crate::ledger::put_ledger;
use crate::row::{Row, put};
use crate::top::{Loss, greatest, losses, put_top};
use crate::weights;
use core_book::Case;
use core_model::{CaseCalendar, CaseWeights, Cert};
use core_replay::{Ledger, WorstLoss, replay, worst};
use std::alloc::{AllocError, Global};

/// A number that is not negative over a denominator, rounded up to a whole number.
fn rounded_up(number: i128, den: i128) -> i128
    requires number { pos 0 ≤ℤ number }
    requires den { pos 1 ≤ℤ den }
    ensures { result ≡ pos (rounded_up number den) }
{
    number.unsigned_abs().div_ceil(den.unsigned_abs()) as i128
}

/// Prints a record of two words.
fn put_words(
    alloc: Global,
    out: &mut Vec<u8>,
    first: &[u8],
    second: &[u8],
) -> Result<(), AllocError>
    requires first { IsTrue (is_plain_word first.now) }
    requires second { IsTrue (is_plain_word second.now) }
    ensures { OnOk result (out.new.items
        ≡ out.old.items ++ rows_text ((first.now ∷ second.now ∷ []) ∷ [])) }
{
    let mut row = Row::start(alloc, first)?;
    row.push_word(second)?;
    put(alloc, out, &row)
}

/// Prints a record of a word and a number over a denominator.
fn put_ratio(
    alloc: Global,
    out: &mut Vec<u8>,
    word: &[u8],
    number: i128,
    den: i128,
) -> Result<(), AllocError>
    requires word { IsTrue (is_plain_word word.now) }
    requires number { IsWithin128 number }
    requires den { pos 1 ≤ℤ den }
    ensures { OnOk result (out.new.items
        ≡ out.old.items ++ rows_text (ratio_record word.now number den ∷ [])) }
{
    let mut row = Row::start(alloc, word)?;
    row.push_ratio(number, den)?;
    put(alloc, out, &row)
}

/// Prints the last record.
fn put_end(alloc: Global, out: &mut Vec<u8>) -> Result<(), AllocError>
    ensures { OnOk result (out.new.items ≡ out.old.items ++ rows_text ((codes "end" ∷ []) ∷ [])) }
{
    put(alloc, out, &Row::start(alloc, b"end")?)
}

/// Prints a loss, its margin, and the margin rounded up.
fn put_loss(alloc: Global, out: &mut Vec<u8>, loss: i128, den: i128) -> Result<(), AllocError>
    requires loss { IsWithin128 loss }
    requires den { pos 1 ≤ℤ den }
    ensures { OnOk result (out.new.items ≡ out.old.items ++ rows_text (loss_records loss den)) }
{
    let margin = loss.max(0);
    put_ratio(alloc, out, b"loss", loss, den)?;
    put_ratio(alloc, out, b"margin", margin, den)?;
    let mut row = Row::start(alloc, b"charge")?;
    row.push_number(rounded_up(margin, den))?;
    put(alloc, out, &row)
}

/// The report of weights that refuse every calendar.
fn cannot_report(alloc: Global, accepted: &AcceptedWeights) -> Result<Vec<u8>, AllocError>
    ensures { IfOk result (λ text. text.items
        ≡ rows_text (cannot_records accepted.now.weights.case accepted.now.dates.now
        accepted.now.weights.weights)) }
{
    let mut out = Vec::new(alloc);
    put_words(alloc, &mut out, b"report", b"cannot")?;
    put_ratio(
        alloc,
        &mut out,
        b"short",
        weights::short(accepted),
        accepted.den(),
    )?;
    weights::put_fulls(alloc, &mut out, accepted)?;
    weights::put_limits(alloc, &mut out, accepted)?;
    weights::put_pools(alloc, &mut out, accepted)?;
    put_end(alloc, &mut out)?;
    Ok(out)
}

/// The records of a calendar's report, with its worst loss, the ledger of that scenario and its greatest losses.
fn closes_text(
    alloc: Global,
    accepted: &AcceptedCalendar,
    worst: WorstLoss,
    ledger: &Ledger,
    top: &[Loss],
) -> Result<Vec<u8>, AllocError>
    requires worst { IsWorstLoss accepted.now.calendar.case (planned accepted.now.calendar) worst }
    requires ledger { IsLedger
        accepted.now.calendar.case (planned accepted.now.calendar) worst.scenario ledger.now }
    requires top { AreTop accepted.now.calendar.case (planned accepted.now.calendar) top.now }
    ensures { IfOk result (λ text. text.items ≡ rows_text (closes_records
        accepted.now.calendar.case accepted.now.dates.now
        (planned accepted.now.calendar) worst.scenario top.now)) }
{
    let mut out = Vec::new(alloc);
    put_words(alloc, &mut out, b"report", b"closes")?;
    put_loss(alloc, &mut out, worst.loss, accepted.den())?;
    put_closes(alloc, &mut out, accepted)?;
    put_limits(alloc, &mut out, accepted)?;
    put_pools(alloc, &mut out, accepted)?;
    put_ledger(alloc, &mut out, accepted, ledger, worst.scenario)?;
    put_top(alloc, &mut out, accepted, top)?;
    put_end(alloc, &mut out)?;
    Ok(out)
}

/// The report of a calendar.
fn closes_report(alloc: Global, accepted: &AcceptedCalendar) -> Result<Vec<u8>, ReportFault>
    ensures text { IfOk result (λ text.
        IsClosesReport accepted.now.calendar.case (planned accepted.now.calendar) text.items) }
    ensures stops { IfErr result (StopsClosing accepted.now.calendar.case
        (planned accepted.now.calendar)) }
{
    let case = accepted.case();
    let calendar = accepted.calendar.calendar();
    let worst = worst(alloc, case, calendar)?;
    let ledger = replay(alloc, case, calendar, worst.scenario)?;
    let top = greatest(alloc, losses(alloc, accepted)?)?;
    let text = closes_text(alloc, accepted, worst, &ledger, &top)?;
    Ok(text)
}

/// The text of the report of a certificate that the check accepts: records of fields joined by commas, each ended by a
/// line feed. Fractions are two fields in lowest terms, and 0 is 0 over 1.
///
/// Of a calendar there are: its loss, the margin, which is the loss floored at nought, and the charge, which is the
/// margin rounded up; what is closed that is not 0, by day, line and tier; what is closed of the instruments, with the
/// limit, by day, instrument and tier, and the weighted closings of the pools, with the cap, by day and pool, where
/// closings on an expiry do not count; the ledger of the first scenario that has the worst loss, by house day: what is
/// paid, and the cash; and the five greatest losses, or all where there are fewer, of equal ones that of the earlier
/// scenario first, then that of the earlier day. Tiers are named where an instrument of the case has more than one.
///
/// Of weights that refuse there are: by how much the book is short, which is their bound, and then the weights that are
/// not 0: by line, by day, instrument and tier, and by day and pool, all over the weights' denominator.
///
/// The answer is `TooWide` only of a calendar, with the first scenario and in it the first day whose replay meets a number
/// above 2^127 - 1 in absolute value.
pub fn report(alloc: Global, case: &Case, cert: &Cert) -> Result<Vec<u8>, ReportFault>
    requires fits { Fits case.now cert.now }
    requires passed { verdict case.now cert.now ≡ Passed }
    requires shows { Shows case.now cert.now }
    ensures text { IfOk result (λ text. IsReport case.now cert.now text.items) }
    ensures stops { IfErr result (StopsReport case.now cert.now) }
{
    // Every case keeps the bounds that the places of a certificate stand on.
    let _kept = case.horizon();
    let dates = Dates::of_case(alloc, case)?;
    match cert {
        Cert::Closes { calendar, .. } => {
            let calendar = CaseCalendar::of(case, calendar);
            let dates = &dates;
            closes_report(alloc, &AcceptedCalendar { calendar, dates })
        }
        Cert::Cannot { weights } => {
            let weights = CaseWeights::of(case, weights);
            let dates = &dates;
            Ok(cannot_report(alloc, &AcceptedWeights { weights, dates })?)
        }
    }
}
