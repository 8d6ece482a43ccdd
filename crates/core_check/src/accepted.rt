// Certificates that the check accepts, as values.
ghost use Rattle.std.specs.Prelude.{◌≡◌, OnOk, IfErr, IfOk};
ghost use Rattle.core_sums.specs.Sums.{total};
ghost use Rattle.core_book.specs.WellFormed.{IsCase};
ghost use Rattle.core_model.specs.Check.{Passed, bound_terms, verdict};
ghost use Rattle.core_model.specs.Fits.{Fits, IsWithin128};
ghost use Rattle.core_model.specs.Shows.{Shows};
ghost use Rattle.core_check.specs.Accepted.{cert_weights};
ghost use Rattle.core_check.specs.Answers.{Refuses};
ghost use Rattle.core_check.specs.Forms.{cert_of_form};

use crate::accepted_calendar::AcceptedCalendar;
use crate::accepted_weights::AcceptedWeights;
use crate::bounds::bound;
use crate::conditions::check_cert;
use crate::fault::CheckFault;
use crate::form::Form;
use crate::with_flows::WeightsAndFlows;
use core_book::Case;
use core_flows::Flows;
use core_model::{CaseCalendar, CaseWeights, Cert};
use std::alloc::Global;
use std::marker::Model;

/// A certificate that the check accepts, with its case and the case's flows. Contracts see the case and the certificate.
#[derive(Drop)]
pub struct Accepted<'a> {
    flows: Flows<'a>,
    cert: &'a Cert,
}

impl<'a> Model for Accepted<'a> {
    ghost use Rattle.core_check.specs.Accepted.{CertOfCase, IsAccepted};

    ghost Value = { CertOfCase };

    ghost view = { λ a. record { case = a.flows; cert = a.cert.now } };

    ghost invariant = { λ a. IsAccepted a.flows a.cert.now };
}

/// Judges a certificate of a case, as `check` does, and keeps it with the case, so that what it shows goes with it.
pub fn accept<'a>(alloc: Global, case: &'a Case, cert: &'a Cert) -> Result<Accepted<'a>, CheckFault>
    requires { Fits case.now cert.now }
    ensures value { IfOk result (λ accepted. accepted
        ≡ record { case = case.now; cert = cert.now }) }
    ensures passed { OnOk result (verdict case.now cert.now ≡ Passed) }
    ensures shows { OnOk result (Shows case.now cert.now) }
    ensures refused { IfErr result (Refuses (verdict case.now cert.now)) }
{
    case.well_formed();
    let flows = Flows::make(alloc, case)?;
    check_cert(&flows, cert)?;
    Ok(Accepted { flows, cert })
}

impl<'a> Accepted<'a> {
    /// The case.
    pub fn case(&self) -> &'a Case
        ensures value { result.now ≡ self.now.case }
        ensures kept { IsCase self.now.case }
    {
        self.flows.case()
    }

    /// The certificate: it has the lengths of its case, passes the check, and shows what it states.
    pub fn cert(&self) -> &'a Cert
        ensures value { result.now ≡ self.now.cert }
        ensures fits { Fits self.now.case self.now.cert }
        ensures passed { verdict self.now.case self.now.cert ≡ Passed }
        ensures shows { Shows self.now.case self.now.cert }
    {
        self.cert
    }

    /// The flows of the case.
    pub fn flows(&self) -> &Flows<'a>
        ensures { result.now ≡ self.now.case }
    {
        &self.flows
    }

    /// The weights of the certificate, of either form, with their case.
    pub fn weights(&self) -> CaseWeights<'a>
        ensures { result ≡ record { case = self.now.case; weights = cert_weights self.now.cert } }
    {
        let weights = match self.cert {
            Cert::Closes { weights, .. } => weights,
            Cert::Cannot { weights } => weights,
        };
        CaseWeights::of(self.flows.case(), weights)
    }

    /// The bound of its weights, as a numerator over their denominator: the loss of a calendar, and by how much a book
    /// that cannot be closed is short.
    pub fn bound(&self) -> i128
        ensures value { result ≡ total (bound_terms self.now.case (cert_weights self.now.cert)) }
        ensures kept { IsWithin128 result }
    {
        let weights = self.weights();
        bound(&WeightsAndFlows::of(&self.flows, weights.weights())).unwrap_or(0)
    }

    /// The certificate by its form.
    pub fn form(&'a self) -> Form<'a>
        ensures { cert_of_form result ≡ self.now }
    {
        let case = self.flows.case();
        match self.cert {
            Cert::Closes {
                calendar,
                loss,
                weights,
            } => Form::Closes(AcceptedCalendar {
                of_case: CaseCalendar::of(case, calendar),
                loss: *loss,
                weights: CaseWeights::of(case, weights),
            }),
            Cert::Cannot { weights } => Form::Cannot(AcceptedWeights {
                of_case: CaseWeights::of(case, weights),
                flows: &self.flows,
            }),
        }
    }
}
