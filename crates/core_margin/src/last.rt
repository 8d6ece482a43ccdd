// The certificate of the last dictionary of a run.
ghost use Rattle.std.specs.Prelude.{◌≡◌, Err, IfOk, OnOk};
ghost use Rattle.core_sums.specs.Widths.{most};
ghost use Rattle.core_book.specs.WellFormed.{IsCase};
ghost use Rattle.core_model.specs.Fits.{Fits, IsPlainlyRefusing};
ghost use Rattle.core_lp.specs.Named.{named_of};
ghost use Rattle.core_margin.specs.Last.{turn_of, IsReached, IsCertOf, CertLeaves};

use core_book::Case;
use core_dict::Store;
use core_duals::{DualFault, duals, farkas, list_law, primal};
use core_lp::{Built, Parts, cert_of};
use core_model::Cert;
use core_run::{End, Ran};
use exact_frac::Frac128;
use std::alloc::Global;

/// The last dictionary of a run that has ended, and its certificate.
#[derive(Drop)]
pub struct Solved<W> {
    pub dict: W,
    pub cert: Cert,
}

/// The certificate of the last dictionary of a run that has ended. `TooWide` comes exactly where a number that it is
/// made from is above 2^127 - 1 in absolute value: the common denominator of the solution, of the dual values with the
/// factor of the cost, or of the row that refuses; a numerator over it, printed or not; the fixed cash times the
/// denominator, or the loss. `NoMemory` comes for want of memory alone.
pub fn last_cert<W: Store<Frac128>>(
    alloc: Global,
    case: &Case,
    built: &Built,
    ran: &Ran<W>,
) -> Result<Cert, DualFault>
    requires built { built.now ≡ named_of case.now }
    requires reached { IsReached case.now (W.dictionary ran.now.dict) (turn_of ran.now.end) }
    ensures is { IfOk result (IsCertOf case.now (W.dictionary ran.now.dict) (turn_of ran.now.end)) }
    ensures kept { OnOk result
        (¬ (CertLeaves most case.now (W.dictionary ran.now.dict) (turn_of ran.now.end))) }
    ensures too_wide { result ≡ Err DualFault.TooWide
        → CertLeaves most case.now (W.dictionary ran.now.dict) (turn_of ran.now.end) }
    ensures fits { IfOk result (Fits case.now) }
    ensures refusing { IfOk result IsPlainlyRefusing }
{
    list_law();
    match ran.end {
        End::Optimal { .. } => {
            let primal = primal(alloc, &ran.dict)?;
            let duals = duals(alloc, &ran.dict)?;
            cert_of(alloc, case, built, &Parts::Optimal { primal, duals })
        }
        End::Cannot { row, .. } => {
            let farkas = farkas(alloc, &ran.dict, row)?;
            cert_of(alloc, case, built, &Parts::Cannot { farkas })
        }
    }
}
