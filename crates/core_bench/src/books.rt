// What the check of a certificate does with its book: reading, flows, replay and judgement.
ghost use Rattle.std.specs.Prelude.{◌≤◌, length, IfOk};
ghost use Rattle.core_book.specs.WellFormed.{IsCase};
ghost use Rattle.core_model.specs.Fits.{Fits};

use crate::clock::spent;
use crate::file::file_bytes;
use anyhow::{Result, bail};
use core_book::Case;
use core_case::read_case;
use core_cert::read_cert;
use core_check::check;
use core_flows::Flows;
use core_io::Shelf;
use core_model::Cert;
use core_replay::worst;
use std::alloc::Global;
use std::time::CpuClock;

/// Prints how many nanoseconds each part takes of what is done once with a case and a certificate of a calendar for it:
/// the reading of both, the flows of the case, the replay of the calendar in all scenarios, and the check, which has to
/// accept the certificate.
pub fn run<R: Print + AllocGlobal + CpuClock, S: Shelf>(
    rt: &R,
    shelf: &mut S,
    case_name: &str,
    cert_name: &str,
) -> Result<()> {
    let alloc = rt.alloc();
    let case_bytes = file_bytes(alloc, shelf, case_name)?;
    let cert_bytes = file_bytes(alloc, shelf, cert_name)?;
    let start = rt.thread_cpu_time()?;
    let case = case_of(alloc, &case_bytes)?;
    let middle = rt.thread_cpu_time()?;
    let cert = cert_of(alloc, &case, &cert_bytes)?;
    let end = rt.thread_cpu_time()?;
    rt.println("part,nanoseconds")?;
    report(rt, "case", spent(start, middle, case.lines() as u128))?;
    report(rt, "certificate", spent(middle, end, 0))?;
    time_work(rt, &case, &cert)
}

// Prints the time of each part that comes after the reading.
fn time_work<R: Print + AllocGlobal + CpuClock>(rt: &R, case: &Case, cert: &Cert) -> Result<()>
    requires kept { IsCase case.now }
    requires fits { Fits case.now cert.now }
{
    let alloc = rt.alloc();
    let start = rt.thread_cpu_time()?;
    let fixed = Flows::make(alloc, case)?.fixed(0);
    let made = rt.thread_cpu_time()?;
    let day = worst_day(alloc, case, cert)?;
    let replayed = rt.thread_cpu_time()?;
    accept(alloc, case, cert)?;
    let end = rt.thread_cpu_time()?;
    report(rt, "flows", spent(start, made, fixed.unsigned_abs()))?;
    report(rt, "replay", spent(made, replayed, u128::from(day)))?;
    report(rt, "check", spent(replayed, end, 0))
}

fn report<R: Print>(rt: &R, part: &str, nanoseconds: u128) -> Result<()> {
    rt.println(format_args!("{part},{nanoseconds}"))?;
    Ok(())
}

/// The case of a text.
pub fn case_of(alloc: Global, bytes: &[u8]) -> Result<Case>
    requires { length bytes.now ≤ 4194304 }
    ensures { IfOk result IsCase }
{
    match read_case(alloc, bytes) {
        Ok(case) => Ok(case),
        Err(fault) => bail!("no case was read: {fault:?}"),
    }
}

fn cert_of(alloc: Global, case: &Case, bytes: &[u8]) -> Result<Cert>
    requires { length bytes.now ≤ 4194304 }
    ensures { IfOk result (Fits case.now) }
{
    match read_cert(alloc, case, bytes) {
        Ok(cert) => Ok(cert),
        Err(fault) => bail!("no certificate was read: {fault:?}"),
    }
}

// The house day on which the certificate's calendar has its worst loss.
fn worst_day(alloc: Global, case: &Case, cert: &Cert) -> Result<u8>
    requires { Fits case.now cert.now }
{
    let Cert::Closes { calendar, .. } = cert else {
        bail!("the certificate has no calendar");
    };
    if calendar.den < 1 {
        bail!("the calendar's denominator is below 1");
    }
    match worst(alloc, case, calendar) {
        Ok(loss) => Ok(loss.day),
        Err(fault) => bail!("the replay failed: {fault:?}"),
    }
}

// Judges the certificate, and fails where it is not accepted.
fn accept(alloc: Global, case: &Case, cert: &Cert) -> Result<()>
    requires kept { IsCase case.now }
    requires fits { Fits case.now cert.now }
{
    match check(alloc, case, cert) {
        Ok(()) => Ok(()),
        Err(fault) => bail!("the certificate is not accepted: {fault:?}"),
    }
}
