// The files of a call: what they state under their names, or the reply where they state nothing.
ghost use Rattle.std.specs.Prelude.{◌≡◌, ◌≤◌, Ok, IfOk, IfErr, IfSome, length};
ghost use Rattle.core_io.specs.States.{KeepsBytes, KeepsCounts, ReadFailed};
ghost use Rattle.core_case.specs.Stated.{case_of_bytes};
ghost use Rattle.core_model.specs.Fits.{Fits};
ghost use Rattle.core_cert.specs.Stated.{cert_of_bytes};
ghost use Rattle.core_top.specs.Answers.{Ends};
ghost use Rattle.core_top.specs.Around.{Between};
ghost use Rattle.core_top.specs.Files.{file_limit, AtCase, AtCert, IsUnread, Nothing, ReadAs};

use crate::answers::{File, Reply};
use crate::stop::Stop;
use core_case::{Case, CaseFault, read_case};
use core_cert::{CertFault, read_cert};
use core_io::{ReadAll, Shelf, read_all};
use core_model::Cert;
use std::alloc::Global;

/// The greatest length of a file, in bytes.
const FILE_LIMIT: u64 = 4_194_304;

/// The bytes under the name of a file.
fn bytes_under<S: Shelf>(
    alloc: Global,
    shelf: &mut S,
    file: File,
    name: &str,
) -> Result<Vec<u8>, Stop>
    ensures bytes { IfOk result (λ v. IfSome ((S.state shelf.old).told name.now)
        (λ bytes. v.items ≡ bytes)) }
    ensures at_most { IfOk result (λ v. length v.items ≤ file_limit) }
    ensures ends { IfErr result (Ends (IsUnread file ((S.state shelf.old).told name.now)
        (ReadFailed (S.state shelf.old) (S.state shelf.new) name.now))) }
    ensures kept { KeepsBytes (S.state shelf.old) (S.state shelf.new) }
    ensures counts { KeepsCounts (S.state shelf.old) (S.state shelf.new) }
{
    match read_all(alloc, shelf, name, FILE_LIMIT) {
        Ok(bytes) => Ok(bytes),
        Err(ReadAll::Fault) => Err(Stop::Said(Reply::Unread(file))),
        Err(ReadAll::Long) => Err(Stop::Said(Reply::Bad {
            file,
            row: 0,
            code: 0,
        })),
        Err(ReadAll::NoMemory) => Err(Stop::NoMemory),
    }
}

impl From<CaseFault> for Stop {
    ghost use Rattle.std.specs.Prelude.{◌≡◌};
    ghost use Rattle.core_top.specs.Answers.{case_stop};

    ghost from_gives = { λ fault stop. stop ≡ case_stop fault };

    fn from(fault: CaseFault) -> Stop {
        match fault {
            CaseFault::Bad { row, code } => Stop::Said(Reply::Bad {
                file: File::Case,
                row,
                code,
            }),
            CaseFault::NoMemory => Stop::NoMemory,
        }
    }
}

impl From<CertFault> for Stop {
    ghost use Rattle.std.specs.Prelude.{◌≡◌};
    ghost use Rattle.core_top.specs.Answers.{cert_stop};

    ghost from_gives = { λ fault stop. stop ≡ cert_stop fault };

    fn from(fault: CertFault) -> Stop {
        match fault {
            CertFault::Bad { row, code } => Stop::Said(Reply::Bad {
                file: File::Cert,
                row,
                code,
            }),
            CertFault::NoMemory => Stop::NoMemory,
        }
    }
}

/// The case under a name.
pub(crate) fn case_under<S: Shelf>(alloc: Global, shelf: &mut S, name: &str) -> Result<Case, Stop>
    ensures states { IfOk result (λ case. ReadAs case_of_bytes
        ((S.state shelf.old).told name.now) (Ok case)) }
    ensures ends { IfErr result (Ends (Between (S.state shelf.old) (S.state shelf.new)
        (λ told rose. AtCase told rose name.now Nothing))) }
    ensures kept { KeepsBytes (S.state shelf.old) (S.state shelf.new) }
    ensures counts { KeepsCounts (S.state shelf.old) (S.state shelf.new) }
{
    let bytes = bytes_under(alloc, shelf, File::Case, name)?;
    Ok(read_case(alloc, &bytes)?)
}

/// The certificate for a case under a name.
pub(crate) fn cert_under<S: Shelf>(
    alloc: Global,
    shelf: &mut S,
    case: &Case,
    name: &str,
) -> Result<Cert, Stop>
    ensures fits { IfOk result (λ cert. Fits case.now cert) }
    ensures states { IfOk result (λ cert. ReadAs (cert_of_bytes case.now)
        ((S.state shelf.old).told name.now) (Ok cert)) }
    ensures ends { IfErr result (Ends (Between (S.state shelf.old) (S.state shelf.new)
        (λ told rose. AtCert told rose name.now case.now Nothing))) }
    ensures kept { KeepsBytes (S.state shelf.old) (S.state shelf.new) }
    ensures counts { KeepsCounts (S.state shelf.old) (S.state shelf.new) }
{
    let bytes = bytes_under(alloc, shelf, File::Cert, name)?;
    Ok(read_cert(alloc, case, &bytes)?)
}
