//! Source files that are read whole.
ghost use Rattle.std.specs.Prelude.{◌≡◌, ◌≤◌, IfOk, IfErr};
ghost use Rattle.fpc_cli.specs.Inputs.{IsReadWhole, IsUnread};

use crate::answer::{Answer, Role};
use fpc_base::outside::Files;
use fpc_base::refusal::{Code, ReadRefusal, Refusal};
use fpc_base::transfer::read_all;
use std::alloc::Global;

/// The most bytes of a source file.
const SOURCE_LIMIT: usize = 16_777_216;

/// Opens a file for this role and reads it to its end, or as far as shows that it is too large.
pub fn source_in<F: Files>(
    alloc: Global,
    role: Role,
    name: &str,
    files: &mut F,
) -> Result<Vec<u8>, Answer>
    ensures read { IfOk result (λ v.
        IsReadWhole ((F.outside files.old).content name.now) name.now
        (F.outside files.old) (F.outside files.new) v.items) }
    ensures unread { IfErr result (IsUnread role ((F.outside files.old).content name.now) name.now
        (F.outside files.old) (F.outside files.new)) }
    ensures never_falls { (F.outside files.old).faults ≤ (F.outside files.new).faults }
    ensures content { (F.outside files.new).content ≡ (F.outside files.old).content }
{
    if files.open(name).is_err() {
        return Err(Answer::ReadFault);
    }
    match read_all(alloc, files, SOURCE_LIMIT) {
        Ok(bytes) => Ok(bytes),
        Err(ReadRefusal::Failed) => Err(Answer::ReadFault),
        Err(ReadRefusal::OutOfMemory) => Err(Answer::OutOfMemory),
        Err(ReadRefusal::TooLarge) => Err(Answer::Refused {
            role,
            refusal: Refusal {
                code: Code::TooLarge,
                at: SOURCE_LIMIT,
            },
        }),
    }
}
