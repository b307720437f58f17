// The files of an input, read whole.
ghost use Rattle.std.specs.Prelude.{◌≡◌, ◌≤◌, length, IfOk, IfErr, IfSome};
ghost use Rattle.dl_io.specs.Count.{HasRisen, NoneFalls};
ghost use Rattle.dl_io.specs.Files.{max_bytes};
ghost use Rattle.dl_run.specs.Files.{IsFileStop};
ghost use Rattle.dl_run.specs.Stops.{stop_of_file};

use crate::stop::{InputFile, Refusal, Stop};
use dl_io::{FileFault, Library, read_whole};
use std::alloc::Global;

/// The bytes of a file of the input, or why there are none.
pub(crate) fn read_file<L: Library>(
    alloc: Global,
    files: &mut L,
    name: &str,
    file: InputFile,
) -> Result<Vec<u8>, Stop>
    ensures whole { IfOk result (λ bytes.
        IfSome (L.told files.old) (λ file_of. bytes.items ≡ file_of name.now)) }
    ensures fits { IfOk result (λ bytes. length bytes.items ≤ max_bytes) }
    ensures stop { IfErr result (IsFileStop file (L.told files.old) name.now
        (HasRisen (L.faults files.old name.now) (L.faults files.new name.now))) }
    ensures unchanged { L.told files.new ≡ L.told files.old }
    ensures count { NoneFalls (L.faults files.old) (L.faults files.new) }
{
    match read_whole(alloc, files, name) {
        Ok(bytes) => Ok(bytes),
        Err(fault) => Err(stop_of_file(file, fault)),
    }
}

/// What a fault of a file means for the command.
fn stop_of_file(file: InputFile, fault: FileFault) -> Stop
    ensures { result ≡ stop_of_file file fault }
{
    match fault {
        FileFault::Failed => Stop::ReadFault,
        FileFault::TooLong => Stop::Refused(Refusal::TooLong { file }),
        FileFault::NoMemory => Stop::NoMemory,
    }
}
