//! All bytes of a reader, up to a limit.

ghost use Rattle.std.specs.Prelude.{◌≡◌, ◌≢◌, ℕ, ◌+◌, ◌^◌, ◌<◌, ◌≤◌, List, length, IfOk, OnErr};
ghost use Rattle.std.specs.Prelude.{Err};
ghost use Rattle.std.specs.Io.KnownBytes.{Consumes, IsAtEnd};
ghost use Rattle.si_io.specs.Host.{IsReadTo};
ghost use Rattle.si_io.specs.Outside.{IsLoad, answer_of, one_more};

use crate::shelf::LoadFault;
use crate::system::Source;
use std::alloc::Global;

/// How many bytes one call of `read` may take.
const CHUNK: usize = 65_536;

/// Room for the bytes of one call of `read`.
fn new_chunk(alloc: Global) -> Result<Vec<u8>, LoadFault>
    ensures room { IfOk result (λ chunk. 0 < length chunk.items) }
    ensures fault { OnErr result (result ≡ Err LoadFault.NoMemory) }
{
    match vec![in alloc; 0u8; CHUNK] {
        Ok(chunk) => Ok(chunk),
        Err(_) => Err(LoadFault::NoMemory),
    }
}

/// All bytes that a reader has left, where they are at most `limit`. At most `limit + 1` of them
/// are taken, whatever the answer. A call of `read` that fails ends it with `Failed`, and raises
/// the count of faults; none is tried again.
pub fn read_all<R: Source>(
    alloc: Global,
    reader: &mut R,
    limit: u64,
    faults: &mut u64,
) -> Result<Vec<u8>, LoadFault>
    requires { limit + 1 < 2 ^ 64 }
    ensures load { IsLoad (R.remaining reader.old) limit faults.old faults.new result }
    ensures whole { IfOk result
        (λ v. Consumes (R.remaining reader.old) (R.remaining reader.new) v.items
        × IsAtEnd (R.remaining reader.new)) }
    ensures part { (part : List ℕ) × Consumes (R.remaining reader.old) (R.remaining reader.new) part
        × (length part ≤ limit + 1) }
    ensures taken { (taken : ℕ) → result ≡ Err (LoadFault.TooLong taken) → taken ≡ limit + 1 }
    ensures rises { result ≡ Err LoadFault.Failed → faults.new ≡ one_more faults.old }
    ensures calls { IsReadTo R.reads R.fails (answer_of result) reader.old reader.new }
    ensures stays { result ≢ Err LoadFault.Failed → faults.new ≡ faults.old }
    ensures later { faults.old ≤ faults.new }
{
    let mut buffer = new_chunk(alloc)?;
    let chunk = buffer.as_mut_slice();
    let mut bytes = Vec::new(alloc);
    while bytes.len() as u64 <= limit {
        let room = (limit - bytes.len() as u64).saturating_add(1);
        let size = chunk.len().min(room as usize);
        match reader.read_some(&mut chunk[..size]) {
            Ok(0) => return Ok(bytes),
            Ok(count) => {
                if bytes.extend_from_slice(&chunk[..count]).is_err() {
                    return Err(LoadFault::NoMemory);
                }
            }
            Err(_) => {
                *faults = faults.saturating_add(1);
                return Err(LoadFault::Failed);
            }
        }
    }
    Err(LoadFault::TooLong {
        taken: bytes.len() as u64,
    })
}
