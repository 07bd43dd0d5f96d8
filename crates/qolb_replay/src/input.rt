//! Reads the whole input of a replay before the replay begins.
ghost use Rattle.std.specs.Prelude.{◌≡◌, ◌≢◌, ◌↔◌, ◌<◌, ◌≤◌, true, length, IfOk, IfSome, Err, vec_len};
ghost use Rattle.qolb_script.specs.declared.error.ScriptError.{ScriptError};
ghost use Rattle.qolb_script.specs.Watched.{inner_of, has_failed};

use crate::replay::ReplayError;
use qolb_script::{Fault, Watched};
use std::alloc::Allocator;
use std::io::Read;

/// The largest number of bytes that a script may have.
pub const MAX_BYTES: usize = 16_777_216;

/// Reads the rest of the input, up to `MAX_BYTES` bytes.
///
/// # Errors
///
/// Returns `Memory` if an allocation failed, `Read` if the reader failed, and `Long` if the input has more bytes.
pub fn read_all<A: Allocator, R: Read>(
    alloc: A,
    reader: &mut Watched<R>,
) -> Result<Vec<u8, A>, ReplayError>
    ensures whole { IfOk result (λ bytes.
        IfSome (R.remaining (inner_of reader.old)) (λ rest. bytes.items ≡ rest)) }
    ensures fits { IfOk result (λ bytes. vec_len bytes ≤ MAX_BYTES) }
    ensures read { (result ≡ Err ReplayError.Read) ↔ (has_failed reader.new ≡ true) }
    ensures long { result ≡ Err ReplayError.Long
        → IfSome (R.remaining (inner_of reader.old)) (λ rest. MAX_BYTES < length rest) }
    ensures no_script { (fault : ScriptError) → result ≢ Err (ReplayError.Script fault) }
    ensures no_write { result ≢ Err ReplayError.Write }
{
    let mut all = Vec::new(alloc);
    let mut part = [0u8; 4096];
    for turn in 0..MAX_BYTES + 1 {
        match reader.read(&mut part) {
            Ok(0) => return Ok(all),
            Ok(n) => {
                if n > MAX_BYTES - all.len() {
                    return Err(ReplayError::Long);
                }
                if all.extend_from_slice(&part[..n]).is_err() {
                    return Err(ReplayError::Memory);
                }
            }
            Err(Fault) => return Err(ReplayError::Read),
        }
    }
    unreachable!()
}
