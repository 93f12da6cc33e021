// Whole files read, and whole texts written.
ghost use Rattle.std.specs.Prelude.{◌≡◌, ℕ, ◌+◌, ◌<◌, ◌≤◌, ◌↔◌, ◌++◌, take, length, IfOk, IfSome, IsErrOf, IsSomeAnd, None, Some, OnErr, OnOk};
ghost use Rattle.std.specs.Io.KnownBytes.{Appends};
ghost use Rattle.clr_io.specs.Causes.{HasCause, Rose};
ghost use Rattle.clr_io.specs.Files.{held};

use crate::read_buffer::PIECE;
use crate::{Failed, Shelf, Sink};
use std::alloc::{AllocError, Global};
use thiserror::Error;

/// Why a file was not read whole.
#[derive(Clone, Copy, Debug, PartialEq, Eq, Error)]
pub enum ReadError {
    /// The shelf failed.
    #[error("the file could not be read")]
    Failed,
    /// The shelf holds no file of that name.
    #[error("there is no such file")]
    Absent,
    /// More than `max` bytes were taken.
    #[error("the file has more than {max} bytes")]
    TooLong {
        /// The limit that was passed, in bytes.
        max: u64,
    },
    /// Memory was wanting.
    #[error("out of memory")]
    Memory,
}

/// The bytes of the file of a name, of which there may be at most `max`.
///
/// It reads pieces of up to 65,536 bytes, and stops at the end, at a fault, or once more than `max`
/// bytes were taken. After an error the shelf stands where its last call left it.
pub fn read_whole<H: Shelf>(
    alloc: Global,
    shelf: &mut H,
    name: &str,
    max: u64,
) -> Result<Vec<u8>, ReadError>
    ensures bytes { IfOk result (λ v. IfSome (H.files shelf.old) (λ files. held name.now files ≡ Some v.items)) }
    ensures taken { IfOk result (λ v. (H.taken shelf.new ≡ length v.items) × (length v.items ≤ max)) }

    // When each error comes. Memory may be wanting at any time.
    ensures too_long { IsErrOf result (ReadError.TooLong max) ↔ (max < H.taken shelf.new) }
    ensures limit { (n : ℕ) → IsErrOf result (ReadError.TooLong n) → n ≡ max }
    ensures longer { IsErrOf result (ReadError.TooLong max) → IfSome (H.files shelf.old) (λ files. IsSomeAnd (held name.now files) (λ bytes. max < length bytes)) }
    ensures absent { IfSome (H.files shelf.old) (λ files. IsErrOf result ReadError.Absent ↔ ((held name.now files ≡ None) × ¬ IsErrOf result ReadError.Failed)) }
    ensures no_fault { IsErrOf result ReadError.Absent → H.faults shelf.new ≡ H.faults shelf.old }
    ensures failed { IsErrOf result ReadError.Failed → Rose (H.faults shelf.old) (H.faults shelf.new) }

    // It stops once more than the limit was taken: within one more buffer.
    ensures within { H.taken shelf.new ≤ max + 65_536 }

    ensures files { H.files shelf.new ≡ H.files shelf.old }
    ensures later { H.faults shelf.old ≤ H.faults shelf.new }
{
    match shelf.open(name) {
        Ok(true) => {}
        Ok(false) => return Err(ReadError::Absent),
        Err(_) => return Err(ReadError::Failed),
    }
    let mut buffer = match zeros(alloc, PIECE) {
        Ok(buffer) => buffer,
        Err(_) => return Err(ReadError::Memory),
    };
    read_rest(shelf, &mut buffer, Vec::new(alloc), max)
}

fn zeros(alloc: Global, len: usize) -> Result<Vec<u8>, AllocError>
    ensures { IfOk result (λ v. length v.items ≡ len) }
{
    vec![in alloc; 0u8; len]
}

// The bytes that are left of the open file, behind those that were taken before.
fn read_rest<H: Shelf>(
    shelf: &mut H,
    buffer: &mut [u8],
    mut bytes: Vec<u8>,
    max: u64,
) -> Result<Vec<u8>, ReadError>
    requires room { 0 < length buffer.old }
    requires start { H.taken shelf.old ≡ length bytes.items }
    requires within { length bytes.items ≤ max }
    ensures bytes { IfOk result (λ v. IfSome (H.rest shelf.old) (λ rest. v.items ≡ bytes.items ++ rest)) }
    ensures taken { IfOk result (λ v. (H.taken shelf.new ≡ length v.items) × (length v.items ≤ max)) }
    ensures too_long { IsErrOf result (ReadError.TooLong max) ↔ (max < H.taken shelf.new) }
    ensures limit { (n : ℕ) → IsErrOf result (ReadError.TooLong n) → n ≡ max }
    ensures longer { IsErrOf result (ReadError.TooLong max) → IfSome (H.rest shelf.old) (λ rest. max < length bytes.items + length rest) }
    ensures held { IsErrOf result ReadError.Absent → ⊥ }
    ensures failed { IsErrOf result ReadError.Failed → Rose (H.faults shelf.old) (H.faults shelf.new) }
    ensures stops { H.taken shelf.new ≤ max + length buffer.old }
    ensures files { H.files shelf.new ≡ H.files shelf.old }
    ensures later { H.faults shelf.old ≤ H.faults shelf.new }
{
    loop {
        let count = match shelf.read(buffer) {
            Ok(count) => count,
            Err(_) => return Err(ReadError::Failed),
        };
        if count == 0 {
            return Ok(bytes);
        }
        if count as u64 > max - bytes.len() as u64 {
            return Err(ReadError::TooLong { max });
        }
        if bytes.extend_from_slice(&buffer[..count]).is_err() {
            return Err(ReadError::Memory);
        }
    }
}

/// Writes all the bytes. After a fault a front of them stands written, perhaps all or none.
///
/// It takes no memory, and leaves what stands round the bytes as it was.
pub fn write_whole<K: Sink>(sink: &mut K, bytes: &[u8]) -> Result<(), Failed>
    ensures ok { OnOk result (Appends (K.written sink.old) (K.written sink.new) bytes.now) }
    ensures err { OnErr result ((n : ℕ) × (n ≤ length bytes.now) × Appends (K.written sink.old) (K.written sink.new) (take n bytes.now)) }
    ensures around { K.around sink.new ≡ K.around sink.old }
    ensures cause { HasCause (K.faults sink.old) (K.faults sink.new) result }
{
    let mut done = 0;
    while done < bytes.len() {
        done += sink.write(&bytes[done..])?;
    }
    Ok(())
}
