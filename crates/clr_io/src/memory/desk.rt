// Files made in memory, their bytes one after another in one list.
ghost use Rattle.std.specs.Prelude.{◌≡◌, ◌+◌, ◌<◌, ◌≤◌, ◌++◌, ◌∷◌, [], drop, length, map, option_map, slice_get, true, IfOk, OnErr, OnOk, Some, string_bytes, string_capacity, vec_capacity};
ghost use Rattle.std.specs.Io.KnownBytes.{WriteAppends};
ghost use Rattle.clr_io.specs.Causes.{HasCause};
ghost use Rattle.clr_io.specs.Entries.{in_order, start_of};

use super::calls::Calls;
use crate::{Desk, Failed, Sink};
use std::alloc::{AllocError, Global};

// The longest name that a file may have, in bytes.
const LONGEST_NAME: usize = 255;

// A file that was made: its name, and where its bytes begin among all bytes.
#[derive(Drop)]
struct Entry {
    name: String,
    start: usize,
}

// A text with room for the longest name, in which a file's name will stand.
#[derive(Drop)]
struct SpareName {
    text: String,
    ghost empty: { string_bytes text ≡ [] },
    ghost room: { 255 ≤ string_capacity text },
}

impl SpareName {
    fn new(alloc: Global) -> Result<SpareName, AllocError> {
        Ok(SpareName {
            text: String::with_capacity(alloc, LONGEST_NAME)?,
        })
    }

    fn filled(mut self, name: &str) -> String
        requires { length name.now ≤ 255 }
        ensures { string_bytes result ≡ name.now }
    {
        self.text.push_str(name).unwrap();
        self.text
    }
}

/// A desk that makes files in memory. It takes its memory when it is made.
///
/// Both `write` and `create` count as calls. A write takes the least of `piece`, the piece's length
/// and the room left. Before the first file it takes the whole piece, uses no room and keeps
/// nothing. A call fails where it is chosen, a write where no room is left for a piece that isn't
/// empty, a `create` past the number of files or with a name longer than 255 bytes, and no other.
#[derive(Drop)]
pub struct MemoryDesk {
    bytes: Vec<u8>,
    entries: Vec<Entry>,
    spare: Vec<SpareName>,
    room: usize,
    piece: usize,
    calls: Calls,
    ghost piece_is: { 1 ≤ piece },
    ghost reserved: { room + length bytes.items ≤ vec_capacity bytes },
    ghost places: { length entries.items + length spare.items ≤ vec_capacity entries },
    ghost ordered: { in_order entries.items (length bytes.items) ≡ true },
}

impl MemoryDesk {
    ghost use Rattle.clr_io.specs.MemoryDesk.{IsNewDesk, files_on};

    /// A desk for `files` files, with room for `room` bytes over all of them, which takes at most
    /// `piece` bytes at a time, and whose calls of the numbers `fail`, counted from 1, are faults.
    pub fn new(
        alloc: Global,
        files: usize,
        room: usize,
        piece: usize,
        fail: Vec<u64>,
    ) -> Result<MemoryDesk, AllocError>
        requires { 1 ≤ piece }
        ensures made { IfOk result (λ d. ⟦<MemoryDesk as Desk>⟧.made d ≡ Some []) }
        ensures faults { IfOk result (λ d. ⟦<MemoryDesk as Sink>⟧.faults d ≡ 0) }
        ensures fresh { IfOk result (λ d. IsNewDesk d files room piece fail.items) }
    {
        Ok(MemoryDesk {
            bytes: Vec::with_capacity(alloc, room)?,
            entries: Vec::with_capacity(alloc, files)?,
            spare: spare_names(alloc, files)?,
            room,
            piece,
            calls: Calls::new(fail),
        })
    }

    /// How many files were made.
    pub fn count(&self) -> usize
        ensures { result ≡ length (files_on self.now) }
    {
        self.entries.len()
    }

    /// The name of file `i`, counted from 0 in the order of creation.
    pub fn name(&self, i: usize) -> &str
        requires { i < length (files_on self.now) }
        ensures { slice_get (map (λ file. file.0) (files_on self.now)) i ≡ Some result.now }
    {
        self.entries[i].name.as_str()
    }

    /// The bytes of file `i`, counted from 0 in the order of creation.
    pub fn bytes(&self, i: usize) -> &[u8]
        requires { i < length (files_on self.now) }
        ensures { slice_get (map (λ file. file.1) (files_on self.now)) i ≡ Some result.now }
    {
        let len = self.bytes.len();
        let start = start_at(&self.entries, i, len);
        let end = start_at(&self.entries, i + 1, len);
        &self.bytes[start..end]
    }
}

// Where the bytes of file `i` begin, or all bytes end where there is no such file.
fn start_at(entries: &[Entry], i: usize, end: usize) -> usize
    ensures { result ≡ start_of (drop i entries.now) end }
{
    if i < entries.len() {
        entries[i].start
    } else {
        end
    }
}

// Room for the names of this many files.
fn spare_names(alloc: Global, files: usize) -> Result<Vec<SpareName>, AllocError>
    ensures { IfOk result (λ v. length v.items ≡ files) }
{
    let mut spare = Vec::with_capacity(alloc, files)?;
    for _ in 0..files {
        spare.push(SpareName::new(alloc)?)?;
    }
    Ok(spare)
}

impl Sink for MemoryDesk {
    ghost use Rattle.std.specs.Prelude.{Some};
    ghost use Rattle.clr_io.specs.Files.{around_last, last_bytes};
    ghost use Rattle.clr_io.specs.MemoryDesk.{IsWritten, files_on};

    ghost written = { λ d. last_bytes (files_on d) };

    ghost around = { λ d. Some (around_last (files_on d)) };

    ghost faults = { λ d. d.calls.faults.count };

    ghost faults_fit = { λ d. d.calls.faults.fits };

    // The clauses of `Sink::write`, and what this desk adds.
    fn write(&mut self, piece: &[u8]) -> Result<usize, Failed>
        ensures count { IfOk result (λ n. n ≤ length piece.now) }
        ensures some { 0 < length piece.now → IfOk result (λ n. 1 ≤ n) }
        ensures bytes { WriteAppends (⟦<MemoryDesk as Sink>⟧.written self.old) (⟦<MemoryDesk as Sink>⟧.written self.new) result piece.now }
        ensures empty { piece.now ≡ [] → OnOk result ((⟦<MemoryDesk as Sink>⟧.written self.new ≡ ⟦<MemoryDesk as Sink>⟧.written self.old) × (⟦<MemoryDesk as Sink>⟧.faults self.new ≡ ⟦<MemoryDesk as Sink>⟧.faults self.old)) }
        ensures kept { OnErr result (⟦<MemoryDesk as Sink>⟧.written self.new ≡ ⟦<MemoryDesk as Sink>⟧.written self.old) }
        ensures around { ⟦<MemoryDesk as Sink>⟧.around self.new ≡ ⟦<MemoryDesk as Sink>⟧.around self.old }
        ensures cause { HasCause (⟦<MemoryDesk as Sink>⟧.faults self.old) (⟦<MemoryDesk as Sink>⟧.faults self.new) result }
        ensures exact { IsWritten self.old self.new piece.now result }
    {
        self.calls.begin()?;
        if self.entries.is_empty() {
            return Ok(piece.len());
        }
        if self.room == 0 && !piece.is_empty() {
            return Err(self.calls.fault());
        }
        let count = self.piece.min(piece.len()).min(self.room);
        self.room -= count;
        self.bytes.extend_from_slice(&piece[..count]).unwrap();
        Ok(count)
    }
}

impl Desk for MemoryDesk {
    ghost use Rattle.std.specs.Prelude.{Some, refl};
    ghost use Rattle.clr_io.specs.MemoryDesk.{IsCreated, files_on};

    ghost made = { λ d. Some (files_on d) };

    ghost shows = { λ _. (refl, refl) };

    // The clauses of `Desk::create`, and what this desk adds.
    fn create(&mut self, name: &str) -> Result<(), Failed>
        ensures ok { OnOk result (⟦<MemoryDesk as Desk>⟧.made self.new ≡ option_map (λ files. files ++ (name.now, []) ∷ []) (⟦<MemoryDesk as Desk>⟧.made self.old)) }
        ensures err { OnErr result (⟦<MemoryDesk as Desk>⟧.made self.new ≡ ⟦<MemoryDesk as Desk>⟧.made self.old) }
        ensures cause { HasCause (⟦<MemoryDesk as Sink>⟧.faults self.old) (⟦<MemoryDesk as Sink>⟧.faults self.new) result }
        ensures exact { IsCreated self.old self.new name.now result }
    {
        self.calls.begin()?;
        if name.len() > LONGEST_NAME {
            return Err(self.calls.fault());
        }
        let Some(spare) = self.spare.pop() else {
            return Err(self.calls.fault());
        };
        let entry = Entry {
            name: spare.filled(name),
            start: self.bytes.len(),
        };
        self.entries.push(entry).unwrap();
        Ok(())
    }
}
