// A buffer of bytes that were read from a shelf and not yet given.
ghost use Rattle.std.specs.Prelude.{◌≡◌, ◌+◌, ◌-◌, ◌≤◌, ◌<◌, [], drop, take, slice_range, length, IfOk, MatchResult};
ghost use Rattle.std.specs.Io.KnownBytes.{Consumes, IsAtEnd};
ghost use Rattle.clr_io.specs.Causes.{HasCause};
ghost use Rattle.clr_io.specs.ReadBuffer.{TakesPiece};

use crate::{Failed, Shelf};
use std::alloc::{AllocError, Global};
use std::marker::Model;

/// The number of bytes that one read asks for.
pub(crate) const PIECE: usize = 65_536;

/// Bytes that were read and not yet given, and before them those that were given last. It takes its memory when it is made.
#[derive(Drop)]
pub(crate) struct ReadBuffer {
    bytes: Vec<u8>,
    given_start: usize,
    given_end: usize,
    start: usize,
    end: usize,
}

impl Model for ReadBuffer {
    ghost use Rattle.std.specs.Prelude.{length, slice_range, ◌≤◌};
    ghost use Rattle.clr_io.specs.ReadBuffer.{Buffered};

    ghost Value = { Buffered };

    ghost view = { λ b. record { room = length b.bytes.items; given = slice_range b.bytes.items b.given_start b.given_end; held = slice_range b.bytes.items b.start b.end } };

    ghost invariant = { λ b. (b.given_start ≤ b.given_end) × (b.given_end ≤ length b.bytes.items) × (b.start ≤ b.end) × (b.end ≤ length b.bytes.items) };
}

// Moves a part to the front, and tells its length.
fn to_front(bytes: &mut [u8], start: usize, end: usize) -> usize
    requires start { start ≤ end }
    requires end { end ≤ length bytes.old }
    ensures count { result ≡ end - start }
    ensures front { take result bytes.new ≡ slice_range bytes.old start end }
{
    if start > 0 {
        bytes.copy_within(start..end, 0);
    }
    end - start
}

// Reads a piece behind the first bytes.
fn read_behind<H: Shelf>(shelf: &mut H, bytes: &mut [u8], count: usize) -> Result<usize, Failed>
    requires { count + 65536 ≤ length bytes.old }
    ensures front { take count bytes.new ≡ take count bytes.old }
    ensures piece { IfOk result (λ n. (n ≤ 65536) × Consumes (H.rest shelf.old) (H.rest shelf.new) (slice_range bytes.new count (count + n)) × (n ≡ 0 → IsAtEnd (H.rest shelf.new))) }
    ensures taken { MatchResult result (λ n. H.taken shelf.new ≡ H.taken shelf.old + n) (λ _. H.taken shelf.new ≡ H.taken shelf.old) }
    ensures files { H.files shelf.new ≡ H.files shelf.old }
    ensures cause { HasCause (H.faults shelf.old) (H.faults shelf.new) result }
{
    shelf.read(&mut bytes[count..count + PIECE])
}

// Moves a part to the front, and reads a piece behind it.
fn read_after<H: Shelf>(
    shelf: &mut H,
    bytes: &mut [u8],
    start: usize,
    end: usize,
) -> Result<usize, Failed>
    requires start { start ≤ end }
    requires end { end ≤ length bytes.old }
    requires room { (end - start) + 65536 ≤ length bytes.old }
    ensures front { take (end - start) bytes.new ≡ slice_range bytes.old start end }
    ensures piece { IfOk result (λ n. (n ≤ 65536) × Consumes (H.rest shelf.old) (H.rest shelf.new) (slice_range bytes.new (end - start) ((end - start) + n)) × (n ≡ 0 → IsAtEnd (H.rest shelf.new))) }
    ensures taken { MatchResult result (λ n. H.taken shelf.new ≡ H.taken shelf.old + n) (λ _. H.taken shelf.new ≡ H.taken shelf.old) }
    ensures files { H.files shelf.new ≡ H.files shelf.old }
    ensures cause { HasCause (H.faults shelf.old) (H.faults shelf.new) result }
{
    let count = to_front(bytes, start, end);
    read_behind(shelf, bytes, count)
}

impl ReadBuffer {
    /// An empty buffer with room for so many bytes.
    ///
    /// # Errors
    /// Where memory is wanting.
    pub(crate) fn new(alloc: Global, room: usize) -> Result<ReadBuffer, AllocError>
        ensures { IfOk result (λ buffer. (buffer.room ≡ room) × (buffer.given ≡ []) × (buffer.held ≡ [])) }
    {
        Ok(ReadBuffer {
            bytes: vec![in alloc; 0u8; room]?,
            given_start: 0,
            given_end: 0,
            start: 0,
            end: 0,
        })
    }

    /// The bytes that were given last.
    pub(crate) fn given(&self) -> &[u8]
        ensures { result.now ≡ self.now.given }
    {
        &self.bytes[self.given_start..self.given_end]
    }

    /// The bytes that were not yet given.
    pub(crate) fn held(&self) -> &[u8]
        ensures { result.now ≡ self.now.held }
    {
        &self.bytes[self.start..self.end]
    }

    /// Gives the first bytes, and drops the one behind them.
    pub(crate) fn give(&mut self, count: usize)
        requires { count < length self.old.held }
        ensures room { self.new.room ≡ self.old.room }
        ensures given { self.new.given ≡ take count self.old.held }
        ensures held { self.new.held ≡ drop (count + 1) self.old.held }
    {
        self.given_start = self.start;
        self.given_end = self.start + count;
        self.start = self.given_end + 1;
    }

    /// Gives all bytes.
    pub(crate) fn give_all(&mut self)
        ensures room { self.new.room ≡ self.old.room }
        ensures given { self.new.given ≡ self.old.held }
        ensures held { self.new.held ≡ [] }
    {
        self.given_start = self.start;
        self.given_end = self.end;
        self.start = self.end;
    }

    /// Drops the first bytes and the one behind them, and gives none.
    pub(crate) fn skip(&mut self, count: usize)
        requires { count < length self.old.held }
        ensures room { self.new.room ≡ self.old.room }
        ensures given { self.new.given ≡ [] }
        ensures held { self.new.held ≡ drop (count + 1) self.old.held }
    {
        self.given_end = self.given_start;
        self.start += count + 1;
    }

    /// Drops all bytes, and gives none.
    pub(crate) fn clear(&mut self)
        ensures room { self.new.room ≡ self.old.room }
        ensures given { self.new.given ≡ [] }
        ensures held { self.new.held ≡ [] }
    {
        self.given_end = self.given_start;
        self.start = self.end;
    }

    /// Reads a piece of at most 65,536 bytes behind those that it holds; `Ok(0)` at the end of the file. No bytes are given
    /// any more.
    ///
    /// # Errors
    /// Where the shelf failed. Nothing was taken then.
    pub(crate) fn read<H: Shelf>(&mut self, shelf: &mut H) -> Result<usize, Failed>
        requires { length self.old.held + 65536 ≤ self.old.room }
        ensures room { self.new.room ≡ self.old.room }
        ensures given { self.new.given ≡ [] }
        ensures piece { MatchResult result (λ count. TakesPiece self.old.held self.new.held (H.rest shelf.old) (H.rest shelf.new) count) (λ _. self.new.held ≡ self.old.held) }
        ensures end { IfOk result (λ count. (count ≤ 65536) × (count ≡ 0 → IsAtEnd (H.rest shelf.new))) }
        ensures taken { MatchResult result (λ count. H.taken shelf.new ≡ H.taken shelf.old + count) (λ _. H.taken shelf.new ≡ H.taken shelf.old) }
        ensures files { H.files shelf.new ≡ H.files shelf.old }
        ensures cause { HasCause (H.faults shelf.old) (H.faults shelf.new) result }
    {
        let held = self.end - self.start;
        let read = read_after(shelf, &mut self.bytes, self.start, self.end);
        self.given_start = 0;
        self.given_end = 0;
        self.start = 0;
        self.end = held;
        let count = read?;
        self.end = held + count;
        Ok(count)
    }
}
