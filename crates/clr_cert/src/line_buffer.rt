// Lines that are gathered before they are written.
ghost use Rattle.std.specs.Prelude.{◌≡◌, ◌+◌, ◌≤◌, [], ◌∷◌, ◌++◌, IfOk, length, nat_le};

use itoa::{Buffer, Integer};
use std::alloc::{AllocError, Global};
use std::marker::Model;

/// Room for a full buffer and the longest line after it.
const CAPACITY: usize = 160_000;

/// The buffer is full once it has this many bytes.
const FULL: usize = 65_536;

/// Lines of a certificate that wait to be written together. It is seen as their bytes, and takes its memory when it is made.
#[derive(Drop)]
pub struct LineBuffer {
    bytes: Vec<u8>,
}

impl Model for LineBuffer {
    ghost use Rattle.std.specs.Prelude.{ℕ, List, ◌≤◌, vec_capacity};

    ghost Value = { List ℕ };

    ghost view = { λ b. b.bytes.items };

    ghost invariant = { λ b. 160000 ≤ vec_capacity b.bytes };
}

impl LineBuffer {
    /// A buffer without bytes.
    ///
    /// # Errors
    /// Where memory is wanting.
    pub fn new(alloc: Global) -> Result<LineBuffer, AllocError>
        ensures { IfOk result (λ buffer. buffer ≡ []) }
    {
        Ok(LineBuffer {
            bytes: Vec::with_capacity(alloc, CAPACITY)?,
        })
    }

    /// Its bytes.
    pub fn bytes(&self) -> &[u8]
        ensures { result.now ≡ self.now }
    {
        &self.bytes
    }

    /// Takes all bytes away.
    pub fn clear(&mut self)
        ensures { self.new ≡ [] }
    {
        self.bytes.clear();
    }

    // Whether there is enough to write.
    pub(crate) fn is_full(&self) -> bool
        ensures { result ≡ nat_le 65536 (length self.now) }
    {
        self.bytes.len() >= FULL
    }

    // Appends a piece of text.
    pub(crate) fn put(&mut self, piece: &[u8])
        requires { length self.old + length piece.now ≤ 160000 }
        ensures { self.new ≡ self.old ++ piece.now }
    {
        self.bytes.extend_from_slice(piece).unwrap();
    }

    // Appends a comma and a number.
    pub(crate) fn put_field<I: Integer>(&mut self, number: I)
        requires { length self.old + 41 ≤ 160000 }
        ensures text { self.new ≡ self.old ++ 44 ∷ I.text number }
        ensures size { length self.new ≤ length self.old + 41 }
    {
        let mut digits = Buffer::new();
        self.put(b",");
        self.put(digits.format(number).as_bytes());
    }
}
