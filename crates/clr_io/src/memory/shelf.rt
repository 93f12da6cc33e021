// Files in memory, read one at a time.
ghost use Rattle.std.specs.Prelude.{◌≡◌, ◌+◌, ◌<◌, ◌≤◌, ◌^◌, [], false, length, IfNone, IfSome, MatchResult, None, Ok, OnOk, Some};
ghost use Rattle.std.specs.Io.{ReadsAtMost};
ghost use Rattle.std.specs.Io.KnownBytes.{ReadConsumes};
ghost use Rattle.clr_io.specs.Causes.{HasCause};
ghost use Rattle.clr_io.specs.Files.{Opens, held};
ghost use Rattle.clr_io.specs.Memory.{bytes_at, files_of, opened};

use super::calls::Calls;
use crate::{Failed, Shelf};

/// A shelf over files in memory. It takes no memory of its own, and fails at the chosen calls alone.
///
/// Both `open` and `read` count as calls. A read gives the least of `piece`, the buffer's length
/// and the bytes left, and none where nothing is open.
#[derive(Drop)]
pub struct MemoryShelf {
    files: Vec<(String, Vec<u8>)>,
    piece: usize,
    calls: Calls,
    open_file: Option<usize>,
    at: usize,
    ghost piece_is: { 1 ≤ piece },
    ghost within: { at ≤ length (opened files.items open_file) },
    ghost at_fits: { at < 2 ^ 64 },
}

impl MemoryShelf {
    ghost use Rattle.clr_io.specs.MemoryShelf.{IsNewShelf};

    /// A shelf of these files, each with its name, on which nothing is open yet. It gives at most
    /// `piece` bytes at a time, and its calls of the numbers `fail`, counted from 1, are faults.
    ///
    /// Where a name comes twice, its first file counts.
    pub fn new(files: Vec<(String, Vec<u8>)>, piece: usize, fail: Vec<u64>) -> MemoryShelf
        requires { 1 ≤ piece }
        ensures files { ⟦<MemoryShelf as Shelf>⟧.files result ≡ Some (files_of files.items) }
        ensures rest { ⟦<MemoryShelf as Shelf>⟧.rest result ≡ Some [] }
        ensures taken { ⟦<MemoryShelf as Shelf>⟧.taken result ≡ 0 }
        ensures faults { ⟦<MemoryShelf as Shelf>⟧.faults result ≡ 0 }
        ensures fresh { IsNewShelf result piece fail.items }
    {
        MemoryShelf {
            files,
            piece,
            calls: Calls::new(fail),
            open_file: None,
            at: 0,
        }
    }
}

// The index of the first file of a name.
fn find(files: &[(String, Vec<u8>)], name: &str) -> Option<usize>
    ensures some { IfSome result (λ i. held name.now (files_of files.now) ≡ Some (bytes_at files.now i)) }
    ensures none { IfNone result (held name.now (files_of files.now) ≡ None) }
{
    for (i, file) in files.iter().enumerate() {
        if file.0.as_str() == name {
            return Some(i);
        }
    }
    None
}

// All the bytes of the open file, none where nothing is open.
fn bytes_of(files: &[(String, Vec<u8>)], open_file: Option<usize>) -> &[u8]
    ensures bytes { result.now ≡ opened files.now open_file }
    ensures fits { length result.now < 2 ^ 63 }
{
    match open_file.and_then(|i| files.get(i)) {
        None => &[],
        Some(file) => file.1.as_slice(),
    }
}

impl Shelf for MemoryShelf {
    ghost use Rattle.std.specs.Prelude.{Some, drop};
    ghost use Rattle.clr_io.specs.Memory.{files_of, opened};
    ghost use Rattle.clr_io.specs.MemoryShelf.{IsOpened, IsRead};

    ghost files = { λ s. Some (files_of s.files.items) };

    ghost rest = { λ s. Some (drop s.at (opened s.files.items s.open_file)) };

    ghost taken = { λ s. s.at };

    ghost faults = { λ s. s.calls.faults.count };

    ghost taken_fits = { λ s. s.at_fits };

    ghost faults_fit = { λ s. s.calls.faults.fits };

    // The clauses of `Shelf::open`, and what this shelf adds.
    fn open(&mut self, name: &str) -> Result<bool, Failed>
        ensures files { ⟦<MemoryShelf as Shelf>⟧.files self.new ≡ ⟦<MemoryShelf as Shelf>⟧.files self.old }
        ensures opens { Opens (⟦<MemoryShelf as Shelf>⟧.files self.old) name.now result (⟦<MemoryShelf as Shelf>⟧.rest self.new) }
        ensures taken { ⟦<MemoryShelf as Shelf>⟧.taken self.new ≡ 0 }
        ensures absent { result ≡ Ok false → ⟦<MemoryShelf as Shelf>⟧.faults self.new ≡ ⟦<MemoryShelf as Shelf>⟧.faults self.old }
        ensures cause { HasCause (⟦<MemoryShelf as Shelf>⟧.faults self.old) (⟦<MemoryShelf as Shelf>⟧.faults self.new) result }
        ensures exact { IsOpened self.old self.new result }
    {
        self.open_file = None;
        self.at = 0;
        self.calls.begin()?;
        self.open_file = find(&self.files, name);
        Ok(self.open_file.is_some())
    }

    // The clauses of `Shelf::read`, and what this shelf adds.
    fn read(&mut self, buf: &mut [u8]) -> Result<usize, Failed>
        ensures files { ⟦<MemoryShelf as Shelf>⟧.files self.new ≡ ⟦<MemoryShelf as Shelf>⟧.files self.old }
        ensures count { ReadsAtMost result buf.new }
        ensures bytes { ReadConsumes (⟦<MemoryShelf as Shelf>⟧.rest self.old) (⟦<MemoryShelf as Shelf>⟧.rest self.new) result buf.new }
        ensures taken { MatchResult result (λ n. ⟦<MemoryShelf as Shelf>⟧.taken self.new ≡ ⟦<MemoryShelf as Shelf>⟧.taken self.old + n) (λ _. ⟦<MemoryShelf as Shelf>⟧.taken self.new ≡ ⟦<MemoryShelf as Shelf>⟧.taken self.old) }
        ensures fits { OnOk result (⟦<MemoryShelf as Shelf>⟧.taken self.old + length buf.old < 2 ^ 64) }
        ensures cause { HasCause (⟦<MemoryShelf as Shelf>⟧.faults self.old) (⟦<MemoryShelf as Shelf>⟧.faults self.new) result }
        ensures exact { IsRead self.old self.new buf.old result }
    {
        self.calls.begin()?;
        let rest = &bytes_of(&self.files, self.open_file)[self.at..];
        let count = self.piece.min(buf.len()).min(rest.len());
        buf[..count].copy_from_slice(&rest[..count]);
        self.at += count;
        Ok(count)
    }
}
