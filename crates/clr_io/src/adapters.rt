// The outer objects over the system's files and streams: the trusted edge. They tell no bytes.
ghost use Rattle.std.specs.Prelude.{◌≡◌, ◌<◌, ◌^◌, None, Some, []};

use crate::fault::Faults;
use crate::{Desk, Failed, Shelf, Sink};
use std::fs;
use std::io::{ErrorKind, Read, Write};
use std::rt::Files;

/// A shelf over the system's files. A name is a path, from the folder where the program runs.
///
/// A name is absent where the system says that there is no such file. Every other error of the
/// system is a fault, want of memory among them. It tells no bytes.
#[derive(Drop)]
pub struct FileShelf<'r, R: Files> {
    rt: &'r R,
    file: Option<R::File>,
    taken: u64,
    faults: Faults,
    ghost taken_fits: { taken < 2 ^ 64 },
}

impl<'r, R: Files> FileShelf<'r, R> {
    /// A shelf on which nothing is open yet.
    pub fn new(rt: &'r R) -> FileShelf<'r, R>
        ensures files { ⟦<FileShelf<'r, R> as Shelf>⟧.files result ≡ None }
        ensures rest { ⟦<FileShelf<'r, R> as Shelf>⟧.rest result ≡ None }
        ensures taken { ⟦<FileShelf<'r, R> as Shelf>⟧.taken result ≡ 0 }
        ensures faults { ⟦<FileShelf<'r, R> as Shelf>⟧.faults result ≡ 0 }
    {
        FileShelf {
            rt,
            file: None,
            taken: 0,
            faults: Faults::none(),
        }
    }
}

impl<'r, R: Files> Shelf for FileShelf<'r, R> {
    ghost files = { λ _. None };

    ghost rest = { λ _. None };

    ghost taken = { λ s. s.taken };

    ghost faults = { λ s. s.faults.count };

    ghost taken_fits = { λ s. s.taken_fits };

    ghost faults_fit = { λ s. s.faults.fits };

    fn open(&mut self, name: &str) -> Result<bool, Failed> {
        self.file = None;
        self.taken = 0;
        match fs::open(self.rt, name) {
            Ok(file) => {
                self.file = Some(file);
                Ok(true)
            }
            Err(error) if error.kind() == ErrorKind::NotFound => Ok(false),
            Err(_) => Err(self.faults.add()),
        }
    }

    fn read(&mut self, buf: &mut [u8]) -> Result<usize, Failed> {
        if self.taken > u64::MAX - buf.len() as u64 {
            return Err(self.faults.add());
        }
        let Some(file) = &mut self.file else {
            return Ok(0);
        };
        match file.read(buf) {
            Ok(count) => {
                self.taken += count as u64;
                Ok(count)
            }
            Err(_) => Err(self.faults.add()),
        }
    }
}

/// A sink over a stream, as standard output. Each error of the stream is a fault, and so is a write
/// that takes nothing of a piece that isn't empty. It tells no bytes.
#[derive(Drop)]
pub struct StreamSink<W: Write + Drop> {
    stream: W,
    faults: Faults,
}

impl<W: Write + Drop> StreamSink<W> {
    /// A sink over this stream.
    pub fn new(stream: W) -> StreamSink<W>
        ensures written { ⟦<StreamSink<W> as Sink>⟧.written result ≡ None }
        ensures around { ⟦<StreamSink<W> as Sink>⟧.around result ≡ Some [] }
        ensures faults { ⟦<StreamSink<W> as Sink>⟧.faults result ≡ 0 }
    {
        StreamSink {
            stream,
            faults: Faults::none(),
        }
    }
}

impl<W: Write + Drop> Sink for StreamSink<W> {
    ghost written = { λ _. None };

    ghost around = { λ _. Some [] };

    ghost faults = { λ s. s.faults.count };

    ghost faults_fit = { λ s. s.faults.fits };

    fn write(&mut self, piece: &[u8]) -> Result<usize, Failed> {
        if piece.is_empty() {
            return Ok(0);
        }
        match self.stream.write(piece) {
            Ok(count) if count > 0 => Ok(count),
            _ => Err(self.faults.add()),
        }
    }
}

/// A desk over the system's files. A name is a path, from the folder where the program runs, and a
/// file that is there already is made anew. Each error of the system is a fault, want of memory
/// among them, and so is a write that takes nothing of a piece that isn't empty. It tells no bytes.
#[derive(Drop)]
pub struct FileDesk<'r, R: Files> {
    rt: &'r R,
    file: Option<R::File>,
    faults: Faults,
}

impl<'r, R: Files> FileDesk<'r, R> {
    /// A desk that has made no file yet, and drops what is written before the first.
    pub fn new(rt: &'r R) -> FileDesk<'r, R>
        ensures made { ⟦<FileDesk<'r, R> as Desk>⟧.made result ≡ None }
        ensures faults { ⟦<FileDesk<'r, R> as Sink>⟧.faults result ≡ 0 }
    {
        FileDesk {
            rt,
            file: None,
            faults: Faults::none(),
        }
    }
}

impl<'r, R: Files> Sink for FileDesk<'r, R> {
    ghost written = { λ _. None };

    ghost around = { λ _. None };

    ghost faults = { λ s. s.faults.count };

    ghost faults_fit = { λ s. s.faults.fits };

    fn write(&mut self, piece: &[u8]) -> Result<usize, Failed> {
        let Some(file) = &mut self.file else {
            return Ok(piece.len());
        };
        if piece.is_empty() {
            return Ok(0);
        }
        match file.write(piece) {
            Ok(count) if count > 0 => Ok(count),
            _ => Err(self.faults.add()),
        }
    }
}

impl<'r, R: Files> Desk for FileDesk<'r, R> {
    ghost use Rattle.std.specs.Prelude.{None, refl};

    ghost made = { λ _. None };

    ghost shows = { λ _. (refl, refl) };

    fn create(&mut self, name: &str) -> Result<(), Failed> {
        match fs::create(self.rt, name) {
            Ok(file) => {
                self.file = Some(file);
                Ok(())
            }
            Err(_) => Err(self.faults.add()),
        }
    }
}
