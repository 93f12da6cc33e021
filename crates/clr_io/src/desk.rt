// A sink that keeps what it takes in files.
ghost use Rattle.std.specs.Prelude.{◌≡◌, ◌++◌, ◌∷◌, [], Option, option_map, option_and_then, OnErr, OnOk};
ghost use Rattle.clr_io.specs.Causes.{HasCause};
ghost use Rattle.clr_io.specs.Files.{Files, around_last, last_bytes};

use crate::{Failed, Sink};

/// A sink that makes files: what is written goes to the file made last.
///
/// What is written before the first file is made is taken and dropped.
pub trait Desk: Sink {
    /// The files that were made, in the order of their creation, where they are told.
    ghost made: { Self → Option Files };

    /// Makes a file of this name with no bytes, to which is written from then on. After a fault the
    /// files made are as before.
    fn create(&mut self, name: &str) -> Result<(), Failed>
        ensures ok { OnOk result (made self.new ≡ option_map (λ files. files ++ (name.now, []) ∷ []) (made self.old)) }
        ensures err { OnErr result (made self.new ≡ made self.old) }
        ensures cause { HasCause (Self.faults self.old) (Self.faults self.new) result };

    /// What was written is the last file's bytes, and what stands round it are the files made, with
    /// the last one's bytes left out. So before the first file nothing stands round it, and no
    /// bytes are told.
    ghost shows: { (desk : Self) → (Self.around desk ≡ option_map around_last (made desk)) × (Self.written desk ≡ option_and_then last_bytes (made desk)) };
}
