// The numbers of the calls on an object in memory, and the faults that they are to have.
ghost use Rattle.std.specs.Prelude.{◌≡◌, ◌+◌, ◌-◌, ◌^◌, min, is_err};
ghost use Rattle.clr_io.specs.Calls.{IsCounted, IsFresh, fails_next};

use crate::Failed;
use crate::fault::Faults;

/// How many calls an object has had, which of them fail, and how often it has failed.
///
/// Calls are numbered from 1. A call past number 2^64 - 1 has that number too.
#[derive(Drop)]
pub struct Calls {
    made: u64,
    fail: Vec<u64>,
    faults: Faults,
}

impl Calls {
    /// No call yet, and the numbers of those that are to fail.
    pub fn new(fail: Vec<u64>) -> Calls
        ensures { IsFresh result fail.items }
    {
        Calls {
            made: 0,
            fail,
            faults: Faults::none(),
        }
    }

    /// Numbers one more call, which fails where its number is listed.
    pub fn begin(&mut self) -> Result<(), Failed>
        ensures counted { IsCounted self.old self.new result }
        ensures listed { is_err result ≡ fails_next self.old }
    {
        self.made = self.made.saturating_add(1);
        if self.fail.contains(&self.made) {
            return Err(self.faults.add());
        }
        Ok(())
    }

    /// Counts a fault of the call that was numbered last.
    pub fn fault(&mut self) -> Failed
        ensures made { self.new.made ≡ self.old.made }
        ensures fail { self.new.fail.items ≡ self.old.fail.items }
        ensures faults { self.new.faults.count ≡ min (self.old.faults.count + 1) (2 ^ 64 - 1) }
    {
        self.faults.add()
    }
}
