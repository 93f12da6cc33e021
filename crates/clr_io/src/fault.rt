// The fault of an outer object, and its count.
ghost use Rattle.std.specs.Prelude.{◌≡◌, ◌+◌, ◌-◌, ◌<◌, ◌^◌, min};

/// A shelf, a sink or a desk failed, and counted that. It says no more of the cause.
#[derive(Clone, Copy, Debug, PartialEq, Eq)]
pub struct Failed;

/// How often an object has failed. The count stays at its last value.
#[derive(Drop)]
pub struct Faults {
    count: u64,
    ghost fits: { count < 2 ^ 64 },
}

impl Faults {
    /// No fault yet.
    pub fn none() -> Faults
        ensures { result.count ≡ 0 }
    {
        Faults { count: 0 }
    }

    /// Counts one more fault, and gives the answer to it.
    pub fn add(&mut self) -> Failed
        ensures { self.new.count ≡ min (self.old.count + 1) (2 ^ 64 - 1) }
    {
        self.count = self.count.saturating_add(1);
        Failed
    }
}
