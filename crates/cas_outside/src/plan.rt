//! Which calls of an object fail by their numbers.

ghost use Rattle.std.specs.Prelude.{◌≡◌, ◌↔◌, ◌+◌, ◌<◌, IsTrue};
ghost use Rattle.cas_outside.specs.Calls.{FailsNext, calls_after};

/// Counts the calls on an object, and knows the numbers of those that fail.
#[derive(Drop)]
pub struct Plan {
    /// The numbers of the calls that fail, counted from 1, in any order.
    pub failing: Vec<u64>,
    /// How many calls were made. It stays at `u64::MAX`, and no later call has a number.
    pub calls: u64,
}

impl Plan {
    /// Counts a call, and answers whether it fails by its number.
    pub fn fails_next(&mut self) -> bool
        ensures fails { IsTrue result ↔ FailsNext self.old.failing.items self.old.calls }
        ensures same { self.new.failing.items ≡ self.old.failing.items }
        ensures counted { self.new.calls ≡ calls_after self.old.calls }
    {
        if self.calls == u64::MAX {
            return false;
        }
        self.calls += 1;
        self.failing.contains(&self.calls)
    }
}
