//! Rounds over all threads.

ghost use Rattle.std.specs.Prelude.{◌≡◌, ◌<◌, length};
ghost use Rattle.cas_tso.specs.Rounds.{Drained, IsNotDue, Rounds, Turn, Turns};
ghost use Rattle.cas_tso.specs.Timed.{IsEnded};

use crate::machine::Tso;

impl<'a> Tso<'a> {
    // The thread drains its stores that are due.
    fn drain_due(&mut self, thread: u32, hold: u32)
        requires { thread < length self.old.state.threads }
        ensures setup { self.new.setup ≡ self.old.setup }
        ensures threads { length self.new.state.threads ≡ length self.old.state.threads }
        ensures drained { Drained self.old.setup hold thread self.old.state self.new.state }
        ensures free { IsNotDue self.old.setup hold self.new.state thread }
    {
        'due: while self.is_due(thread, hold) {
            let _drained = self.drain(thread);
        }
    }

    // A turn of the thread.
    fn turn(&mut self, thread: u32, hold: u32)
        requires { thread < length self.old.state.threads }
        ensures setup { self.new.setup ≡ self.old.setup }
        ensures threads { length self.new.state.threads ≡ length self.old.state.threads }
        ensures turn { Turn self.old.setup hold thread self.old.state self.new.state }
    {
        self.drain_due(thread, hold);
        let _gone = self.run(thread);
    }

    // A round over all threads in their order.
    fn round(&mut self, hold: u32)
        ensures setup { self.new.setup ≡ self.old.setup }
        ensures turns { Turns self.old.setup hold self.old.state (length self.old.state.threads) self.new.state }
    {
        for thread in 0..self.threads() {
            self.turn(thread, hold);
        }
    }

    /// Rounds over the threads in order of their numbers, until every thread has an end and each Done thread's buffer
    /// is empty. In its turn a thread drains the stores that are due, with this hold, and executes one instruction.
    /// From the start, with the hold of the options, this is an ended timed run. It takes no memory.
    pub fn run_rounds(&mut self, hold: u32)
        ensures setup { self.new.setup ≡ self.old.setup }
        ensures rounds { Rounds self.old.setup hold self.old.state self.new.state }
        ensures ended { IsEnded self.new.state }
    {
        'rounds: while !self.is_ended() {
            self.round(hold);
        }
    }
}
