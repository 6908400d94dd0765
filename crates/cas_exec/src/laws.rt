//! Laws of choices and of endings, each the contract of a function without effect.

ghost use Rattle.std.specs.Prelude.{◌≡◌, ℕ, Some, slice_get};
ghost use Rattle.cas_exec.specs.Endings as ending;
ghost use Rattle.cas_exec.specs.Runs.{IsExecuted};
ghost use Rattle.cas_exec.specs.Schedule.{IsBarred};
ghost use Rattle.cas_exec.specs.declared.ending.Ending.TheVariants.{Done};
ghost use Rattle.cas_tso.specs.Refusal.{refused_choice, thread_of};
ghost use Rattle.cas_tso.specs.State.{Setup, State, Thread};
ghost use Rattle.cas_tso.specs.declared.end.End.TheVariants as end;
ghost use Rattle.cas_tso.specs.declared.refused.Choice.{Choice};
ghost use Rattle.cas_tso.specs.declared.refused.Refused.{Refused};
ghost use Rattle.cas_tso.specs.declared.report.Report.{Report};
ghost use Rattle.cas_tso.specs.declared.report.ThreadEnd.{ThreadEnd};

/// A choice that is refused is one that no step of the machine makes.
pub fn refused_choices_are_barred()
    ensures { (p : Setup) (s : State) (choice : Choice) (c : Thread) (why : Refused)
        → slice_get s.threads (thread_of choice) ≡ Some c → refused_choice p.image c choice ≡ Some why
        → IsBarred p s choice }
{}

/// An ended run in which no thread ended Bad, Stack, Outs or Fuel is one in which every thread is Done.
pub fn runs_without_other_ends_are_done()
    ensures { (p : Setup) (report : Report) → IsExecuted p report → ending.ending_of report.threads ≡ Done
        → (i : ℕ) (thread : ThreadEnd) → slice_get report.threads i ≡ Some thread → thread.end ≡ Some end.Done }
{}
