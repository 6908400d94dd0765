//! Laws of walking: the labels of a run determine where its last block begins, and the run walks on from there by
//! silent steps. They serve linking, which cuts the runs of units at their labels and puts them together.

ghost use Rattle.std.specs.Prelude.{List};
ghost use Rattle.cas_runs.specs.Label.{RunLabel};
ghost use Rattle.cas_runs.specs.Edge.{Edge};
ghost use Rattle.cas_runs.specs.Machine.{Machine, Block, IsBad, Run};
ghost use Rattle.cas_runs.specs.Refines.{BadBefore, Comes, HasRun, Refines, Within};
ghost use Rattle.cas_runs.specs.Walking.{Begins, Walk, EqualWhereReached, HasNoSilentStep, SameBeginning};

/// A run is a walk of silent steps from where its last block begins.
#[tactic(auto, using(crate::proofs::Stars::run_walk))]
pub fn runs_are_walks<S>()
    ensures { (edge : Edge) (m : Machine S) (ls : List RunLabel) (bs : List Block) (b : Block) (y : S)
        → Run edge m ls bs b y → Walk edge m ls bs b y }
{}

/// And a walk is a run.
#[tactic(auto, using(crate::proofs::Stars::walk_run))]
pub fn walks_are_runs<S>()
    ensures { (edge : Edge) (m : Machine S) (ls : List RunLabel) (bs : List Block) (b : Block) (y : S)
        → Walk edge m ls bs b y → Run edge m ls bs b y }
{}

/// Labels determine where the block after them begins, and the blocks that they ended.
#[tactic(auto, using(crate::proofs::Stars::one_beginning))]
pub fn beginnings_are_one<S>()
    ensures { (edge : Edge) (m : Machine S) (ls : List RunLabel) (bs cs : List Block) (x y : S)
        → Begins edge m ls bs x → Begins edge m ls cs y → SameBeginning bs cs x y }
{}

/// A run pays and touches at most what one with the same labels does that has come to a step that isn't silent.
#[tactic(auto, using(crate::proofs::Stars::longest))]
pub fn longest_run<S>()
    ensures { (edge : Edge) (m : Machine S) (ls : List RunLabel) (bs cs : List Block) (b c : Block) (x y : S)
        → Run edge m ls bs b x → Run edge m ls cs c y → HasNoSilentStep m y → Within b c }
{}

/// What goes wrong before some labels, and yet has a run with all of them, goes wrong after all of them.
#[tactic(auto, using(crate::proofs::Stars::bad_now))]
pub fn bad_now<S>()
    ensures { (edge : Edge) (m : Machine S) (ls : List RunLabel) → BadBefore edge m ls → HasRun edge m ls
        → Comes edge m ls (λ x. IsBad (m.act x.at)) }
{}

/// Machines that are equal at each state that a run of one reaches have the same runs. So it is with the machine of a
/// unit in settings that differ only in what the unit never reads.
#[tactic(auto, using(crate::proofs::Reached::runs_same, crate::proofs::Reached::equal_back))]
pub fn equal_machines_run<S>()
    ensures runs { (edge : Edge) (m n : Machine S) → EqualWhereReached edge m n
        → (ls : List RunLabel) (bs : List Block) (b : Block) (x : S) → Run edge m ls bs b x
        → Run edge n ls bs b x }
    ensures back { (edge : Edge) (m n : Machine S) → EqualWhereReached edge m n → EqualWhereReached edge n m }
{}

/// And they refine the same, and are refined by the same.
#[tactic(auto, using(crate::proofs::Reached::equal_refines))]
pub fn equal_machines_refine<T, S>()
    ensures { (edge : Edge) (t u : Machine T) (s r : Machine S) → EqualWhereReached edge t u
        → EqualWhereReached edge s r → Refines edge t s → Refines edge u r }
{}
