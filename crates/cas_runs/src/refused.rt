//! Wrong translations in small, which don't refine.

ghost use Rattle.std.specs.Prelude.{◌≡◌, ℕ, ◌<◌, List, [], ◌∷◌, Some, None, slice_get};
ghost use Rattle.cas_runs.specs.Edge.{IsLive};
ghost use Rattle.cas_runs.specs.Label.{NameBytes, Word, Place, Object};
ghost use Rattle.cas_runs.specs.Machine.{Opened, Open, Between};
ghost use Rattle.cas_runs.specs.Pointing.{edge, shows};
ghost use Rattle.cas_runs.specs.Refines.{Refines};
ghost use Rattle.cas_runs.specs.Rules.{AreOneValue, OpensQuietly};
ghost use Rattle.cas_runs.specs.Sections.{Take, Give, Load, Store, Print, Spin, one_lock, sections};

/// An endless quiet loop doesn't refine a print, whatever the steps cost.
#[tactic(auto, using(crate::proofs::Sanity::endless_loop))]
pub fn endless_loop_refused()
    ensures { (p q : ℕ) → Refines one_lock (sections q (Spin ∷ [])) (sections p (Print ∷ [])) → ⊥ }
{}

/// A unit that drops a store to a guarded word before its Unlock doesn't refine.
#[tactic(auto, using(crate::proofs::Sanity::dropped_store))]
pub fn dropped_store_refused()
    ensures { (p q : ℕ) → Refines one_lock (sections q (Take ∷ Give ∷ [])) (sections p (Take ∷ Store 1 ∷ Give ∷ [])) →
        ⊥ }
{}

/// A unit that prints after the next Lock what it read before, without reading it anew, doesn't refine.
#[tactic(auto, using(crate::proofs::Sanity::kept_word))]
pub fn kept_word_refused()
    ensures { (p q : ℕ) → Refines one_lock (sections q (Take ∷ Load ∷ Give ∷ Take ∷ Print ∷ []))
        (sections p (Take ∷ Load ∷ Give ∷ Take ∷ Load ∷ Print ∷ [])) → ⊥ }
{}

/// A unit that locks again where the source unlocks, and so never goes on, doesn't refine.
#[tactic(auto, using(crate::proofs::Sanity::self_lock))]
pub fn self_lock_refused()
    ensures { (p q : ℕ) → Refines one_lock (sections q (Take ∷ Take ∷ [])) (sections p (Take ∷ Give ∷ [])) → ⊥ }
{}

/// A unit that shows the beginning of its variable where the source shows its end doesn't refine.
#[tactic(auto, using(crate::proofs::Pointing::wrong_place))]
pub fn wrong_place_refused()
    ensures { Refines edge (shows 0) (shows 1) → ⊥ }
{}

/// No machine that keeps the rules names one value null and a place, or the middle of a known live object and a place
/// of another.
#[tactic(auto, using(crate::proofs::Agreeing::null_beside_place, crate::proofs::Agreeing::middle_beside_other))]
pub fn two_values_refused()
    ensures null { (known n p : ℕ) (os ps : List Object) → AreOneValue known os ps (Word 0) (Place n p) → ⊥ }
    ensures middle { (known n m p q : ℕ) (os ps : List Object) (o o' : Object) → slice_get os n ≡ Some o →
        slice_get ps m ≡ Some o' → IsLive o → IsLive o' → n < known → n < m → 0 < p → p < o.size →
        AreOneValue known os ps (Place n p) (Place m q) → ⊥ }
{}

/// No quiet step takes away the newest activation where the outside called it: that is a Leave.
#[tactic(auto, using(crate::proofs::Agreeing::quiet_leave))]
pub fn quiet_leave_refused()
    ensures { (f : NameBytes) (older : List Opened) → OpensQuietly None (Open f ∷ Between ∷ older) (Between ∷ older) →
        ⊥ }
{}
