//! Laws of linked objects.

ghost use Rattle.std.specs.Prelude.{◌≡◌, ℕ, Bool, List, None, Some, length, slice_get, take};
ghost use Rattle.cas_base.specs.declared.decl.Global.{Global as Datum};
ghost use Rattle.cas_settle.specs.Settle.{cells_of};
ghost use Rattle.cas_asm.specs.declared.image.Image.{Image};
ghost use Rattle.cas_asm.specs.declared.instr.Instr.{Instr};
ghost use Rattle.cas_asm.specs.declared.line.AsmFun.{AsmFun};
ghost use Rattle.cas_object_text.specs.declared.object.Object.{Object};
ghost use Rattle.cas_edge.specs.Edges.{edge_of};
ghost use Rattle.cas_link.specs.Parts.{decls_in, functions_in, globals_in, units_of};
ghost use Rattle.cas_link.specs.Refusal.{link_refusal};
ghost use Rattle.cas_link_laws.specs.Linked.{FitTogether, IsLinkedOf, AreApart, HasWords, StandsAt, BeginsAt, place_of};
ghost use Rattle.cas_lock.specs.Accepted.{accepted_code};
ghost use Rattle.cas_refine.specs.Listing.{IsLinked};
ghost use Rattle.cas_runs.specs.Label.{NameBytes};

/// Objects that aren't refused fit together.
#[tactic(auto, using(crate::proofs::Fitting::fit))]
pub fn unrefused_objects_fit()
    ensures { (lock : ℕ) (objects : List Object) (entries : List (List ℕ))
        → link_refusal lock objects entries ≡ None → FitTogether lock objects entries }
{}

/// The words of an image's globals and locks don't overlap.
#[tactic(auto, using(crate::proofs::Standing::apart))]
pub fn words_stand_apart()
    ensures { (objects : List Object) (lock : List (Instr ℕ)) (entries : List (List ℕ)) (image : Image)
        → IsLinkedOf objects lock entries image → AreApart (cells_of (decls_in objects)) (length image.words) }
{}

/// Each global and lock has its initial words.
#[tactic(auto, using(crate::proofs::Standing::words))]
pub fn words_are_initial()
    ensures { (objects : List Object) (lock : List (Instr ℕ)) (entries : List (List ℕ)) (image : Image)
        → IsLinkedOf objects lock entries image → (k : ℕ) (global : Datum)
        → slice_get (globals_in objects) k ≡ Some global → HasWords objects image k global }
{}

/// The lock object's code stands first.
#[tactic(auto, using(crate::proofs::Placed::first))]
pub fn lock_stands_first()
    ensures { (objects : List Object) (lock : List (Instr ℕ)) (entries : List (List ℕ)) (image : Image)
        → IsLinkedOf objects lock entries image → take (length lock) image.code ≡ lock }
{}

/// Each function's instructions stand together at its place, and each operand is the address or the place of what it
/// names.
#[tactic(auto, using(crate::proofs::Placed::stands))]
pub fn functions_stand_together()
    ensures { (objects : List Object) (lock : List (Instr ℕ)) (entries : List (List ℕ)) (image : Image)
        → IsLinkedOf objects lock entries image → (k : ℕ) (f : AsmFun)
        → slice_get (functions_in objects) k ≡ Some f
        → StandsAt (length lock) objects image f (place_of (length lock) objects k) }
{}

/// Each thread begins at its entry.
#[tactic(auto, using(crate::proofs::Placed::begins))]
pub fn threads_begin_at_entries()
    ensures { (objects : List Object) (lock : List (Instr ℕ)) (entries : List (List ℕ)) (image : Image)
        → IsLinkedOf objects lock entries image → (thread : ℕ) (name : List ℕ)
        → slice_get entries thread ≡ Some name → BeginsAt (length lock) objects image thread name }
{}

/// An image of objects with the accepted lock object has its instructions at the places 0 to 7; its words are those of
/// the edge of the objects, a lock's word is 1 at first, and each guard is a lock.
pub fn linked_images_have_the_lock()
    ensures { (objects : List Object) (entries : List (List ℕ)) (image : Image) (inside : NameBytes → Bool)
        → IsLinkedOf objects accepted_code entries image
        → IsLinked image (edge_of inside (units_of objects)) }
{}
