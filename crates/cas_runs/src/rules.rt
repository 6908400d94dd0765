//! The rules of machines can be kept: by small ones, and by those of the layer of calls.

ghost use Rattle.std.specs.Prelude.{◌≡◌, ℕ, ◌≤◌, List, [], ◌∷◌, Some, slice_get, true};
ghost use Rattle.std.specs.List.{AllByRecursion};
ghost use Rattle.cas_base.specs.declared.decl.Decl.{Decl};
ghost use Rattle.cas_base.specs.declared.decl.Unit.{Unit as UnitOf};
ghost use Rattle.cas_base.specs.declared.kind.Kind.{Kind};
ghost use Rattle.cas_base.specs.Unit.{IsInOrder};
ghost use Rattle.cas_runs.specs.Bounds.{IsTariff};
ghost use Rattle.cas_runs.specs.Calls.{Activations, Scene, Thread, language, machine};
ghost use Rattle.cas_runs.specs.Edge.{Edge, results_of};
ghost use Rattle.cas_runs.specs.Label.{ArePlain, NameBytes, RunLabel};
ghost use Rattle.cas_runs.specs.Machine.{Block, Full, Run, Stops};
ghost use Rattle.cas_runs.specs.Known.{ExchangedIsReceived, IsKnown, KnownStays, NumberedOnce, ReceivedExists, nothing_known};
ghost use Rattle.cas_runs.specs.Naming.{Layout};
ghost use Rattle.cas_runs.specs.Natural.{IsNatural};
ghost use Rattle.cas_runs.specs.Receiving.{CallsAreReceived, ReturnsAreReceived};
ghost use Rattle.cas_runs.specs.Rules.{CallsOut, KeepsKinds, KeepsLocks, KeepsRules};
ghost use Rattle.cas_runs.specs.Sections.{Instruction, StoresWords, one_lock, sections};
ghost use Rattle.cas_runs.specs.Unit.{AreDefined, FitsProgram, FitsUnit, IsCode, IsLayout, IsStack, Language, Setting, all_decls, all_functions, at_unit, has_function};

/// The rules can be kept: a small language of critical sections keeps them, whatever its program does.
pub fn sections_keep_rules()
    ensures { (price : ℕ) (program : List Instruction) → 1 ≤ price → StoresWords program →
        KeepsRules one_lock (sections price program) }
{}

/// So can the rule on kinds: where the program stores words, it emits words of their kinds.
#[tactic(auto, using(crate::proofs::Keeping::sections_in_kind))]
pub fn sections_keep_kinds()
    ensures { (price : ℕ) (program : List Instruction) → StoresWords program →
        KeepsKinds one_lock (sections price program) }
{}

/// And that on locks: it never goes over its edge.
#[tactic(auto, using(crate::proofs::Keeping::sections_hold))]
pub fn sections_keep_locks()
    ensures { (price : ℕ) (program : List Instruction) → StoresWords program →
        KeepsLocks one_lock (sections price program) }
{}

/// The machine of a unit in any language of activations keeps the rules, whatever its functions do.
pub fn units_keep_rules<F, A>()
    ensures { (l : Activations F A) (setting : Setting) → IsTariff l.tariff → (fs : List F) →
        IsLayout (language l) fs setting.layout → KeepsRules setting.edge ((language l).unit setting fs) }
{}

/// So does that of a function alone.
pub fn functions_keep_rules<F, A>()
    ensures { (l : Activations F A) (setting : Setting) → IsTariff l.tariff → (f : F) →
        IsLayout (language l) (f ∷ []) setting.layout → KeepsRules setting.edge ((language l).alone setting f) }
{}

/// And that of a thread of a whole program.
pub fn threads_keep_rules<F, A>()
    ensures { (l : Activations F A) (setting : Setting) → IsTariff l.tariff →
        (fs : List F) (entry : NameBytes) (thread : ℕ) → IsLayout (language l) fs setting.layout →
        KeepsRules setting.edge ((language l).thread setting fs entry thread) }
{}

/// No machine of the layer of calls stops for want of stack, whatever its functions do: that comes in languages with
/// addresses alone.
#[tactic(auto, using(crate::proofs::Opening::never_full))]
pub fn never_full<F, A>()
    ensures { (l : Activations F A) (setting : Setting) (scene : Scene F) (start x : Thread F A) →
        (machine l setting scene start).act x ≡ Stops Full → ⊥ }
{}

/// In a run of a thread of a whole program no call crosses: each of its labels is a Lock, an Unlock, an Out or
/// Done.
#[tactic(auto, using(crate::proofs::Closed::threads_plain))]
pub fn threads_never_cross<F, A>()
    ensures { (l : Activations F A) (setting : Setting) (fs : List F) (entry : NameBytes) (thread : ℕ)
        (ls : List RunLabel) (bs : List Block) (b : Block) (x : Thread F A) →
        Run setting.edge ((language l).thread setting fs entry thread) ls bs b x → ArePlain ls }
{}

/// Where a unit's functions are its defined declarations in their order, they are those that it declares as defined. So
/// it is in a program of such units.
pub fn units_in_order_are_defined<F, S>()
    ensures unit { (l : Language F S) (decl_of : F → Decl) (unit : UnitOf F) → ((f : F) → (decl_of f).name ≡ l.name f) →
        IsInOrder decl_of unit → AreDefined l unit.decls unit.funs }
    ensures program { (l : Language F S) (decl_of : F → Decl) (units : List (UnitOf F)) →
        ((f : F) → (decl_of f).name ≡ l.name f) → AllByRecursion (IsInOrder decl_of) units →
        AreDefined l (all_decls units) (all_functions units) }
{}

/// The machine of a unit whose functions are its defined declarations calls over its edge no function that the
/// edge has inside.
pub fn units_call_out<F, A>()
    ensures { (l : Activations F A) (decl_of : F → Decl) (unit : UnitOf F) (setting : Setting) →
        ((f : F) → (decl_of f).name ≡ l.name f) → IsInOrder decl_of unit → FitsUnit setting unit.decls unit.globals →
        CallsOut setting.edge ((language l).unit setting unit.funs) }
{}

/// At an edge that fits a whole program it is known of each of its functions how many values it returns. So a
/// return to a function of the program is no step without a meaning for want of that.
pub fn programs_know_results<F, S>()
    ensures { (l : Language F S) (edge : Edge) (units : List (UnitOf F)) (entry : NameBytes) →
        FitsProgram l edge units entry → (name : NameBytes) → has_function l (all_functions units) name ≡ true → (n : ℕ)
        × (results_of edge name ≡ Some n) }
{}

/// An edge that fits a whole program fits each of its units, on each stack and wherever the code can stand, with the
/// unit's functions inside: so units refine at the edge of their program.
pub fn programs_fit_units<F, S>()
    ensures { (l : Language F S) (setting : Setting) (units : List (UnitOf F)) (entry : NameBytes) →
        FitsProgram l setting.edge units entry → IsStack setting.edge setting.stack →
        IsCode setting.code setting.edge.functions → (i : ℕ) (unit : UnitOf F) → slice_get units i ≡ Some unit →
        FitsUnit (at_unit setting unit.decls) unit.decls unit.globals }
{}

/// What a unit emits another may receive: where it keeps the rules, emits what is in kind, and has the locks that are
/// due, its Call is an Enter of the unit that has the function, and its Leave a Back of the one that called, by the
/// numbers that the objects have there and with room for them.
pub fn crossings_are_received()
    ensures calls { CallsAreReceived }
    ensures returns { ReturnsAreReceived }
{}

/// At the start nothing is known of objects. Whatever a unit emits within the rules, each other unit may receive,
/// however many units there are: there is a crossing for it, it is received as it was emitted, what units know of
/// objects stays right with it, and no two objects get one number.
pub fn received_labels_exist()
    ensures first { (unit : ℕ) → IsKnown nothing_known unit (λ i. []) }
    ensures exists { ReceivedExists }
    ensures received { ExchangedIsReceived }
    ensures stays { KnownStays }
    ensures once { NumberedOnce }
{}

/// The layout of a source's variables, where each block is one object, is a layout.
pub fn natural_layouts_fit<F, S>()
    ensures { (l : Language F S) (kinds : F → List Kind) (fs : List F) (layout : Layout) → IsNatural l kinds fs layout →
        IsLayout l fs layout }
{}
