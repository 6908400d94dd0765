//! The rows of a body's statements while they are made, and the types of the locals that they declare. A statement's
//! row stands before those of its parts: it is made first, and its form is set once the parts are walked through. No
//! form is held where a function may stop early, and an old row goes by a call of `drop`: what is dropped in place
//! the prover follows form by form.

ghost use Rattle.std.specs.Prelude.{◌≡◌, ◌<◌, ◌++◌, [], ◌∷◌, length, IfOk, OnOk, Result, slice_set, vec_capacity, vec_len};
ghost use Rattle.cas_type.specs.Rows.{AnswersPlain, StmtWalks};
ghost use Rattle.cas_typed.specs.Faults.{Fault};
ghost use Rattle.cas_typed.specs.Resolved.{TypedStmtTree};
ghost use Rattle.cas_typed.specs.declared.rows.StmtRowForm.TheVariants.{Skip};

use crate::fault::TypeFault;
use cas_base::{NoMemory, Place, Ty};
use cas_typed::{StmtRow, StmtRowForm};
use std::alloc::Global;
use std::mem;

/// What the statements that are walked through so far come to.
#[derive(Drop)]
pub struct Made {
    pub alloc: Global,
    /// The rows, in order of text.
    pub rows: Vec<StmtRow>,
    /// The types of the locals, in order of declaration.
    pub locals: Vec<Ty>,
}

impl Made {
    /// No statement.
    pub fn new(alloc: Global) -> Made
        ensures rows { result.rows.items ≡ [] }
        ensures locals { result.locals.items ≡ [] }
    {
        Made {
            alloc,
            rows: Vec::new(alloc),
            locals: Vec::new(alloc),
        }
    }

    // Room for one more row, and its number.
    fn reserve(&mut self) -> Result<u32, NoMemory>
        ensures number { IfOk result (λ number. number ≡ length self.old.rows.items) }
        ensures room { OnOk result (vec_len self.new.rows < vec_capacity self.new.rows) }
        ensures rows { self.new.rows.items ≡ self.old.rows.items }
        ensures locals { self.new.locals.items ≡ self.old.locals.items }
    {
        let index = self.rows.len();
        self.rows.reserve(1)?;
        match u32::try_from(index) {
            Ok(number) => Ok(number),
            Err(_) => Err(NoMemory),
        }
    }

    /// Adds a row after the others, for a statement whose form is set once its parts are walked through; and its
    /// number.
    pub fn begin(&mut self, place: Place) -> Result<u32, NoMemory>
        ensures number { IfOk result (λ number. number ≡ length self.old.rows.items) }
        ensures rows { OnOk result (self.new.rows.items ≡ self.old.rows.items ++
            record { place = place; form = Skip } ∷ []) }
        ensures locals { self.new.locals.items ≡ self.old.locals.items }
    {
        let number = self.reserve()?;
        self.rows.push_reserved(StmtRow {
            place,
            form: StmtRowForm::Skip,
        });
        Ok(number)
    }

    // Adds a row of this form after the others; and its number.
    fn push(&mut self, place: Place, form: StmtRowForm) -> Result<u32, NoMemory>
        ensures number { IfOk result (λ number. number ≡ length self.old.rows.items) }
        ensures rows { OnOk result (self.new.rows.items ≡ self.old.rows.items ++
            record { place = place; form = form } ∷ []) }
        ensures locals { self.new.locals.items ≡ self.old.locals.items }
    {
        match self.reserve() {
            Ok(number) => {
                self.rows.push_reserved(StmtRow { place, form });
                Ok(number)
            }
            Err(NoMemory) => {
                drop(form);
                Err(NoMemory)
            }
        }
    }

    /// The row with this number becomes so.
    pub fn set(&mut self, number: u32, place: Place, form: StmtRowForm)
        requires { number < length self.old.rows.items }
        ensures rows { self.new.rows.items ≡ slice_set self.old.rows.items number
            (record { place = place; form = form }) }
        ensures locals { self.new.locals.items ≡ self.old.locals.items }
    {
        let row = StmtRow { place, form };
        drop(mem::replace(&mut self.rows[number as usize], row));
    }

    /// The row of a statement without parts, whose form was found.
    pub fn plain(
        &mut self,
        place: Place,
        form: Result<StmtRowForm, TypeFault>,
    ) -> Result<u32, TypeFault>
        ensures rows { (walked : Result TypedStmtTree Fault) → AnswersPlain place form walked
            → StmtWalks self.old.rows.items self.new.rows.items result walked }
        ensures locals { OnOk result (self.new.locals.items ≡ self.old.locals.items) }
    {
        match form {
            Ok(form) => Ok(self.push(place, form)?),
            Err(fault) => Err(fault),
        }
    }
}
