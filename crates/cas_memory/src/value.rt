//! Values, and the objects to which pointers point.

ghost use Rattle.std.specs.Prelude.{◌≡◌};
ghost use Rattle.cas_step.specs.Step.{same_object};
ghost use Rattle.cas_memory.specs.Values.{object_of};

/// A local of an activation.
#[derive(Clone, Copy, Debug, PartialEq, Eq)]
pub struct Object {
    /// The serial number of the activation, which no other one of the thread has.
    pub serial: u64,
    /// The number of the local.
    pub local: u32,
}

impl Object {
    /// Whether it is the same object.
    pub fn is(self, other: Object) -> bool
        ensures { result ≡ same_object (object_of self) (object_of other) }
    {
        self.serial == other.serial && self.local == other.local
    }
}

/// What a cell holds, and an expression gives.
#[derive(Clone, Copy, Debug, PartialEq, Eq)]
pub enum Value {
    /// A number below 2 ^ 32.
    Word(u32),
    /// The pointer that points nowhere.
    Null,
    /// To a place in an object, from 0 to the object's length. The object may be dead.
    Pointer { object: Object, place: u32 },
}
