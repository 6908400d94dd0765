//! The faults of typing.

/// What is wrong in a module that isn't typed, but for a count that passes its limit (`T8`).
#[derive(Clone, Copy, Debug, PartialEq, Eq, Hash)]
pub enum TypeCode {
    /// A name isn't declared before.
    T1,
    /// A name is defined twice in one scope, or stands twice in one `holds`.
    T2,
    /// Types don't fit, a declaration differs from an earlier one of the same name, an array has no element, or there
    /// are more values than elements.
    T3,
    /// A call has a wrong number of arguments.
    T4,
    /// What is assigned is no integer cell or pointer variable that may be written, or what takes a call's result is no
    /// local integer or pointer.
    T5,
    /// The address of a global or of a pointer variable is taken, or a global array stands without an index.
    T6,
    /// `break` or `continue` stands outside a loop.
    T7,
}

/// What has a limit in a module.
#[derive(Clone, Copy, Debug, PartialEq, Eq, Hash)]
pub enum TypeCount {
    /// The parameters of a function.
    Parameters,
    /// The cells of a function's parameters and locals.
    Cells,
    /// The statements and expressions of a function.
    Nodes,
    /// The functions that a module defines.
    Functions,
    /// The words of the globals and locks that a module defines.
    Words,
}
