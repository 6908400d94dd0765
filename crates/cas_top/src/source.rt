//! The texts of modules, as they are held.

ghost use Rattle.std.specs.Prelude.{◌≤◌, length};
ghost use Rattle.cas_command.specs.Words.{source_limit};

/// A text that was read, with its name: that of a module, within its limit.
#[derive(Drop)]
pub(crate) struct Source<'a> {
    pub(crate) name: &'a str,
    pub(crate) text: Vec<u8>,
    pub ghost within: { length text.items ≤ source_limit },
}
