//! What CminorSel has besides the constants of `cas_mid`, which it shares: `docs/DECISIONS.md` has the table of all
//! languages.

/// An If among conditions: the tests of its second and third, besides what they test.
pub const IF_TEST: u32 = 19;
/// A condition that holds always, or never.
pub const ALWAYS: u32 = 1;
