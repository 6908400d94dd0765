//! Selection: from Cminor to CminorSel. Statements stay as they are; in expressions it picks operators with immediates,
//! addressing modes, and conditions without a value between. So
//!
//! ```text
//! if (!(x < 4 * 2)) { p[1] = 8 * x; }        IfElse(!(x < 4 * 2), Store(p + 1, 8 * x), Skip)
//! ```
//!
//! becomes
//!
//! ```text
//! IfElse(x >= #8, Store([p + 1], x << #3), Skip)
//! ```
//!
//! What is made of a form is a function of what its parts became: `specs/Operators` for operators, `Addresses` for
//! addressing modes, `Conditions` for conditions, and `Makes` for all forms. It stands on `cas_mid` and `cas_sel`.
#![tactic(auto)]

pub mod laws;
