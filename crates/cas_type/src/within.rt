//! What a statement stands in.

ghost use Rattle.std.specs.Prelude.{◌≡◌, true};

use cas_base::Ty;

/// What a statement stands in.
#[derive(Clone, Copy)]
pub struct Within {
    /// The return type of its function.
    pub ret: Ty,
    /// Whether it is in a loop.
    pub in_loop: bool,
}

impl Within {
    /// The same in a loop.
    pub fn looped(self) -> Within
        ensures { result ≡ record { ret = self.ret; in_loop = true } }
    {
        Within {
            ret: self.ret,
            in_loop: true,
        }
    }
}
