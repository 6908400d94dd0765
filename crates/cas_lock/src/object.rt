//! Lock objects.

ghost use Rattle.std.specs.Prelude.{◌≡◌, IfOk};
ghost use Rattle.cas_lock.specs.Accepted.{accepted_code};

use cas_asm::{Cond, Instr, Mem, Target, Value};
use cas_base::{NoMemory, Reg, Seq};
use std::alloc::Global;

/// A lock object: the accepted body, whose labels are places.
#[derive(Debug, Drop)]
pub struct LockObject {
    /// Its instructions.
    pub code: Seq<Instr<u32>>,
    /// The place of `lock`.
    pub lock: u32,
    /// The place of `unlock`.
    pub unlock: u32,
    pub ghost accepted: { code ≡ accepted_code },
    pub ghost locks: { lock ≡ 0 },
    pub ghost unlocks: { unlock ≡ 6 },
}

// The place in memory at which eax points: the lock's word.
const WORD: Mem<u32> = Mem {
    sym: None,
    base: Some(Reg::Eax),
    index: None,
    disp: 0,
};

impl LockObject {
    /// The accepted body.
    pub fn accepted(alloc: Global) -> Result<LockObject, NoMemory> {
        let mut code = Vec::new(alloc);
        code.push(Instr::LockDec(WORD))?;
        code.push(Instr::JumpIf(Cond::Ns, 5))?;
        code.push(Instr::CmpMem(WORD, 0))?;
        code.push(Instr::JumpIf(Cond::Le, 2))?;
        code.push(Instr::Jmp(Target::Label(0)))?;
        code.push(Instr::Ret)?;
        code.push(Instr::Store(WORD, Value::Num(1)))?;
        code.push(Instr::Ret)?;
        Ok(LockObject {
            code: Seq::of(code),
            lock: 0,
            unlock: 6,
        })
    }
}
