//! What an act of a thread does to holders and output.

ghost use Rattle.std.specs.Prelude.{◌≡◌, ℕ, ◌<◌, vec_len, vec_capacity, slice_set};
ghost use Rattle.cas_world.specs.World.{holders_after, out_after};

use cas_base::Act;

// Writes the holder of a lock.
fn set_holder(holders: &mut [Option<u32>], lock: u32, holder: Option<u32>)
    ensures { holders.new ≡ slice_set holders.old lock holder }
{
    if (lock as usize) < holders.len() {
        holders[lock as usize] = holder;
    }
}

/// Writes the holders after an act of a thread.
pub(crate) fn hold(holders: &mut [Option<u32>], act: Act, thread: u32)
    ensures { holders.new ≡ holders_after act thread holders.old }
{
    match act {
        Act::Lock(lock) => set_holder(holders, lock, Some(thread)),
        Act::Unlock(lock) => set_holder(holders, lock, None),
        Act::Quiet => {}
        Act::Out(_) => {}
        Act::Done => {}
        Act::Bad(_) => {}
    }
}

/// Appends what an act of a thread outputs, for which there is room.
pub(crate) fn put(out: &mut Vec<(u32, u32)>, act: Act, thread: u32)
    requires { (n : ℕ) → act ≡ Act.Out n → vec_len out.old < vec_capacity out.old }
    ensures { out.new.items ≡ out_after act thread out.old.items }
{
    match act {
        Act::Out(word) => out.push_reserved((thread, word)),
        Act::Quiet => {}
        Act::Lock(_) => {}
        Act::Unlock(_) => {}
        Act::Done => {}
        Act::Bad(_) => {}
    }
}
