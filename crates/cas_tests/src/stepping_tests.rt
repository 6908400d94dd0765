//! A world that is stepped turn by turn, by hand. The wanted answers are those that the rules of the language give
//! (`docs/LANGUAGE.md`).

use cas_base::{Name, Place, Why};
use cas_check::check_module;
use cas_own::Checked;
use cas_read::read_module;
use cas_turn::{Item, ThreadState, World, WorldAnswer, join};
use cas_type::type_module;
use std::alloc::Global;
use std::process::Abort;
use std::test::Fail;

// A thread that writes and prints under a lock, and one that divides by zero under it.
const MODULE: &str = "lock other; lock key; shared(key) int cell;
void writes(int me) { lock(key); cell = 5; print(cell); unlock(key); }
void divides(int me) { lock(key);
print(1 / cell);
print(1 / (cell - cell)); unlock(key); }";

// Its lock is the program's second word, and thread 0 has it.
const WAITS: ThreadState = ThreadState::Waits { lock: 1, holder: 0 };

// The second division.
const BAD: ThreadState = ThreadState::Bad {
    why: Why::DivZero,
    module: 0,
    place: Place { line: 5, col: 1 },
};

// Turns of threads, each with what its thread stands at before.
const TURNS: [(u32, ThreadState); 13] = [
    (0, ThreadState::Running),
    (1, WAITS),
    (0, ThreadState::Running),
    (0, ThreadState::Running),
    (1, WAITS),
    (0, ThreadState::Running),
    (1, ThreadState::Running),
    (0, ThreadState::Running),
    (0, ThreadState::Ended),
    (1, ThreadState::Running),
    (1, BAD),
    (0, ThreadState::Ended),
    (1, BAD),
];

fn checked(alloc: Global, text: &[u8]) -> Result<Checked, Fail> {
    if text.len() > 10000 {
        return Err(Fail::new("the text is too long"));
    }
    let Ok(tree) = read_module(alloc, text) else {
        return Err(Fail::new("the text is not read"));
    };
    let Ok(typed) = type_module(alloc, tree) else {
        return Err(Fail::new("the module is not typed"));
    };
    match check_module(alloc, typed) {
        Ok(module) => Ok(module),
        Err(_) => Err(Fail::new("the module is not checked")),
    }
}

fn first_world(alloc: Global) -> Result<World, Fail> {
    let modules = vec![in alloc; checked(alloc, MODULE.as_bytes())?]?;
    let writes = Name::new(alloc, "writes")?;
    let divides = Name::new(alloc, "divides")?;
    let entries = vec![in alloc; writes, divides]?;
    match join(alloc, modules, entries.as_slice()) {
        Ok(program) => Ok(World::start(alloc, program)?),
        Err(_) => Err(Fail::new("the module is no program")),
    }
}

// What a turn of a thread that stands so answers.
fn answer_at(state: ThreadState) -> Result<(), WorldAnswer> {
    match state {
        ThreadState::Running => Ok(()),
        ThreadState::Ended => Err(WorldAnswer::Ended),
        ThreadState::Waits { lock, holder } => Err(WorldAnswer::Waits { lock, holder }),
        ThreadState::Bad { why, module, place } => Err(WorldAnswer::Bad { why, module, place }),
    }
}

// A turn of a thread that is there.
fn take_turn(world: &mut World, thread: u32) -> Result<(), WorldAnswer> {
    if thread < world.threads() {
        world.step(thread)
    } else {
        Err(WorldAnswer::Ended)
    }
}

#[test]
fn turns_are_taken_one_by_one(rt: HostRuntime) -> Result<(), Fail> {
    let mut world = first_world(rt.alloc())?;
    assert_eq!(rt; world.threads(), 2);
    for (thread, state) in TURNS {
        assert_eq!(rt; world.state(thread), state);
        assert_eq!(rt; take_turn(&mut world, thread), answer_at(state));
    }
    assert_eq!(rt; world.state(2), ThreadState::Ended);
    assert_eq!(rt; world.out(), [(0, 5), (1, 0)].as_slice());
    Ok(())
}

// The same turns as a schedule, and then rounds, in which nothing changes.
#[test]
fn turns_are_taken_in_a_row(rt: HostRuntime) -> Result<(), Fail> {
    let mut world = first_world(rt.alloc())?;
    let first = Item {
        thread: 0,
        count: 9,
    };
    let second = Item {
        thread: 1,
        count: 9,
    };
    assert!(rt; world.schedule(&[first, second]).is_ok());
    assert!(rt; world.rounds(2).is_ok());
    assert_eq!(rt; world.state(0), ThreadState::Ended);
    assert_eq!(rt; world.state(1), BAD);
    assert_eq!(rt; world.out(), [(0, 5), (1, 0)].as_slice());
    Ok(())
}
