//! Words, and the commands that they give by the rules of words.

use cas_base::Text;
use cas_command::{Command, Turns, World, command_of};
use std::alloc::Global;
use std::fmt::Write;
use std::process::Abort;
use std::test::Fail;

// The words between single spaces.
fn words_of(alloc: Global, text: &str) -> Result<Vec<Text>, Fail> {
    let mut words = Vec::new(alloc);
    for word in text.split(' ') {
        words.push(Text::of(String::from_str(alloc, word)?))?;
    }
    Ok(words)
}

fn show_names(shown: &mut String, names: &[&str]) -> Result<(), Fail> {
    for name in names {
        write!(shown, " {name}")?;
    }
    Ok(())
}

fn show_world(shown: &mut String, world: &World) -> Result<(), Fail> {
    write!(shown, "world of")?;
    show_names(shown, &world.names)?;
    write!(shown, " by")?;
    show_names(shown, &world.threads)?;
    match &world.turns {
        Turns::Rounds(count) => write!(shown, " in {count}")?,
        Turns::Schedule(items) => {
            for item in items {
                let (thread, count) = (item.thread, item.count);
                write!(shown, " {count} of {thread}")?;
            }
        }
    }
    Ok(())
}

// What a command holds, as text.
fn show(alloc: Global, command: &Option<Command>) -> Result<String, Fail> {
    let mut shown = String::new(alloc);
    match command {
        None => write!(shown, "none")?,
        Some(Command::Run(run)) => {
            let (source, lock, thread) = (run.source, run.lock, run.thread);
            write!(shown, "run {source} {lock} {thread}")?;
        }
        Some(Command::Check(names)) => {
            write!(shown, "check of")?;
            show_names(&mut shown, names)?;
        }
        Some(Command::World(world)) => show_world(&mut shown, world)?,
    }
    Ok(shown)
}

fn assert_command(rt: &impl Abort, alloc: Global, text: &str, wanted: &str) -> Result<(), Fail> {
    let words = words_of(alloc, text)?;
    let command = command_of(alloc, &words)?;
    let shown = show(alloc, &command)?;
    assert_eq!(rt; shown.as_str(), wanted, "at {text}");
    Ok(())
}

#[test]
fn words_of_commands(rt: HostRuntime) -> Result<(), Fail> {
    let table = [
        ("run m.c --lock l.s --threads w", "run m.c l.s w"),
        ("check a.c", "check of a.c"),
        ("check a.c -- -b --", "check of a.c -b --"),
        ("check -- a", "check of a"),
        ("world a.c --threads w", "world of a.c by w in 100000"),
        (
            "world --threads=w,w a.c --rounds 0001000000 b.c",
            "world of a.c b.c by w w in 1000000",
        ),
        (
            "world a.c --schedule=1*3,0 --threads w,v",
            "world of a.c by w v 3 of 1 1 of 0",
        ),
        (
            "world --threads w --schedule 0*10000000 -- -a",
            "world of -a by w 10000000 of 0",
        ),
    ];
    for (text, wanted) in table {
        assert_command(&rt, rt.alloc(), text, wanted)?;
    }
    Ok(())
}

#[test]
fn words_of_none(rt: HostRuntime) -> Result<(), Fail> {
    let table = [
        "",
        "Check a",
        "check",
        "check --",
        "check -",
        "check -- -",
        "check a ",
        "check -- ",
        "check -a",
        "check a --threads w",
        "run m.c --threads w --lock l.s",
        "run -m --lock l.s --threads w",
        "world a",
        "world --threads w",
        "world a --threads",
        "world a --thread w",
        "world a --threads=",
        "world a --threads w,",
        "world a --threads 1",
        "world a --threads -- w",
        "world a --threads w --threads w",
        "world a --threads w --schedule 0 --rounds 1",
        "world a --threads w --schedule 1",
        "world a --threads w --schedule 0*0",
        "world a --threads w --schedule 0*",
        "world a --threads w --schedule 0,,0",
        "world a --threads w --schedule=-0",
        "world a --threads w --schedule 0*9999999,0*2",
        "world a --threads w --rounds 1000001",
        "world a --threads w --rounds 00000000001",
        "world a --threads w --rounds +1",
        "world a --threads w --counts",
    ];
    for text in table {
        assert_command(&rt, rt.alloc(), text, "none")?;
    }
    Ok(())
}

// Words with a part that stands so many times at their end.
fn assert_repeated(
    rt: &impl Abort,
    alloc: Global,
    (front, part): (&str, &str),
    times: usize,
    is_command: bool,
) -> Result<(), Fail> {
    let mut text = String::from_str(alloc, front)?;
    for _ in 0..times {
        text.push_str(part)?;
    }
    let words = words_of(alloc, text.as_str())?;
    let command = command_of(alloc, &words)?;
    assert_eq!(rt;
        command.is_some(),
        is_command,
        "{front}, {times} times{part}"
    );
    Ok(())
}

#[test]
fn names_and_threads_are_at_most_64(rt: HostRuntime) -> Result<(), Fail> {
    let names = ("check", " a");
    assert_repeated(&rt, rt.alloc(), names, 64, true)?;
    assert_repeated(&rt, rt.alloc(), names, 65, false)?;
    let threads = ("world a --threads w", ",w");
    assert_repeated(&rt, rt.alloc(), threads, 63, true)?;
    assert_repeated(&rt, rt.alloc(), threads, 64, false)
}
