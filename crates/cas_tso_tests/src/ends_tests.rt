//! How threads end.

use crate::images::{AMPLE, Limits, drain, executed_text, object_text, run, simulated_text};
use std::alloc::Global;
use std::test::Fail;

const WORDS: &str = "shared x int L 0; const t int[2] 7 9; shared y int L 0";

// A thread's lines and what is printed of its run.
const ENDS: &[(&str, &str)] = &[
    ("ret", "done executed 1 loads 0 forwarded 0 drains 0"),
    (
        "mov ecx, 0; div ecx; ret",
        "bad divide executed 1 loads 0 forwarded 0 drains 0",
    ),
    (
        "mov eax, -2147483648; cdq; mov ecx, -1; idiv ecx; ret",
        "bad divide executed 3 loads 0 forwarded 0 drains 0",
    ),
    (
        "mov eax, [4098]; ret",
        "bad address executed 0 loads 0 forwarded 0 drains 0",
    ),
    (
        "mov eax, [0]; ret",
        "bad address executed 0 loads 0 forwarded 0 drains 0",
    ),
    (
        "mov [esp+4], 1; ret",
        "bad address executed 0 loads 0 forwarded 0 drains 0",
    ),
    (
        "lockdec [esp]; ret",
        "bad address executed 0 loads 0 forwarded 0 drains 0",
    ),
    (
        "mov [@t], 1; ret",
        "bad const executed 0 loads 0 forwarded 0 drains 0",
    ),
    (
        "lockdec [@t+4]; ret",
        "bad const executed 0 loads 0 forwarded 0 drains 0",
    ),
    (
        "mov eax, [@t+4]; ret",
        "done executed 2 loads 1 forwarded 0 drains 0",
    ),
    // past the last instruction, and by a `ret` to no place
    (
        "mov eax, 1",
        "bad place executed 1 loads 0 forwarded 0 drains 0",
    ),
    (
        "push eax; mov [esp], 100; ret",
        "bad place executed 3 loads 0 forwarded 0 drains 0",
    ),
    // esp stands at the last of 16 words
    (
        ".1; push eax; jmp .1",
        "stack executed 30 loads 0 forwarded 0 drains 0",
    ),
    // an end that hangs on the loaded word; a load that ends its thread isn't counted
    (
        "mov esp, [@x]; ret",
        "stack executed 0 loads 0 forwarded 0 drains 0",
    ),
    (
        "mov [@x], 5; mov esp, [@x]; ret",
        "stack executed 1 loads 0 forwarded 0 drains 0",
    ),
    (
        "mov [@x], 5; mov ecx, 0; div ecx; ret",
        "bad divide executed 2 loads 0 forwarded 0 drains 0",
    ),
    (
        ".1; jmp .1",
        "fuel executed 1000 loads 0 forwarded 0 drains 0",
    ),
];

#[test]
fn threads_end(rt: HostRuntime) -> Result<(), Fail> {
    let alloc: Global = rt.alloc();
    for (code, end) in ENDS {
        let text = object_text(alloc, WORDS, &[("w", code)])?;
        let limits = Limits {
            fuel: 1000,
            ..AMPLE
        };
        let printed = executed_text(alloc, text.as_str(), &["w"], limits)?;
        let wanted = format!(in alloc; "thread 0 {end}\n")?;
        assert_eq!(rt; printed.as_str(), wanted.as_str(), "at {code}");
    }
    Ok(())
}

// A thread ends at the `out` that goes past its outputs. As many as it may make are no end.
#[test]
fn outputs_run_out(rt: HostRuntime) -> Result<(), Fail> {
    let alloc: Global = rt.alloc();
    let code = "mov eax, -1; out eax; mov [@x], 1; out eax; out eax; ret";
    let text = object_text(alloc, WORDS, &[("w", code)])?;
    let rows = [
        (0, "thread 0 outs executed 1 loads 0 forwarded 0 drains 0\n"),
        (
            2,
            "0 -1\n0 -1\nthread 0 outs executed 4 loads 0 forwarded 0 drains 0\n",
        ),
        (
            3,
            "0 -1\n0 -1\n0 -1\nthread 0 done executed 6 loads 0 forwarded 0 drains 1\n",
        ),
    ];
    for (outs, wanted) in rows {
        let limits = Limits { outs, ..AMPLE };
        let printed = executed_text(alloc, text.as_str(), &["w"], limits)?;
        assert_eq!(rt; printed.as_str(), wanted, "outs {outs}");
    }
    Ok(())
}

// Without fuel no instruction is executed. A thread whose last instruction takes the last fuel is Done.
#[test]
fn fuel_runs_out(rt: HostRuntime) -> Result<(), Fail> {
    let alloc: Global = rt.alloc();
    let text = object_text(alloc, WORDS, &[("w", "out eax; mov [@x], 1; ret")])?;
    let rows = [
        (
            0,
            "thread 0 fuel executed 0 loads 0 forwarded 0 drains 0\n\
thread 1 fuel executed 0 loads 0 forwarded 0 drains 0\n",
        ),
        (
            2,
            "0 0\n1 1\nthread 0 fuel executed 2 loads 0 forwarded 0 drains 0\n\
thread 1 fuel executed 2 loads 0 forwarded 0 drains 0\n",
        ),
        (
            3,
            "0 0\n1 1\nthread 0 done executed 3 loads 0 forwarded 0 drains 1\n\
thread 1 done executed 3 loads 0 forwarded 0 drains 1\n",
        ),
    ];
    for (fuel, wanted) in rows {
        let limits = Limits { fuel, ..AMPLE };
        let printed = executed_text(alloc, text.as_str(), &["w", "w"], limits)?;
        assert_eq!(rt; printed.as_str(), wanted, "fuel {fuel}");
    }
    Ok(())
}

// In rounds a thread that ended otherwise than Done drains no more, so nobody sees its store. By a schedule it can be
// drained after its end. A thread that has ended takes no instruction.
#[test]
fn ended_threads_only_drain(rt: HostRuntime) -> Result<(), Fail> {
    let alloc: Global = rt.alloc();
    let functions = [
        ("p", "mov [@x], 5; mov ecx, 0; div ecx; ret"),
        (
            "q",
            "push eax; pop eax; push eax; pop eax; push eax; pop eax; mov eax, [@x]; out eax; ret",
        ),
    ];
    let text = object_text(alloc, WORDS, &functions)?;
    let limits = Limits { hold: 3, ..AMPLE };
    let printed = executed_text(alloc, text.as_str(), &["p", "q"], limits)?;
    assert_eq!(rt;
        printed.as_str(),
        "1 0\nthread 0 bad divide executed 2 loads 0 forwarded 0 drains 0\n\
thread 1 done executed 9 loads 1 forwarded 0 drains 0\n"
    );
    let schedule = [run(0, 9), drain(0, 9), run(1, 9), drain(1, 1), run(7, 1)];
    let printed = simulated_text(alloc, text.as_str(), &["p", "q"], &schedule, true)?;
    assert_eq!(rt;
        printed.as_str(),
        "1 5\nthread 0 bad divide executed 2 loads 0 forwarded 0 drains 1\n\
thread 1 done executed 9 loads 1 forwarded 0 drains 0\n"
    );
    Ok(())
}

// Each of 64 threads puts out its number, in the order of numbers.
#[test]
fn many_threads(rt: HostRuntime) -> Result<(), Fail> {
    let alloc: Global = rt.alloc();
    let text = object_text(
        alloc,
        WORDS,
        &[("w", "out eax; lockdec [@x]; mov eax, [@x]; out eax; ret")],
    )?;
    let entries = ["w"; 64];
    let printed = executed_text(alloc, text.as_str(), &entries, AMPLE)?;
    let mut wanted = String::new(alloc);
    for thread in 0..64 {
        wanted.push_str(format!(in alloc; "{thread} {thread}\n")?.as_str())?;
    }
    // the decrements of all come before the first load
    for thread in 0..64 {
        wanted.push_str(format!(in alloc; "{thread} -64\n")?.as_str())?;
    }
    for thread in 0..64 {
        let line = format!(in alloc;
            "thread {thread} done executed 5 loads 1 forwarded 0 drains 0\n"
        )?;
        wanted.push_str(line.as_str())?;
    }
    assert_eq!(rt; printed.as_str(), wanted.as_str());
    Ok(())
}
