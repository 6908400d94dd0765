//! When a store is due: after so many further instructions, before a store to a full buffer, before a locked
//! instruction, and once its thread is Done. No store is drained before.

use crate::images::{AMPLE, Limits, drain, executed_text, object_text, run, simulated_text};
use std::alloc::Global;
use std::test::Fail;

// How many stores are drained with this hold and this fuel, which is less than the thread's instructions.
const HOLDS: &[(u32, u16, &str)] = &[
    (
        3,
        1,
        "thread 0 fuel executed 1 loads 0 forwarded 0 drains 0\n",
    ),
    (
        3,
        4,
        "thread 0 fuel executed 4 loads 0 forwarded 0 drains 0\n",
    ),
    (
        3,
        5,
        "thread 0 fuel executed 5 loads 0 forwarded 0 drains 1\n",
    ),
    (
        0,
        1,
        "thread 0 fuel executed 1 loads 0 forwarded 0 drains 0\n",
    ),
    (
        0,
        2,
        "thread 0 fuel executed 2 loads 0 forwarded 0 drains 1\n",
    ),
];

// A store is due when so many further instructions were executed, and is drained before the next instruction. The
// thread that ends in between drains no more.
#[test]
fn stores_wait_as_long_as_the_hold(rt: HostRuntime) -> Result<(), Fail> {
    let alloc: Global = rt.alloc();
    let code = "mov [@x], 1; mov ecx, 1; mov ecx, 2; out eax; mov ecx, 4; ret";
    let text = object_text(alloc, "shared x int L 0", &[("p", code)])?;
    for (hold, fuel, wanted) in HOLDS {
        let limits = Limits {
            fuel: *fuel,
            hold: *hold,
            ..AMPLE
        };
        let printed = executed_text(alloc, text.as_str(), &["p"], limits)?;
        // the `out` of thread 0 is its fourth instruction, and drains nothing
        let out = if *fuel < 4 { "" } else { "0 0\n" };
        let wanted = format!(in alloc; "{out}{wanted}")?;
        assert_eq!(rt;
            printed.as_str(),
            wanted.as_str(),
            "hold {hold} fuel {fuel}"
        );
    }
    Ok(())
}

// In rounds p stores in round 1 and its store is drained in round 2 + hold, and q, which comes after p in each round,
// loads in rounds 1, 3, 5 and 7.
#[test]
fn others_see_a_store_once_it_is_drained(rt: HostRuntime) -> Result<(), Fail> {
    let alloc: Global = rt.alloc();
    let functions = [
        ("p", "mov [@x], 1; .1; add ecx, 1; cmp ecx, 20; jl .1; ret"),
        (
            "q",
            "mov eax, [@x]; out eax; mov eax, [@x]; out eax; mov eax, [@x]; out eax; mov eax, [@x]; out eax; ret",
        ),
    ];
    let text = object_text(alloc, "shared x int L 0", &functions)?;
    let rows = [
        (0, "1 0\n1 1\n1 1\n1 1\n"),
        (1, "1 0\n1 1\n1 1\n1 1\n"),
        (2, "1 0\n1 0\n1 1\n1 1\n"),
        (3, "1 0\n1 0\n1 1\n1 1\n"),
        (4, "1 0\n1 0\n1 0\n1 1\n"),
        (5, "1 0\n1 0\n1 0\n1 1\n"),
        (6, "1 0\n1 0\n1 0\n1 0\n"),
    ];
    for (hold, outputs) in rows {
        let limits = Limits { hold, ..AMPLE };
        let printed = executed_text(alloc, text.as_str(), &["p", "q"], limits)?;
        let threads = "thread 0 done executed 62 loads 0 forwarded 0 drains 1\n\
thread 1 done executed 9 loads 4 forwarded 0 drains 0\n";
        let wanted = format!(in alloc; "{outputs}{threads}")?;
        assert_eq!(rt; printed.as_str(), wanted.as_str(), "hold {hold}");
    }
    Ok(())
}

// The loop stores in its second instruction, the third of the thread, and then in every fourth; so the 65th store is
// instruction 259. Before it the oldest of 64 is drained, however long the hold.
#[test]
fn full_buffers_drain_their_oldest(rt: HostRuntime) -> Result<(), Fail> {
    let alloc: Global = rt.alloc();
    let code = "mov ecx, 0; .1; add ecx, 1; mov [@x], ecx; cmp ecx, 100; jl .1; ret";
    let text = object_text(alloc, "shared x int L 0", &[("p", code)])?;
    let rows = [
        (
            258,
            "thread 0 fuel executed 258 loads 0 forwarded 0 drains 0\n",
        ),
        (
            259,
            "thread 0 fuel executed 259 loads 0 forwarded 0 drains 1\n",
        ),
        (
            262,
            "thread 0 fuel executed 262 loads 0 forwarded 0 drains 1\n",
        ),
        (
            263,
            "thread 0 fuel executed 263 loads 0 forwarded 0 drains 2\n",
        ),
        (
            402,
            "thread 0 done executed 402 loads 0 forwarded 0 drains 100\n",
        ),
    ];
    for (fuel, wanted) in rows {
        let limits = Limits {
            fuel,
            hold: 1_000_000,
            ..AMPLE
        };
        let printed = executed_text(alloc, text.as_str(), &["p"], limits)?;
        assert_eq!(rt; printed.as_str(), wanted, "fuel {fuel}");
    }
    // chosen by hand, the 65th store is refused until a store is drained, and then 64 wait again
    let stuck = [
        run(0, 300),
        drain(0, 1),
        run(0, 1),
        run(0, 300),
        drain(0, 100),
    ];
    let printed = simulated_text(alloc, text.as_str(), &["p"], &stuck, true)?;
    assert_eq!(rt;
        printed.as_str(),
        "thread 0 running executed 262 loads 0 forwarded 0 drains 65\n"
    );
    Ok(())
}

#[test]
fn locked_steps_drain_all(rt: HostRuntime) -> Result<(), Fail> {
    let alloc: Global = rt.alloc();
    let code = "mov [@x], 1; mov [@y], 2; lockdec [@x]; mov eax, [@x]; out eax; ret";
    let words = "shared x int L 0; shared y int L 0";
    let text = object_text(alloc, words, &[("p", code)])?;
    let rows = [
        (2, "thread 0 fuel executed 2 loads 0 forwarded 0 drains 0\n"),
        (3, "thread 0 fuel executed 3 loads 0 forwarded 0 drains 2\n"),
        (
            9,
            "0 0\nthread 0 done executed 6 loads 1 forwarded 0 drains 2\n",
        ),
    ];
    for (fuel, wanted) in rows {
        let limits = Limits {
            fuel,
            hold: 1_000_000,
            ..AMPLE
        };
        let printed = executed_text(alloc, text.as_str(), &["p"], limits)?;
        assert_eq!(rt; printed.as_str(), wanted, "fuel {fuel}");
    }
    // chosen by hand, it is refused while a store is buffered
    let early = [run(0, 2), run(0, 1), drain(0, 1), run(0, 1)];
    let printed = simulated_text(alloc, text.as_str(), &["p"], &early, true)?;
    assert_eq!(rt;
        printed.as_str(),
        "thread 0 running executed 2 loads 0 forwarded 0 drains 1\n"
    );
    Ok(())
}

#[test]
fn done_threads_drain_all(rt: HostRuntime) -> Result<(), Fail> {
    let alloc: Global = rt.alloc();
    let code = "mov [@x], 1; mov [@y], 2; ret";
    let words = "shared x int L 0; shared y int L 0";
    let text = object_text(alloc, words, &[("p", code)])?;
    let limits = Limits {
        hold: 1_000_000,
        ..AMPLE
    };
    let printed = executed_text(alloc, text.as_str(), &["p"], limits)?;
    assert_eq!(rt;
        printed.as_str(),
        "thread 0 done executed 3 loads 0 forwarded 0 drains 2\n"
    );
    Ok(())
}
