//! The store buffer, by schedules that show both what a buffer allows and what it doesn't, and with counts.

use crate::images::{
    AMPLE, Limits, drain, executed_text, map_of, object_text, run, simulated_text,
};
use std::alloc::{AllocError, Global};
use std::test::Fail;

// Two threads that each store to one word and load the other.
fn store_buffer(alloc: Global) -> Result<String, AllocError> {
    let functions = [
        ("p", "mov [@x], 1; mov eax, [@y]; out eax; ret"),
        ("q", "mov [@y], 1; mov eax, [@x]; out eax; ret"),
    ];
    object_text(alloc, "shared x int L 0; shared y int L 0", &functions)
}

#[test]
fn store_buffers_are_seen_by_their_threads(rt: HostRuntime) -> Result<(), Fail> {
    let alloc: Global = rt.alloc();
    let text = store_buffer(alloc)?;
    let buffered = [
        run(0, 1),
        run(1, 1),
        run(0, 3),
        run(1, 3),
        drain(0, 1),
        drain(1, 1),
    ];
    let drained = [
        run(0, 1),
        run(1, 1),
        drain(0, 1),
        drain(1, 1),
        run(0, 3),
        run(1, 3),
    ];
    let one_drained = [
        run(0, 1),
        run(1, 1),
        run(0, 3),
        drain(0, 1),
        run(1, 3),
        drain(1, 1),
    ];
    let rows = [
        (buffered, "0 0\n1 0\nthread 0 done\nthread 1 done\n"),
        (drained, "0 1\n1 1\nthread 0 done\nthread 1 done\n"),
        (one_drained, "0 0\n1 1\nthread 0 done\nthread 1 done\n"),
    ];
    for (schedule, wanted) in rows {
        let printed = simulated_text(alloc, text.as_str(), &["p", "q"], &schedule, false)?;
        assert_eq!(rt; printed.as_str(), wanted);
    }
    Ok(())
}

// In rounds the hold says when the stores are drained.
#[test]
fn holds_change_what_is_seen(rt: HostRuntime) -> Result<(), Fail> {
    let alloc: Global = rt.alloc();
    let text = store_buffer(alloc)?;
    let counts = "executed 4 loads 1 forwarded 0 drains 1";
    for (hold, outputs) in [(8, "0 0\n1 0\n"), (0, "0 0\n1 1\n")] {
        let limits = Limits { hold, ..AMPLE };
        let printed = executed_text(alloc, text.as_str(), &["p", "q"], limits)?;
        let wanted = format!(in alloc;
            "{outputs}thread 0 done {counts}\nthread 1 done {counts}\n"
        )?;
        assert_eq!(rt; printed.as_str(), wanted.as_str(), "hold {hold}");
    }
    Ok(())
}

#[test]
fn maps(rt: HostRuntime) -> Result<(), Fail> {
    let alloc: Global = rt.alloc();
    let map = map_of(alloc, store_buffer(alloc)?.as_str(), &["p", "q"])?;
    assert_eq!(rt;
        map.as_str(),
        "data L 4096 1\ndata x 4100 1\ndata y 4104 1\nfunction p 8 4\nfunction q 12 4\nthreads 2\n"
    );
    Ok(())
}

// A load of the thread's own store is forwarded while the store is in the buffer.
#[test]
fn loads_are_forwarded(rt: HostRuntime) -> Result<(), Fail> {
    let alloc: Global = rt.alloc();
    let other = "mov [@x], 1; mov eax, [@y]; out eax; ret";
    let own = "mov [@x], 1; mov eax, [@x]; out eax; ret";
    let rows = [
        (
            other,
            AMPLE,
            "0 0\nthread 0 done executed 4 loads 1 forwarded 0 drains 1\n",
        ),
        (
            own,
            AMPLE,
            "0 1\nthread 0 done executed 4 loads 1 forwarded 1 drains 1\n",
        ),
        (
            own,
            Limits { hold: 0, ..AMPLE },
            "0 1\nthread 0 done executed 4 loads 1 forwarded 0 drains 1\n",
        ),
    ];
    for (code, limits, wanted) in rows {
        let words = "shared x int L 0; shared y int L 0";
        let text = object_text(alloc, words, &[("p", code)])?;
        let printed = executed_text(alloc, text.as_str(), &["p"], limits)?;
        assert_eq!(rt; printed.as_str(), wanted);
    }
    Ok(())
}

// The lock object takes nine instructions with its calls, and `unlock` makes the one store.
#[test]
fn locks_are_taken_and_released(rt: HostRuntime) -> Result<(), Fail> {
    let alloc: Global = rt.alloc();
    let functions = [("w", "lea eax, [@L]; call lock; call unlock; ret")];
    let text = object_text(alloc, "shared x int L 0", &functions)?;
    let printed = executed_text(alloc, text.as_str(), &["w"], AMPLE)?;
    assert_eq!(rt;
        printed.as_str(),
        "thread 0 done executed 9 loads 0 forwarded 0 drains 1\n"
    );
    Ok(())
}
