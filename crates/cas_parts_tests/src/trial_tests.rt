//! What the passes of the trial make.

use cas_base::{NoMemory, Seq};
use cas_trial::{Apart, High, HighFunction, Low, LowFunction, Relaying, join, lower, relay, slow};
use std::alloc::Global;
use std::process::Abort;

// What is made of a function with each instruction.
fn lowered(alloc: Global) -> Result<LowFunction, NoMemory> {
    let body = vec![in alloc; High::Skip, High::Take, High::Show, High::Give]?;
    lower(
        alloc,
        &HighFunction {
            body: Seq::of(body),
        },
    )
}

// Each call that may answer want of memory, once with ample memory: it gives another answer.
#[test]
fn always_want_of_memory(rt: HostRuntime) {
    match join(
        rt.alloc(),
        &Apart {
            first: 3,
            second: 7,
        },
    ) {
        Ok(made) => assert_eq!(rt; made.cells, (3, 7)),
        Err(fault) => assert!(rt; false, "{fault:?}"),
    }
    match lowered(rt.alloc()) {
        Ok(made) => {
            let wanted = [Low::Take, Low::Read, Low::Put, Low::Give];
            assert_eq!(rt; made.body.as_slice(), wanted.as_slice());
        }
        Err(fault) => assert!(rt; false, "{fault:?}"),
    }
    match relay(rt.alloc(), &Relaying { word: 5 }) {
        Ok(made) => assert_eq!(rt; made.word, 5),
        Err(fault) => assert!(rt; false, "{fault:?}"),
    }
    match slow(rt.alloc(), &Relaying { word: 6 }) {
        Ok(made) => assert_eq!(rt; made.word, 6),
        Err(fault) => assert!(rt; false, "{fault:?}"),
    }
}
