//! The litmus shapes of x86-TSO: what each may put out, found by a search over all schedules, is exactly what the
//! published memory model allows.
//!
//! The shapes SB, MP, LB, IRIW, and SB with forwarded loads and with locked steps, are those of Intel's manual (volume
//! 3, "Examples Illustrating the Memory-Ordering Principles") and of Sewell, Sarkar, Owens, Zappa Nardelli and Myreen,
//! "x86-TSO: A Rigorous and Usable Programmer's Model for x86 Multiprocessors" (2010), which has n6 too. S, R and 2+2W
//! are those of Alglave, Maranget and Tautschnig, "Herding Cats" (2014), with what TSO allows of each. Whole sets were
//! worked out from the axioms of TSO, by `bench/litmus.py`.

use crate::images::{image_of, object_text};
use crate::litmus::outcomes;
use std::alloc::Global;
use std::test::Fail;

// The words of all shapes.
const WORDS: &str = "shared x int L 0; shared y int L 0; shared z int L 0";

// A litmus shape: its name, the lines of its threads p, q, r and s, those of its observer o, if it has one, and what
// may be put out, in the order of threads.
#[derive(Clone, Copy)]
struct Shape<'a> {
    name: &'a str,
    threads: &'a [(&'a str, &'a str)],
    workers: u32,
    allowed: &'a [&'a [u32]],
}

// Each thread stores to one word and then loads the other. Both may load the old word, which no interleaving shows.
const SB: Shape = Shape {
    name: "sb",
    threads: &[
        ("p", "mov [@x], 1; mov eax, [@y]; out eax; ret"),
        ("q", "mov [@y], 1; mov eax, [@x]; out eax; ret"),
    ],
    workers: 2,
    allowed: &[&[0, 0], &[0, 1], &[1, 0], &[1, 1]],
};

// With a locked step between store and load one of them loads the new word.
const SB_LOCKED: Shape = Shape {
    name: "sb_locked",
    threads: &[
        (
            "p",
            "mov [@x], 1; lockdec [@z]; mov eax, [@y]; out eax; ret",
        ),
        (
            "q",
            "mov [@y], 1; lockdec [@z]; mov eax, [@x]; out eax; ret",
        ),
    ],
    workers: 2,
    allowed: &[&[0, 1], &[1, 0], &[1, 1]],
};

// A locked step in one thread alone isn't enough.
const SB_HALF_LOCKED: Shape = Shape {
    name: "sb_half_locked",
    threads: &[
        (
            "p",
            "mov [@x], 1; lockdec [@z]; mov eax, [@y]; out eax; ret",
        ),
        ("q", "mov [@y], 1; mov eax, [@x]; out eax; ret"),
    ],
    workers: 2,
    allowed: &[&[0, 0], &[0, 1], &[1, 0], &[1, 1]],
};

// A thread sees its own store at once, also while nobody else does.
const SB_FORWARDED: Shape = Shape {
    name: "sb_forwarded",
    threads: &[
        (
            "p",
            "mov [@x], 1; mov eax, [@x]; out eax; mov eax, [@y]; out eax; ret",
        ),
        (
            "q",
            "mov [@y], 1; mov eax, [@y]; out eax; mov eax, [@x]; out eax; ret",
        ),
    ],
    workers: 2,
    allowed: &[&[1, 0, 1, 0], &[1, 0, 1, 1], &[1, 1, 1, 0], &[1, 1, 1, 1]],
};

// Stores are seen in their order, and loads are made in theirs.
const MP: Shape = Shape {
    name: "mp",
    threads: &[
        ("p", "mov [@x], 1; mov [@y], 1; ret"),
        ("q", "mov eax, [@y]; out eax; mov eax, [@x]; out eax; ret"),
    ],
    workers: 2,
    allowed: &[&[0, 0], &[0, 1], &[1, 1]],
};

// No store is seen before a load that comes before it.
const LB: Shape = Shape {
    name: "lb",
    threads: &[
        ("p", "mov eax, [@x]; mov [@y], 1; out eax; ret"),
        ("q", "mov eax, [@y]; mov [@x], 1; out eax; ret"),
    ],
    workers: 2,
    allowed: &[&[0, 0], &[0, 1], &[1, 0]],
};

// If q loads p's second store, its own store comes after p's first.
const S: Shape = Shape {
    name: "s",
    threads: &[
        ("p", "mov [@x], 2; mov [@y], 1; ret"),
        ("q", "mov eax, [@y]; mov [@x], 1; out eax; ret"),
        ("o", "mov eax, [@x]; out eax; ret"),
    ],
    workers: 2,
    allowed: &[&[0, 1], &[0, 2], &[1, 1]],
};

// q's store may be the last to y although q loads the old x after it, which no interleaving shows.
const R: Shape = Shape {
    name: "r",
    threads: &[
        ("p", "mov [@x], 1; mov [@y], 1; ret"),
        ("q", "mov [@y], 2; mov eax, [@x]; out eax; ret"),
        ("o", "mov eax, [@y]; out eax; ret"),
    ],
    workers: 2,
    allowed: &[&[0, 1], &[0, 2], &[1, 1], &[1, 2]],
};

const R_LOCKED: Shape = Shape {
    name: "r_locked",
    threads: &[
        ("p", "mov [@x], 1; mov [@y], 1; ret"),
        (
            "q",
            "mov [@y], 2; lockdec [@z]; mov eax, [@x]; out eax; ret",
        ),
        ("o", "mov eax, [@y]; out eax; ret"),
    ],
    workers: 2,
    allowed: &[&[0, 1], &[1, 1], &[1, 2]],
};

// The first stores of both can't be the last.
const TWO_AND_TWO_WRITES: Shape = Shape {
    name: "2+2w",
    threads: &[
        ("p", "mov [@x], 1; mov [@y], 2; ret"),
        ("q", "mov [@y], 1; mov [@x], 2; ret"),
        ("o", "mov eax, [@x]; out eax; mov eax, [@y]; out eax; ret"),
    ],
    workers: 2,
    allowed: &[&[1, 2], &[2, 1], &[2, 2]],
};

// p loads its own store and then the old y, and yet its store is the last to x.
const N6: Shape = Shape {
    name: "n6",
    threads: &[
        (
            "p",
            "mov [@x], 1; mov eax, [@x]; out eax; mov eax, [@y]; out eax; ret",
        ),
        ("q", "mov [@y], 2; mov [@x], 2; ret"),
        ("o", "mov eax, [@x]; out eax; ret"),
    ],
    workers: 2,
    allowed: &[&[1, 0, 1], &[1, 0, 2], &[1, 2, 1], &[1, 2, 2], &[2, 2, 2]],
};

// Two threads see the stores of two others in one order. What r and s load is all but 1 0 and 1 0.
const IRIW: Shape = Shape {
    name: "iriw",
    threads: &[
        ("p", "mov [@x], 1; ret"),
        ("q", "mov [@y], 1; ret"),
        ("r", "mov eax, [@x]; out eax; mov eax, [@y]; out eax; ret"),
        ("s", "mov eax, [@y]; out eax; mov eax, [@x]; out eax; ret"),
    ],
    workers: 4,
    allowed: &[
        &[0, 0, 0, 0],
        &[0, 0, 0, 1],
        &[0, 0, 1, 0],
        &[0, 0, 1, 1],
        &[0, 1, 0, 0],
        &[0, 1, 0, 1],
        &[0, 1, 1, 0],
        &[0, 1, 1, 1],
        &[1, 0, 0, 0],
        &[1, 0, 0, 1],
        &[1, 0, 1, 1],
        &[1, 1, 0, 0],
        &[1, 1, 0, 1],
        &[1, 1, 1, 0],
        &[1, 1, 1, 1],
    ],
};

const SHAPES: &[Shape] = &[
    SB,
    SB_LOCKED,
    SB_HALF_LOCKED,
    SB_FORWARDED,
    MP,
    LB,
    S,
    R,
    R_LOCKED,
    TWO_AND_TWO_WRITES,
    N6,
    IRIW,
];

#[test]
fn shapes_have_the_outcomes_of_the_model(rt: HostRuntime) -> Result<(), Fail> {
    let alloc: Global = rt.alloc();
    for shape in SHAPES {
        let name = shape.name;
        let text = object_text(alloc, WORDS, shape.threads)?;
        let mut entries = Vec::new(alloc);
        for (thread, _) in shape.threads {
            entries.push(*thread)?;
        }
        let image = image_of(alloc, text.as_str(), &entries)?;
        let found = outcomes(alloc, &image, shape.workers)?;
        assert_eq!(rt; found.len(), shape.allowed.len(), "of {name}");
        for allowed in shape.allowed {
            assert!(rt; found.contains(*allowed), "{allowed:?} of {name}");
        }
    }
    Ok(())
}
