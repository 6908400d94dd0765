//! Tables of names.

ghost use Rattle.std.specs.Prelude.{◌<◌};

use cas_base::{Names, cases};
use std::process::Abort;

// Mnemonics of IA-32, in the order of their rows.
#[derive(Clone, Copy, Debug, PartialEq, Eq)]
enum Mnemonic {
    Mov,
    Movsx,
    Movzx,
    Lea,
    Add,
    Sub,
    Cmp,
    Ret,
}

const COUNT: usize = 8;

const SPELLINGS: &str = "mov movsx movzx lea add sub cmp ret";

macro_rules! mnemonics {
    ($direction:ident $of:expr) => {
        cases!($direction $of;
            0 => Mnemonic::Mov,
            1 => Mnemonic::Movsx,
            2 => Mnemonic::Movzx,
            3 => Mnemonic::Lea,
            4 => Mnemonic::Add,
            5 => Mnemonic::Sub,
            6 => Mnemonic::Cmp,
            7 => Mnemonic::Ret,
        )
    };
}

fn mnemonic_at(row: usize) -> Option<Mnemonic> {
    mnemonics!(case_at row)
}

fn row_of(mnemonic: Mnemonic) -> usize
    ensures { result < 8 }
{
    mnemonics!(row_of mnemonic)
}

#[test]
fn rows_and_cases_go_both_ways(rt: HostRuntime) {
    let table = Names::<COUNT>::new(SPELLINGS).expect(&rt, "distinct rows");
    for (row, text) in SPELLINGS.split(' ').enumerate() {
        assert_eq!(rt; table.find(text), Some(row));
        let mnemonic = mnemonic_at(row).expect(&rt, "a mnemonic at each row");
        assert_eq!(rt; row_of(mnemonic), row);
        assert_eq!(rt; table.spell(row_of(mnemonic)), text);
    }
    assert_eq!(rt; row_of(Mnemonic::Lea), 3);
    assert_eq!(rt; mnemonic_at(COUNT), None);
}

// Fifty mnemonics of IA-32.
const FIFTY: &str =
    "mov movsx movzx lea add sub cmp and or xor test neg not imul mul shl shr sar rol ror cdq idiv div push pop jmp call ret inc dec xchg sete setne nop jo jno jb jae je jne jbe ja js jns jp jnp jl jge jle jg";

#[test]
fn fifty_rows_are_found(rt: HostRuntime) {
    let table = Names::<50>::new(FIFTY).expect(&rt, "fifty distinct rows");
    for (row, text) in FIFTY.split(' ').enumerate() {
        assert_eq!(rt; table.find(text), Some(row));
    }
    assert_eq!(rt; table.spell(37), "jae");
    assert_eq!(rt; table.spell(49), "jg");
}

#[derive(Clone, Copy, Debug, PartialEq, Eq)]
enum Flag {
    Carry,
    Zero,
}

macro_rules! flags {
    ($direction:ident $of:expr) => {
        cases!($direction $of; "carry" => Flag::Carry, "zero" => Flag::Zero)
    };
}

#[test]
fn a_short_table_has_texts_as_rows(rt: HostRuntime) {
    for (flag, text) in [(Flag::Carry, "carry"), (Flag::Zero, "zero")] {
        assert_eq!(rt; flags!(case_at text), Some(flag));
        assert_eq!(rt; flags!(row_of flag), text);
    }
    let parity = "parity";
    assert_eq!(rt; flags!(case_at parity), None);
}

#[test]
fn tables_have_so_many_rows_and_no_doubled_one(rt: HostRuntime) {
    for (text, is_table) in [
        ("add sub cmp", true),
        ("add sub", false),
        ("add sub cmp and", false),
        ("add sub add", false),
        ("add add sub", false),
        ("add  sub", true),
        (" add ", false),
        ("  ", false),
        ("add subcmp", false),
        ("add add2 ad", true),
        ("", false),
    ] {
        assert_eq!(rt; Names::<3>::new(text).is_some(), is_table, "at {text}");
    }
}

#[test]
fn a_table_may_have_one_row_and_an_empty_row(rt: HostRuntime) {
    let one = Names::<1>::new("add").expect(&rt, "one row");
    assert_eq!(rt; one.spell(0), "add");
    assert_eq!(rt; one.find("add"), Some(0));
    assert_eq!(rt; one.find(""), None);
    let empty = Names::<1>::new("").expect(&rt, "one empty row");
    assert_eq!(rt; empty.spell(0), "");
    assert_eq!(rt; empty.find(""), Some(0));
    assert!(rt; Names::<0>::new("").is_none());
    let gap = Names::<3>::new("add  sub").expect(&rt, "an empty row between two spaces");
    assert_eq!(rt; gap.spell(1), "");
    assert_eq!(rt; gap.find(""), Some(1));
    assert_eq!(rt; gap.find("sub"), Some(2));
}

#[test]
fn only_a_whole_row_is_found(rt: HostRuntime) {
    let table = Names::<3>::new("movsx mov é").expect(&rt, "three rows");
    for (text, row) in [
        ("movsx", Some(0)),
        ("mov", Some(1)),
        ("é", Some(2)),
        ("mo", None),
        ("movs", None),
        ("movsx ", None),
        ("movsx mov", None),
        ("ov", None),
        ("MOV", None),
        ("", None),
        (" ", None),
    ] {
        assert_eq!(rt; table.find(text), row, "at {text}");
    }
}
