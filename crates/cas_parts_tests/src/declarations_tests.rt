//! Names, and declarations and their copies.

use cas_base::{Decl, Form, Global, Kind, Name, NameFault, Seq, Text, Ty};
use std::alloc;
use std::process::Abort;
use std::test::Fail;

// The form of `void f(int, unsigned char *)`, which holds two locks.
fn function(alloc: alloc::Global) -> Result<Form, Fail> {
    let params = vec![in alloc; Ty::Int(Kind::I32), Ty::Ptr(Kind::U8)]?;
    let first = Name::new(alloc, "L")?;
    let second = Name::new(alloc, "M")?;
    let holds = vec![in alloc; first, second]?;
    Ok(Form::Function {
        ret: Ty::Void,
        params: Seq::of(params),
        holds: Seq::of(holds),
    })
}

// With ample memory the form is copied, and the copy equals it.
fn form_is_copied(alloc: alloc::Global, form: Form) -> bool {
    match form.copy(alloc) {
        Ok(copied) => copied == form,
        Err(_) => false,
    }
}

fn decl_is_copied(alloc: alloc::Global, decl: &Decl) -> bool {
    match decl.copy(alloc) {
        Ok(copied) => copied == *decl,
        Err(_) => false,
    }
}

fn global_is_copied(alloc: alloc::Global, global: Global) -> bool {
    match global.copy(alloc) {
        Ok(copied) => copied == global,
        Err(_) => false,
    }
}

// A table of two words.
fn table(name: Name, values: Seq<u32>) -> Global {
    let ty = Ty::Array(Kind::I32, 2);
    Global {
        decl: Decl {
            name,
            form: Form::Table { ty },
            defined: true,
        },
        values,
    }
}

// Each call that may answer want of memory, once with ample memory: it gives another answer.
#[test]
fn always_want_of_memory(rt: HostRuntime) -> Result<(), Fail> {
    let alloc: alloc::Global = rt.alloc();
    let name = Name::new(alloc, "g")?;
    assert_eq!(rt; name.as_str(), "g");
    assert_eq!(rt; name.copy(alloc)?.as_str(), "g");
    let values = Seq::of(vec![in alloc; 7u32, 8]?);
    assert_eq!(rt; values.copy(alloc)?.as_slice(), [7, 8].as_slice());
    let table = table(name, values);
    assert!(rt; decl_is_copied(alloc, &table.decl));
    assert_eq!(rt; table.decl.print(alloc)?.as_str(), "const g int[2]");
    assert!(rt; global_is_copied(alloc, table));
    assert!(rt; form_is_copied(alloc, Form::Lock));
    assert!(rt; form_is_copied(alloc, function(alloc)?));
    let lock = Name::new(alloc, "L")?;
    let ty = Ty::Int(Kind::I16);
    assert!(rt; form_is_copied(alloc, Form::Shared { ty, lock }));
    Ok(())
}

#[test]
fn lists_and_texts_hold_what_they_are_given(rt: HostRuntime) -> Result<(), Fail> {
    let seq = Seq::of(vec![in rt.alloc(); 3u32, 1, 2]?);
    assert_eq!(rt; seq.as_slice(), [3, 1, 2].as_slice());
    assert_eq!(rt; seq.into_vec().as_slice(), [3, 1, 2].as_slice());
    let text = Text::of(String::from_str(rt.alloc(), "lock L;")?);
    assert_eq!(rt; text.as_str(), "lock L;");
    Ok(())
}

fn assert_name(rt: &impl Abort, alloc: alloc::Global, text: &str, is_name: bool) {
    match Name::new(alloc, text) {
        Ok(name) => {
            assert!(rt; is_name, "{text} is no name");
            assert_eq!(rt; name.as_str(), text);
        }
        Err(fault) => {
            assert_eq!(rt; fault, NameFault::Shape, "at {text}");
            assert!(rt; !is_name, "{text} is a name");
        }
    }
}

#[test]
fn names_are_letters_digits_and_underscores(rt: HostRuntime) {
    let longest = "abcdefghijabcdefghijabcdefghijabcdefghijabcdefghijabcdefghij_12";
    let too_long = "abcdefghijabcdefghijabcdefghijabcdefghijabcdefghijabcdefghij_123";
    assert_eq!(rt; longest.len(), 63);
    let table = [
        ("", false),
        ("a", true),
        ("Z9_z", true),
        ("_", true),
        ("_1", true),
        ("1a", false),
        ("a b", false),
        ("a-b", false),
        ("a.", false),
        ("é", false),
        ("aé", false),
        (longest, true),
        (too_long, false),
    ];
    for (text, is_name) in table {
        assert_name(&rt, rt.alloc(), text, is_name);
    }
}
