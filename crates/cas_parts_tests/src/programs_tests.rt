//! Programs of no modules.

use cas_base::Name;
use cas_settle::LinkFault;
use cas_whole::{Program, initial_words};
use std::process::Abort;
use std::test::Fail;

// Each call that can answer want of memory, with ample memory.
#[test]
fn always_want_of_memory(rt: HostRuntime) -> Result<(), Fail> {
    let alloc = rt.alloc();
    let Ok(program) = Program::new(alloc, Vec::new(alloc), &[]) else {
        return Err(Fail::new("no modules are refused"));
    };
    assert_eq!(rt; program.modules().len(), 0);
    assert_eq!(rt; program.cells().len(), 0);
    assert_eq!(rt; program.entries().len(), 0);
    assert_eq!(rt; program.items(0).len(), 0);
    assert!(rt; program.function(0, 0).is_none());
    assert_eq!(rt; initial_words(alloc, &program)?.len(), 0);
    let entries = vec![in alloc; Name::new(alloc, "w")?]?;
    match Program::new(alloc, Vec::new(alloc), &entries) {
        Err(LinkFault::NotDefined(name)) => {
            assert_eq!(rt; name.as_str(), "w");
            Ok(())
        }
        _ => Err(Fail::new("an entry without modules is not refused")),
    }
}
