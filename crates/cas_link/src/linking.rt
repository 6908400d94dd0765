//! Linking.

ghost use Rattle.std.specs.Prelude.{◌≡◌, ◌+◌, ◌-◌, ◌<◌, ◌≤◌, ◌^◌, ℕ, [], All, length, ◌++◌, map, min, IfOk, OnOk, string_bytes};
ghost use Rattle.std.specs.Option.{option_or};
ghost use Rattle.cas_base.specs.Decl.{definitions, references, functions_of};
ghost use Rattle.cas_settle.specs.Settle.{IsSettled, all_decls, twice_fault, references_fault, limit_fault, words_of, cells_of};
ghost use Rattle.cas_settle.specs.Refusal.{IsRefusedBy};
ghost use Rattle.cas_link.specs.Parts.{decls_in, functions_in, globals_in, sizes_of, units_of};
ghost use Rattle.cas_object_text.specs.Values.{AreWhole};
ghost use Rattle.cas_link.specs.Refusal.{is_limit, link_refusal};
ghost use Rattle.cas_link.specs.Image_of.{IsImageOf};
ghost use Rattle.cas_link.specs.Map.{data_lines, function_lines, threads_line, map_text};
ghost use Rattle.cas_link.specs.Rows.{FindSame};
ghost use Rattle.cas_link.specs.Code.{addresses_of, places_from, code_from};

use crate::check::check_names;
use crate::code::{Tables, add_addresses, add_places, push_functions};
use crate::image::{constants_of, guards_of, locks_of, numbers_of, words_of};
use crate::parts::{functions_of, globals_of, roster_of, sizes_after};
use crate::table::Symbols;
use crate::text::{put_data, put_functions, put_threads};
use cas_asm::{AsmFun, CODE_LIMIT, Image, Instr};
use cas_base::{Global as Datum, Name, NoMemory, Seq};
use cas_lock::LockObject;
use cas_object_text::Object;
use cas_settle::{CellRow, Count, LinkFault, Roster, settle};
use std::alloc::Global;

fn is_limit(fault: &LinkFault) -> bool
    ensures { result ≡ is_limit fault.now }
{
    matches!(fault, LinkFault::Limit { .. })
}

/// Checks that no name is defined twice, and each declaration that isn't a definition against the definition of its
/// name.
pub(crate) fn check_declarations(alloc: Global, units: &Roster) -> Result<(), LinkFault>
    requires few_units { length units.now < 2 ^ 32 }
    requires few_functions { All (λ unit. length (functions_of unit) < 2 ^ 32) units.now }
    ensures { IsRefusedBy result (option_or (twice_fault (definitions (all_decls units.now)))
        (references_fault (definitions (all_decls units.now)) (references (all_decls units.now)))) }
{
    let Err(fault) = settle(alloc, units, &[]) else {
        return Ok(());
    };
    if is_limit(&fault) {
        return Ok(());
    }
    Err(fault)
}

/// What is linked once nothing is refused.
#[derive(Drop)]
pub(crate) struct Plan<'a> {
    /// The functions, in order.
    pub functions: Vec<&'a AsmFun>,
    /// The globals and locks, in order.
    pub globals: Vec<&'a Datum>,
    /// Their words.
    pub cells: Seq<CellRow>,
}

// Checks a count against its limit. The count stands still at the greatest `u64`.
fn check_limit(what: Count, limit: u64, counted: u64) -> Result<(), LinkFault>
    requires { limit < 2 ^ 64 - 1 }
    ensures { (count : ℕ) → counted ≡ min count (2 ^ 64 - 1) → IsRefusedBy result (limit_fault what limit count) }
{
    if counted > limit {
        return Err(LinkFault::Limit { what, counted });
    }
    Ok(())
}

/// The parts of objects that are not refused, with a lock object of so many instructions. Refused in the order of
/// `link_refusal`.
pub(crate) fn planned<'a>(
    alloc: Global,
    objects: &'a [Object],
    lock: u64,
    entries: &[Name],
) -> Result<Plan<'a>, LinkFault>
    requires few_units { length objects.now < 2 ^ 32 }
    requires few_functions { All (λ unit. length (functions_of unit) < 2 ^ 32) (decls_in objects.now) }
    requires few_instructions { lock < 2 ^ 32 }
    ensures refused { IsRefusedBy result (link_refusal lock objects.now entries.now) }
    ensures functions { IfOk result (λ plan. map (λ f. f.now) plan.functions.items ≡ functions_in objects.now) }
    ensures globals { IfOk result (λ plan. map (λ g. g.now) plan.globals.items ≡ globals_in objects.now) }
    ensures cells { IfOk result (λ plan. plan.cells ≡ cells_of (decls_in objects.now)) }
    ensures code { OnOk result (lock + sizes_of (functions_in objects.now) ≤ 4194304) }
    ensures words { OnOk result (words_of (definitions (all_decls (decls_in objects.now))) ≤ 65536) }
{
    let units = roster_of(alloc, objects)?;
    check_declarations(alloc, &units)?;
    let functions = functions_of(alloc, objects)?;
    let globals = globals_of(alloc, objects)?;
    check_names(alloc, &globals, &functions)?;
    let settled = settle(alloc, &units, entries)?;
    check_limit(
        Count::Code,
        CODE_LIMIT as u64,
        sizes_after(lock, &functions),
    )?;
    Ok(Plan {
        functions,
        globals,
        cells: settled.cells,
    })
}

// Where names are, with a lock object of so many instructions.
fn tables_of<'a>(alloc: Global, plan: &'a Plan, lock: u32) -> Result<Tables<'a>, NoMemory>
    requires { lock + sizes_of (map (λ f. f.now) plan.now.functions.items) < 2 ^ 32 }
    ensures addresses { IfOk result (λ tables. FindSame tables.addresses (addresses_of plan.now.cells)) }
    ensures places { IfOk result (λ tables. FindSame tables.places (places_from lock (map
        (λ f. f.now) plan.now.functions.items))) }
{
    let mut addresses = Symbols::new(alloc);
    add_addresses(&mut addresses, plan.cells.as_slice())?;
    let mut places = Symbols::new(alloc);
    add_places(&mut places, lock, &plan.functions)?;
    Ok(Tables { addresses, places })
}

// The code of the lock object and of the functions after it.
fn code_of(
    alloc: Global,
    plan: &Plan,
    tables: &Tables,
    lock: &[Instr<u32>],
) -> Result<Vec<Instr<u32>>, NoMemory>
    requires { length lock.now + sizes_of (map (λ f. f.now) plan.now.functions.items) < 2 ^ 32 }
    ensures { IfOk result (λ code. code.items ≡ lock.now ++ code_from tables.now.addresses tables.now.places
        (length lock.now) (map (λ f. f.now) plan.now.functions.items)) }
{
    let mut code = Vec::from_slice(alloc, lock)?;
    push_functions(alloc, &mut code, tables, lock.len() as u32, &plan.functions)?;
    Ok(code)
}

/// Links objects with the lock object, for threads that begin at the entries.
///
/// # Errors
///
/// The first of these: a name that is defined twice; a declaration whose name no object defines, or that differs from
/// the definition; a name in code that no function, or no global or lock, has; an entry that isn't a function `void
/// f(int)` that holds no lock; too many words, locks or instructions. `Memory` for want of memory.
pub fn link(
    alloc: Global,
    objects: &[Object],
    lock: &LockObject,
    entries: &[Name],
) -> Result<Image, LinkFault>
    requires few_units { length objects.now < 2 ^ 32 }
    requires few_functions { All (λ unit. length (functions_of unit) < 2 ^ 32) (decls_in objects.now) }
    requires whole { AreWhole (units_of objects.now) }
    requires threads { length entries.now ≤ 64 }
    ensures refused { IsRefusedBy result (link_refusal (length lock.now.code) objects.now entries.now) }
    ensures image { IfOk result (λ image. IsImageOf objects.now lock.now.code entries.now image) }
{
    let object = lock.code.as_slice();
    let plan = planned(alloc, objects, object.len() as u64, entries)?;
    let tables = tables_of(alloc, &plan, object.len() as u32)?;
    let code = code_of(alloc, &plan, &tables, object)?;
    let words = words_of(alloc, &plan.globals)?;
    let constant = constants_of(alloc, plan.cells.as_slice())?;
    let guards = guards_of(alloc, plan.cells.as_slice())?;
    let locks = locks_of(alloc, plan.cells.as_slice())?;
    let entries = numbers_of(alloc, &tables.places, entries)?;
    Ok(Image {
        code: Seq::of(code),
        words: Seq::of(words),
        constant: Seq::of(constant),
        guards: Seq::of(guards),
        locks: Seq::of(locks),
        entries: Seq::of(entries),
    })
}

// The lines of a plan, with a lock object of so many instructions and for so many threads.
fn text_of(alloc: Global, plan: &Plan, lock: u32, threads: usize) -> Result<String, NoMemory>
    requires { lock + sizes_of (map (λ f. f.now) plan.now.functions.items) < 2 ^ 32 }
    ensures { IfOk result (λ text. string_bytes text
        ≡ data_lines plan.now.cells ++ function_lines lock (map (λ f. f.now) plan.now.functions.items)
        ++ threads_line threads) }
{
    let mut text = String::new(alloc);
    put_data(alloc, plan.cells.as_slice(), &mut text)?;
    put_functions(alloc, lock, &plan.functions, &mut text)?;
    put_threads(alloc, threads, &mut text)?;
    Ok(text)
}

/// The map of linked objects: a line `data NAME ADDRESS WORDS` for each global and lock, `function NAME PLACE LENGTH`
/// for each function, and `threads N`. Addresses are in bytes, places and lengths in instructions.
///
/// # Errors
///
/// Those of `link`.
pub fn link_map(
    alloc: Global,
    objects: &[Object],
    lock: &LockObject,
    entries: &[Name],
) -> Result<String, LinkFault>
    requires few_units { length objects.now < 2 ^ 32 }
    requires few_functions { All (λ unit. length (functions_of unit) < 2 ^ 32) (decls_in objects.now) }
    ensures refused { IsRefusedBy result (link_refusal (length lock.now.code) objects.now entries.now) }
    ensures text { IfOk result (λ text. string_bytes text
        ≡ map_text (length lock.now.code) objects.now (length entries.now)) }
{
    let size = lock.code.as_slice().len();
    let plan = planned(alloc, objects, size as u64, entries)?;
    Ok(text_of(alloc, &plan, size as u32, entries.len())?)
}
