//! The program: its words, its files and its streams are handed to the top call, whose status it ends with.
#![tactic(auto)]

use cas_base::Text;
use cas_outside::{FileShelf, OpenGate, StdSink};
use cas_top::cascc;
use std::env;
use std::env::Env;
use std::io::{self, ErrorKind};
use std::process::ExitCode;

// The status where there is no memory to collect the words. No line is put then.
const OUT_OF_MEMORY: u8 = 9;

// The words after the program's name. A word that isn't UTF-8 is an error of kind `InvalidData`.
fn words<R: Env + AllocGlobal>(rt: &R) -> io::Result<Vec<Text>> {
    let mut words = Vec::new(rt.alloc());
    for word in env::args(rt)?.skip(1) {
        words.push(Text::of(word))?;
    }
    Ok(words)
}

fn main(rt: HostRuntime) -> ExitCode {
    let alloc = rt.alloc();
    let mut shelf = FileShelf::new(&rt, alloc);
    let mut out = StdSink::new(alloc, rt.stdout());
    let mut err = StdSink::new(alloc, rt.stderr());
    let words = match words(&rt) {
        Ok(words) => words,
        Err(error) => {
            if error.kind() == ErrorKind::OutOfMemory {
                return ExitCode::from(OUT_OF_MEMORY);
            }
            // where a word isn't UTF-8 no words are handed over, and these are no command
            Vec::new(alloc)
        }
    };
    let status = cascc(
        &rt,
        alloc,
        words.as_slice(),
        &mut shelf,
        &mut out,
        &mut err,
        &OpenGate,
    );
    ExitCode::from(status)
}
