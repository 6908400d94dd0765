//! Commands, and the texts that they read.

ghost use Rattle.std.specs.Prelude.{◌≡◌};
ghost use Rattle.cas_command.specs.Words.{source_text};
ghost use Rattle.cas_command.specs.View.{wanted_view};

/// The most bytes that a module's or a lock's text has.
pub(crate) const SOURCE_LIMIT: u64 = 1_048_576;

/// A text that a command reads: its name, and how many bytes it has at most.
#[derive(Clone, Copy)]
pub struct Wanted<'a> {
    /// The name under which a shelf has it.
    pub name: &'a str,
    /// In bytes.
    pub limit: u64,
}

/// The text of a module or a lock.
pub fn source_text(name: &str) -> Wanted<'_>
    ensures { wanted_view result ≡ source_text name.now }
{
    Wanted {
        name,
        limit: SOURCE_LIMIT,
    }
}

/// What `run` is given: the names of the module's text and of the lock's text, and the thread's function.
#[derive(Clone, Copy)]
pub struct Run<'a> {
    /// The name of the module's text.
    pub source: &'a str,
    /// The name of the lock's text.
    pub lock: &'a str,
    /// The function at which the thread begins.
    pub thread: &'a str,
}

/// An item of a schedule: the number of a thread, from 0, and how many turns it has there, one or more.
#[derive(Clone, Copy)]
pub struct Item {
    /// The thread's number, from 0.
    pub thread: u32,
    /// Its turns there, one or more.
    pub count: u32,
}

/// The turns that `world` makes.
#[derive(Drop)]
pub enum Turns {
    /// Those of these items, one after another: at most 10,000,000 in all.
    Schedule(Vec<Item>),
    /// At most so many rounds over all threads.
    Rounds(u32),
}

/// What `world` is given: the names of the modules' texts, the function of each thread, and the turns.
#[derive(Drop)]
pub struct World<'a> {
    /// The names of the modules' texts, in order.
    pub names: Vec<&'a str>,
    /// The function at which each thread begins, in order of their numbers.
    pub threads: Vec<&'a str>,
    /// The turns that the threads take.
    pub turns: Turns,
}

/// A command. It borrows from its words.
#[derive(Drop)]
pub enum Command<'a> {
    /// Compile a module of the first form, and run it on one thread.
    Run(Run<'a>),
    /// Check the modules of these names.
    Check(Vec<&'a str>),
    /// Join modules to a program, and let its threads take turns.
    World(World<'a>),
}
