//! What the program has of the machine that runs it: the words of its command line, and files.
ghost use Rattle.std.specs.Prelude.{◌≡◌, Bool, ℕ, List, Option, None, Some, map, string_bytes};
ghost use Rattle.std.specs.Prelude.{IfErr, IfOk, IfSome, is_ok};
ghost use Rattle.dnsv_commands.specs.declared.command_line.CommandLineError.{CommandLineError};
ghost use Rattle.dnsv_commands.specs.declared.command_line.CommandLineError.TheVariants.{OutOfMemory};

use dnsv_commands::CommandLineError;
use std::alloc::Global;
use std::fs::File;
use std::io::Read;
use std::rt::{Env, Files};
use std::{env, io};

/// A machine that runs the program.
pub trait Machine {
    type File: Read + Drop;

    // The words of the command line, where the machine tells them.
    ghost given_words: { Self → Option (List (List ℕ)) } = { λ _. None };

    // The octets of the file at a path, where the machine tells them.
    ghost octets_at: { Self → List ℕ → Option (List ℕ) } = { λ _ _. None };

    // Whether a file at a path opens, where the machine tells it.
    ghost opens: { Self → List ℕ → Option Bool } = { λ _ _. None };

    /// Where memory is taken.
    fn alloc(&self) -> Global;

    /// The words of the command line, of which the first is the program's name.
    fn words(&self) -> Result<Vec<String>, CommandLineError>
        ensures told { IfOk result (λ said. IfSome (given_words self.now) (λ told.
            map string_bytes said.items ≡ told)) }
        ensures failed { IfErr result (λ error. IfSome (given_words self.now) (λ _. error ≡ OutOfMemory)) };

    /// Opens the file at the path.
    fn open(&self, path: &str) -> io::Result<Self::File>
        ensures opens { IfSome (opens self.now path.now) (λ opens. is_ok result ≡ opens) }
        ensures octets { IfOk result (λ file. IfSome (octets_at self.now path.now) (λ octets.
            Self.File.remaining file ≡ Some octets)) };
}

/// The machine by what its system gives. No contract tells what that is.
#[derive(Drop)]
pub struct Host<'a, R> {
    system: &'a R,
}

impl<'a, R> Host<'a, R> {
    /// The machine that the system is.
    pub fn new(system: &'a R) -> Host<'a, R> {
        Host { system }
    }
}

impl<R: Env + Files + AllocGlobal> Machine for Host<'_, R> {
    type File = R::File;

    fn alloc(&self) -> Global {
        self.system.alloc()
    }

    fn words(&self) -> Result<Vec<String>, CommandLineError> {
        Ok(env::args(self.system)?.collect(self.alloc())?)
    }

    fn open(&self, path: &str) -> io::Result<R::File> {
        File::open(self.system, path)
    }
}
