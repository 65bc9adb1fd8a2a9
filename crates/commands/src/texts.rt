//! Where the texts that a command names come from.
ghost use Rattle.std.specs.Prelude.{◌≡◌, ◌⊎◌, ℕ, List, Option, Some, None, IfOk, IfErr, string_bytes};
ghost use Rattle.std.specs.Option.{option_map};
ghost use Rattle.commands.specs.Texts.{MayHold};
ghost use Rattle.commands.specs.declared.fault.Fault.TheVariants.{Unreadable, Memory};

use crate::fault::Fault;
use memory::{Heap, Starved};
use std::io::ErrorKind;
use std::rt::Files;
use std::{fs, io};

/// A source of texts.
pub trait Texts {
    // What stands at a path, where that is known.
    ghost held: { Self → List ℕ → Option (Option (List ℕ)) } = { λ _ _. None };

    /// The text at a path; none where it can't be read or is not UTF-8.
    fn text<A: Heap>(&mut self, alloc: A, path: &str) -> Result<Option<String<A>>, Starved>
        ensures is { IfOk result (λ text. MayHold (held self.old path.now) (option_map string_bytes text)) }
        ensures keeps { held self.new ≡ held self.old };

    /// Why nothing is read at a path, in the words of the system.
    fn reason<A: Heap>(&mut self, alloc: A, path: &str) -> Result<String<A>, Starved>
        ensures { held self.new ≡ held self.old };
}

/// The text at a path.
pub(crate) fn text_at<'a, A: Heap, T: Texts>(
    alloc: A,
    texts: &mut T,
    path: &'a str,
) -> Result<String<A>, Fault<'a>>
    ensures ok { IfOk result (λ s. MayHold (T.held texts.old path.entry.now) (Some (string_bytes s))) }
    ensures err { IfErr result (λ f. ((f ≡ Unreadable path.entry) × MayHold (T.held texts.old path.entry.now) None) ⊎ (f ≡ Memory)) }
    ensures keeps { T.held texts.new ≡ T.held texts.old }
{
    match texts.text(alloc, path) {
        Ok(Some(text)) => Ok(text),
        Ok(None) => Err(Fault::Unreadable(path)),
        Err(Starved) => Err(Fault::Memory),
    }
}

/// The files that the program can reach.
#[derive(Drop)]
pub struct Disk<'a, R> {
    runtime: &'a R,
}

impl<'a, R: Files> Disk<'a, R> {
    /// Those that this runtime opens.
    pub fn new(runtime: &'a R) -> Disk<'a, R> {
        Disk { runtime }
    }
}

impl<R: Files> Texts for Disk<'_, R> {
    fn text<A: Heap>(&mut self, alloc: A, path: &str) -> Result<Option<String<A>>, Starved> {
        match read_file(alloc, self.runtime, path) {
            Ok(text) => Ok(Some(text)),
            Err(error) => match error.kind() {
                ErrorKind::OutOfMemory => Err(Starved),
                _ => Ok(None),
            },
        }
    }

    fn reason<A: Heap>(&mut self, alloc: A, path: &str) -> Result<String<A>, Starved> {
        match read_file(alloc, self.runtime, path) {
            Ok(_) => Ok(String::from_str(alloc, "it could not be read, and can be now")?),
            Err(error) => Ok(format!(in alloc; "{error}")?),
        }
    }
}

// The text of a file, whole; bytes that are not UTF-8 are a fault.
fn read_file<A: Heap, R: Files>(alloc: A, runtime: &R, path: &str) -> io::Result<String<A>> {
    io::read_to_string(alloc, fs::open(runtime, path)?)
}
