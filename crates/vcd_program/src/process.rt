//! Any process, and how its files and its standard input are opened and read.
ghost use Rattle.std.specs.Prelude.{◌≡◌, ℕ, Bool, List, Option, map, IfErr, IfOk, Result, string_bytes};
ghost use Rattle.vcd_program.specs.Process.{bytes_left, Error, GivesAtMost, OpensOn, read_as, UseFault};
ghost use Rattle.vcd_program.specs.Names.{failed_calls};

use std::alloc::Global;
use std::hash::BuildHasher;
use std::io;
use std::io::{ErrorKind, Read};
use vcd_host::{Host, OpenFault};
use vcd_text::{Source, Watch};
use vcd_words::UseFault;
use vcdkit::Again;

/// What a process has besides its output and its error stream. The program is proved over any
/// process.
pub trait Process {
    /// A file that is open.
    type File: Read + Drop;

    /// Standard input.
    type Input: Read + Drop;

    /// A hasher that is made from random numbers.
    type Seed: BuildHasher + Drop;

    // Which arguments `words` may return.
    ghost words: { Self → List (List ℕ) → Type 0 };

    // Why `words` may return none.
    ghost refuses: { Self → UseFault → Type 0 };

    // What `open` may return for this name, and what it leaves of the process. It says what was
    // opened, since nothing else can change a process.
    ghost opens: { Self → List ℕ → Result Self.File Error → Self → Type 0 };

    // What `input` may return, and what it leaves of the process. Like `opens`, it says that it was
    // called, and how often.
    ghost gives: { Self → Self.Input → Self → Type 0 };

    // What `seed` may return.
    ghost seeds: { Self → Option Self.Seed → Type 0 };

    /// Returns the arguments, the program's name first. Fails if one of them is not UTF-8, or if
    /// memory runs out.
    fn words(&self, alloc: Global) -> Result<Vec<String>, UseFault<'static>>
        ensures words { IfOk result (λ given. words self.now (map string_bytes given.items)) }
        ensures refuses { IfErr result (λ fault. refuses self.now fault) };

    /// Opens the file of this name for reading, and returns it. Fails if it cannot be opened.
    fn open(&mut self, name: &str) -> io::Result<Self::File>
        ensures { opens self.old name.now result self.new };

    /// Returns standard input.
    fn input(&mut self) -> Self::Input
        ensures { gives self.old result self.new };

    /// Returns a hasher that is made from random numbers. `None` if there are none.
    fn seed(&self) -> Option<Self::Seed>
        ensures { seeds self.now result };

    /// Returns a number of bytes that the reads of this file do not exceed; `None` if the process
    /// knows none.
    fn max_bytes_of_file(&self, file: &Self::File) -> Option<usize>
        ensures { GivesAtMost (Self.File.remaining file.now) result };

    /// Returns a number of bytes that the reads of standard input do not exceed; `None` if the
    /// process knows none.
    fn max_bytes_of_input(&self, input: &Self::Input) -> Option<usize>
        ensures { GivesAtMost (Self.Input.remaining input.now) result };
}

/// An input of a process with such files and such a standard input.
#[derive(Drop)]
pub enum Stream<F, I> {
    /// A file.
    File(Again<F>),
    /// Standard input.
    Input(Again<I>),
    /// An input of a process without random numbers: each read of it fails.
    Refused,
}

// Reads of a file or input whose bytes are known give these; each read of `Refused` fails.
impl<F: Read, I: Read> Read for Stream<F, I> {
    ghost remaining = { λ stream. bytes_left F.remaining I.remaining stream };

    /// Reads from the file or from standard input to the front of `into`, and returns how many
    /// bytes. Fails if that fails; each read of `Refused` does.
    fn read(&mut self, into: &mut [u8]) -> io::Result<usize> {
        match self {
            Stream::File(file) => file.read(into),
            Stream::Input(input) => input.read(into),
            Stream::Refused => Err(io::Error::from(ErrorKind::Unsupported)),
        }
    }
}

/// Opens the files of a process.
#[derive(Drop)]
pub(crate) struct ProcessHost<'p, P> {
    pub(crate) process: &'p mut P,
    /// Whether the process has random numbers. If it has none, each read of an input fails.
    pub(crate) is_seeded: bool,
}

impl<P: Process> ProcessHost<'_, P> {
    /// Returns this stream as a source that counts its failed reads, from 0. Without random
    /// numbers, it returns a source of which each read fails instead.
    fn input(&self, stream: Stream<P::File, P::Input>) -> Watch<Stream<P::File, P::Input>>
        ensures device { result.device ≡ read_as self.now.is_seeded stream }
        ensures failures { failed_calls result ≡ 0 }
    {
        if self.is_seeded {
            return Watch::new(stream);
        }
        Watch::new(Stream::Refused)
    }
}

impl<P: Process> Host for ProcessHost<'_, P> {
    type Input = Watch<Stream<P::File, P::Input>>;

    ghost opens = { λ old name result new. OpensOn P.opens P.gives old name result new };

    /// Has the process open the file of this name, or returns its standard input if `name` is
    /// `None`. Fails if the process cannot open it, or has no memory for it.
    fn open(&mut self, name: Option<&str>) -> Result<Watch<Stream<P::File, P::Input>>, OpenFault> {
        let Some(name) = name else {
            let input = self.process.input();
            return Ok(self.input(Stream::Input(Again::new(input))));
        };
        match self.process.open(name) {
            Ok(file) => Ok(self.input(Stream::File(Again::new(file)))),
            Err(error) if error.kind() == ErrorKind::OutOfMemory => Err(OpenFault::OutOfMemory),
            Err(_) => Err(OpenFault::Unopened),
        }
    }

    /// Returns a number of bytes that the reads of this input do not exceed; `None` if the process
    /// knows none.
    fn max_bytes_of(&self, input: &Watch<Stream<P::File, P::Input>>) -> Option<usize> {
        match &input.device {
            Stream::File(file) => self.process.max_bytes_of_file(&file.device),
            Stream::Input(input) => self.process.max_bytes_of_input(&input.device),
            Stream::Refused => None,
        }
    }
}
