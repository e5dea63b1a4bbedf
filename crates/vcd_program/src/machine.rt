//! The process that the program runs in.
ghost use Rattle.std.specs.Prelude.{◌-◌, ◌^◌, ◌<◌, ◌≤◌, ⊤};

use crate::process::Process;
use crate::process_run::{run_process, run_words};
use crate::program::Program;
use std::alloc::Global;
use std::fs::{File, Metadata};
use std::hash::RandomState;
use std::io::{ErrorKind, IsTerminal, Stdin, Write};
use std::os::fd::AsRawFd;
use std::{env, fs, io};
use vcd_host::{Buffered, Prefetched};
use vcd_text::{Sink, Watch};
use vcd_words::UseFault;
use vcdkit::Again;

/// The longest file that is read when it is opened, so that the windows need not be longer than it.
const MAX_SHORT_FILE: u64 = 65_535;

/// Returns how many bytes to read when a file with this metadata is opened: one more than its
/// length, so that its end is seen. 0 if it is no regular file, if it is longer than
/// `MAX_SHORT_FILE`, or if its length is 0 or unknown: the system makes the bytes of some files of
/// length 0 while they are read.
fn prefetched_len(about: io::Result<Metadata>) -> usize {
    let Ok(about) = about else {
        return 0;
    };
    let len = about.len();
    if about.is_file() && 0 < len && len <= MAX_SHORT_FILE {
        return len as usize + 1;
    }
    0
}

/// Where the system shows what standard input is.
const STANDARD_INPUT: &str = "/proc/self/fd/0";

/// The process itself. No contract says which arguments, files, streams or random numbers a call
/// returns.
///
/// A short file is read when it is opened. The length that the system reports only decides whether
/// that is tried: if the file grows, it is read to its end like any other.
#[derive(Drop)]
struct OwnProcess<'r> {
    rt: &'r HostRuntime,
    /// What the error stream gets if an input comes from a terminal.
    waits: &'static [u8],
}

impl Process for OwnProcess<'_> {
    type File = Prefetched<File>;

    type Input = Prefetched<Stdin>;

    type Seed = RandomState;

    ghost words = { λ _ _. ⊤ };

    ghost refuses = { λ _ _. ⊤ };

    ghost opens = { λ _ _ _ _. ⊤ };

    ghost gives = { λ _ _ _. ⊤ };

    ghost seeds = { λ _ _. ⊤ };

    /// Returns the arguments, the program's name first. Fails if one of them is not UTF-8, or if
    /// memory runs out.
    fn words(&self, alloc: Global) -> Result<Vec<String>, UseFault<'static>> {
        let words = env::args(self.rt).map_err(|error| match error.kind() {
            ErrorKind::OutOfMemory => UseFault::OutOfMemory,
            _ => UseFault::BadWords,
        })?;
        Ok(words.collect(alloc)?)
    }

    /// Opens the file of this name, and returns it. Fails if it cannot be opened.
    fn open(&mut self, name: &str) -> io::Result<Prefetched<File>> {
        let file = File::open(self.rt, name)?;
        let len = prefetched_len(file.metadata());
        Ok(Prefetched::new(self.rt.alloc(), file, len))
    }

    /// Returns standard input. If it is a terminal, a line on the error stream says so, because
    /// nothing else shows that the program waits for an input.
    fn input(&mut self) -> Prefetched<Stdin> {
        let input = self.rt.stdin();
        if input.is_terminal() {
            let _ = self.rt.stderr().write(self.waits);
        }
        let len = prefetched_len(fs::metadata(self.rt, STANDARD_INPUT));
        Prefetched::new(self.rt.alloc(), input, len)
    }

    /// Returns a hasher that is made from random numbers of the system. `None` if it has none.
    fn seed(&self) -> Option<RandomState> {
        RandomState::new(self.rt).ok()
    }

    /// Returns the length of a file whose end was seen when it was opened; `None` for any other.
    fn max_bytes_of_file(&self, file: &Prefetched<File>) -> Option<usize> {
        file.len()
    }

    /// Returns the length of standard input if its end was seen when it was opened; otherwise
    /// `None`.
    fn max_bytes_of_input(&self, input: &Prefetched<Stdin>) -> Option<usize> {
        input.len()
    }
}

/// Runs a program with these arguments, its own name first among them, over the files, the
/// standard input and the standard output of the process, and returns the exit status, as
/// `run_program` does. Messages go to `err`.
pub fn run_words_on_machine<P: Program, E: Sink>(
    rt: &HostRuntime,
    words: &[String],
    err: &mut E,
) -> u8
    requires { (E.device err.old).failures < 2 ^ 64 - 2 }
    ensures { result ≤ 3 }
{
    let mut process = OwnProcess {
        rt,
        waits: P::waiting(),
    };
    match Buffered::new(rt.alloc(), Again::new(rt.stdout())) {
        Ok(mut out) => run_words::<P, _, _, _>(rt.alloc(), &mut process, words, &mut out, err),
        Err(_) => P::use_fault(UseFault::OutOfMemory, err),
    }
}

/// The highest descriptor of a standard stream.
const MAX_STANDARD: i32 = 2;

/// Opens the directory `/`, and returns it if it got the descriptor of a standard stream, which was
/// closed then. `None` if all standard streams are open, or if the directory cannot be opened.
/// Reads and writes of a directory fail, as they do on a closed stream.
fn stand_in(rt: &HostRuntime) -> Option<File> {
    let directory = File::open(rt, "/").ok()?;
    if directory.as_raw_fd() <= MAX_STANDARD {
        return Some(directory);
    }
    None
}

/// Runs a program with the arguments, the files and the streams of the process, and returns the
/// exit status, as `run_process` does.
///
/// A message waits in a buffer and is written at the end. If it has at most 8,192 bytes, it is one
/// write, so that the messages of programs that share a standard error do not mix. The message that
/// there is no memory for this buffer or for that of the output is written in pieces.
///
/// The system gives a file that is opened the lowest free descriptor. If a standard stream is
/// closed, that is its descriptor, so a directory is open there until the end (`stand_in`).
pub fn run_on_machine<P: Program>(rt: &HostRuntime) -> u8
    ensures { result ≤ 3 }
{
    let _stand_ins = [stand_in(rt), stand_in(rt), stand_in(rt)];
    let mut process = OwnProcess {
        rt,
        waits: P::waiting(),
    };
    let (Ok(mut out), Ok(mut err)) = (
        Buffered::new(rt.alloc(), Again::new(rt.stdout())),
        Buffered::new(rt.alloc(), Again::new(rt.stderr())),
    ) else {
        return P::use_fault(
            UseFault::OutOfMemory,
            &mut Watch::new(Again::new(rt.stderr())),
        );
    };
    run_process::<P, _, _, _>(rt.alloc(), &mut process, &mut out, &mut err)
}
