//! A host in memory: files by name and standard input, as bytes.
ghost use Rattle.std.specs.Prelude.{◌≡◌, IfOk, IfSome, OnOk, map, option_map, string_bytes, Some, ◌++◌, ◌∷◌, []};
ghost use Rattle.vcd_program.specs.Names.{bytes_in, bytes_named, end_of, IsLeftAs, IsLeftBy, IsLeftIn, noted, OpensIn, text_of, written};

use crate::command_line::run_program;
use crate::program::Program;
use std::alloc::{AllocError, Global};
use std::hash::{BuildHasher, BuildHasherDefault, FoldHasher};
use vcd_host::{Host, LentOutput, OpenFault};
use vcd_text::{Bytes, Sink, Watch};

/// A file in memory.
#[repr(C)]
#[derive(Clone, Copy, PartialEq, Eq, Debug)]
pub struct MemoryFile<'a> {
    /// The name of the file.
    pub name: &'a [u8],
    /// The bytes of the file.
    pub bytes: &'a [u8],
}

/// Files in memory and standard input. It notes what is opened.
#[derive(Drop)]
pub struct Memory<'a> {
    /// The files. Of two with one name the first counts.
    pub files: &'a [MemoryFile<'a>],
    /// The bytes of standard input.
    pub input: &'a [u8],
    /// What was opened or tried, in order: the names of files, and `None` for standard input.
    pub opened: Vec<Option<String>>,
}

/// Returns a copy of this name, or `None` for `None`. Fails if memory runs out.
fn copied(alloc: Global, name: Option<&str>) -> Result<Option<String>, AllocError>
    ensures { IfOk result (λ copy. option_map string_bytes copy ≡ text_of name.entry) }
{
    match name {
        Some(name) => Ok(Some(String::from_str(alloc, name)?)),
        None => Ok(None),
    }
}

/// Returns the bytes of the first of these files with this name; `None` if no file has it.
fn bytes_named<'a>(files: &[MemoryFile<'a>], name: &str) -> Option<&'a [u8]>
    ensures { text_of result ≡ bytes_named files.now name.now }
{
    for file in files {
        if file.name == name.as_bytes() {
            return Some(file.bytes);
        }
    }
    None
}

impl<'a> Memory<'a> {
    /// Adds this name to the list of inputs that were opened or tried; `None` is standard input.
    /// Fails if memory runs out.
    fn note(&mut self, name: Option<&str>) -> Result<(), AllocError>
        ensures files { self.new.files ≡ self.old.files }
        ensures input { self.new.input ≡ self.old.input }
        ensures noted { OnOk result (noted self.new ≡ noted self.old ++ text_of name.entry ∷ []) }
    {
        let alloc = *self.opened.allocator();
        Ok(self.opened.push(copied(alloc, name)?)?)
    }

    /// Returns the bytes of the first file with this name, or those of standard input if `name` is
    /// `None`. `None` if no file has the name.
    fn bytes_of(&self, name: Option<&str>) -> Option<&'a [u8]>
        ensures { text_of result ≡ bytes_in self.now (text_of name.entry) }
    {
        match name {
            Some(name) => bytes_named(self.files, name),
            None => Some(self.input),
        }
    }
}

impl<'a> Host for Memory<'a> {
    type Input = Bytes<'a>;

    ghost opens = { λ old name result new. OpensIn old name result new };

    /// Returns the bytes of the first file of this name, or those of standard input if `name` is
    /// `None`, and notes the name. Fails if no file has it, or if memory runs out.
    fn open(&mut self, name: Option<&str>) -> Result<Bytes<'a>, OpenFault> {
        if self.note(name).is_err() {
            return Err(OpenFault::OutOfMemory);
        }
        match self.bytes_of(name) {
            Some(rest) => Ok(Bytes { rest }),
            None => Err(OpenFault::Unopened),
        }
    }

    /// Returns how many bytes of this input are left. It never returns `None`.
    fn max_bytes_of(&self, input: &Bytes<'a>) -> Option<usize> {
        Some(input.rest.len())
    }
}

/// What a program left.
#[derive(Drop)]
pub struct Left {
    /// What was opened or tried, in order: the names of files, and `None` for standard input.
    pub opened: Vec<Option<String>>,
    /// The bytes on standard output.
    pub output: Vec<u8>,
    /// The bytes on the error stream.
    pub message: Vec<u8>,
    /// The exit status.
    pub status: u8,
}

/// Runs a program with these arguments, its own name first among them, over files in memory, and
/// returns its output, its message, its status, and which inputs it opened or tried to open. Of two
/// files with one name the first counts; `input` is standard input.
///
/// Fails if memory for the output or the message runs out. If any other memory runs out, the status
/// is 3, as `run_program` says.
///
/// Codes are hashed with numbers that everybody may know, so codes can be crafted that take long to
/// find. Use `run_into_memory` for dumps that are not trusted.
pub fn run_in_memory<P: Program>(
    alloc: Global,
    words: &[String],
    files: &[MemoryFile<'_>],
    input: &[u8],
) -> Result<Left, AllocError>
    ensures { IfOk result (λ left. IsLeftBy P.Program
        (map string_bytes words.now) files.now input.now (end_of left)) }
{
    let hasher: BuildHasherDefault<FoldHasher> = BuildHasherDefault::new();
    let mut memory = Memory {
        files,
        input,
        opened: Vec::new(alloc),
    };
    let mut out = Watch::new(Vec::new(alloc));
    let mut err = Watch::new(Vec::new(alloc));
    let status = run_program::<P, _, _, _, _>(
        alloc,
        words,
        &mut memory,
        &mut out,
        &mut err,
        &hasher,
    );
    if out.failures() > 0 || err.failures() > 0 {
        return Err(AllocError);
    }
    Ok(Left {
        opened: memory.opened,
        output: out.device,
        message: err.device,
        status,
    })
}

/// What a program left, if its output and its message went into bytes that were lent.
#[derive(Clone, Copy, PartialEq, Eq, Debug)]
pub struct Filled {
    /// How many bytes the output has, even if there was room for fewer.
    pub output: u64,
    /// How many bytes the message has, even if there was room for fewer.
    pub message: u64,
    /// The exit status.
    pub status: u8,
}

/// Runs the program with these arguments, its own name first among them, over the files and the
/// standard input in `memory`, and returns its exit status. Output goes to `out`, and messages go
/// to `err`. Before the call, no input may have been opened from `memory`, and nothing written to
/// `out` or `err`. Codes are hashed with numbers that `hasher` returns.
fn run_into_lent<P: Program, B: BuildHasher>(
    alloc: Global,
    words: &[String],
    memory: &mut Memory<'_>,
    out: &mut LentOutput<'_>,
    err: &mut LentOutput<'_>,
    hasher: &B,
) -> u8
    requires memory { noted memory.old ≡ [] }
    requires out { written out.old ≡ [] }
    requires err { written err.old ≡ [] }
    ensures out_loan { out.new.bytes.ghost_name ≡ out.old.bytes.ghost_name }
    ensures err_loan { err.new.bytes.ghost_name ≡ err.old.bytes.ghost_name }
    ensures left { IsLeftAs P.Program (map string_bytes words.now) memory.old.files.now memory.old.input.now
        (written out.new) (written err.new) result }
{
    run_program::<P, _, _, _, _>(alloc, words, memory, out, err, hasher)
}

/// Runs the program with these arguments, its own name first among them, over files in memory, and
/// returns its status and the lengths of output and message. The output is written to `out` and the
/// message to `err`, from the first byte on, as far as there is room; the bytes after them may get
/// any values. `None` if 2^63 bytes or more of one of them found no room.
///
/// `input` is standard input. Identifier codes are hashed with numbers that the hasher returns;
/// what is written does not depend on them.
pub fn run_into_memory<P: Program, B: BuildHasher>(
    alloc: Global,
    words: &[String],
    files: &[MemoryFile<'_>],
    input: &[u8],
    out: &mut [u8],
    err: &mut [u8],
    hasher: &B,
) -> Option<Filled>
    ensures { IfSome result (λ filled. IsLeftIn P.Program (map string_bytes words.now) files.now input.now
        out.new filled.output err.new filled.message filled.status) }
{
    let mut memory = Memory {
        files,
        input,
        opened: Vec::new(alloc),
    };
    let mut out = LentOutput::new(out);
    let mut err = LentOutput::new(err);
    let status = run_into_lent::<P, _>(alloc, words, &mut memory, &mut out, &mut err, hasher);
    let output = out.len()?;
    let message = err.len()?;
    Some(Filled {
        output,
        message,
        status,
    })
}
