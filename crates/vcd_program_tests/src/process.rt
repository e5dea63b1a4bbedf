// The program over a process in memory: what it opens, what it writes to each of its streams before
// the run ends, and the status.
ghost use Rattle.std.specs.Prelude.{⊤, ℕ, List, Option, Result};
ghost use Rattle.vcd_program.specs.Process.{Error, UseFault};

use super::command_lines::words_of;
use super::relied_on::run_relied_on;
use std::alloc::{AllocError, Global};
use std::cell::RefCell;
use std::hash::{BuildHasherDefault, FoldHasher};
use std::io;
use std::io::{ErrorKind, Write};
use vcd_host::Buffered;
use vcd_program::Process;
use vcd_words::UseFault;

const DUMP: &[u8] = b"$var wire 1 ! a $end $enddefinitions $end #1 1!\n";

const BAD: &[u8] = b"$var wire 1 ! bad $end\n$enddefinitions $end\n#1 1! #3 0!\n#x\n";

const INPUT: &[u8] = b"$var real 1 ! input $end $enddefinitions $end #4 r1 !\n";

// What a process lacks: nothing; arguments that are text; memory for its arguments, or for a file;
// random numbers; or room for its output.
#[derive(Clone, Copy, PartialEq, Eq)]
enum Lack {
    Nothing,
    Text,
    WordMemory,
    FileMemory,
    Seed,
    Room,
}

// Its files are a.vcd and bad.vcd. It notes the names of the files that it is to open.
#[derive(Drop)]
struct InMemory {
    words: &'static [&'static str],
    lack: Lack,
    opened: Vec<String>,
}

impl Process for InMemory {
    type File = &'static [u8];

    type Input = &'static [u8];

    type Seed = BuildHasherDefault<FoldHasher>;

    ghost words = { λ _ _. ⊤ };

    ghost refuses = { λ _ _. ⊤ };

    ghost opens = { λ _ _ _ _. ⊤ };

    ghost gives = { λ _ _ _. ⊤ };

    ghost seeds = { λ _ _. ⊤ };

    fn words(&self, alloc: Global) -> Result<Vec<String>, UseFault<'static>> {
        match self.lack {
            Lack::Text => Err(UseFault::BadWords),
            Lack::WordMemory => Err(UseFault::OutOfMemory),
            _ => Ok(words_of(alloc, self.words)?),
        }
    }

    fn open(&mut self, name: &str) -> io::Result<&'static [u8]> {
        let alloc = *self.opened.allocator();
        self.opened.push(String::from_str(alloc, name)?)?;
        if self.lack == Lack::FileMemory {
            return Err(io::Error::from(ErrorKind::OutOfMemory));
        }
        match name {
            "a.vcd" => Ok(DUMP),
            "bad.vcd" => Ok(BAD),
            _ => Err(io::Error::from(ErrorKind::NotFound)),
        }
    }

    fn input(&mut self) -> &'static [u8] {
        INPUT
    }

    fn seed(&self) -> Option<BuildHasherDefault<FoldHasher>> {
        if self.lack == Lack::Seed {
            return None;
        }
        Some(BuildHasherDefault::new())
    }

    fn max_bytes_of_file(&self, _file: &&'static [u8]) -> Option<usize> {
        None
    }

    fn max_bytes_of_input(&self, _input: &&'static [u8]) -> Option<usize> {
        None
    }
}

// Appends these bytes.
fn append(bytes: &RefCell<Vec<u8>>, more: &[u8]) -> io::Result<()> {
    let Ok(mut bytes) = bytes.try_borrow_mut() else {
        return Err(io::Error::from(ErrorKind::ResourceBusy));
    };
    Ok(bytes.extend_from_slice(more)?)
}

// A device that keeps the bytes that it is given, unless it has no room. It also appends them to
// those of both streams.
#[derive(Drop)]
struct Device<'a> {
    bytes: &'a RefCell<Vec<u8>>,
    both: &'a RefCell<Vec<u8>>,
    has_room: bool,
}

impl Write for Device<'_> {
    fn write(&mut self, from: &[u8]) -> io::Result<usize> {
        if !self.has_room {
            return Err(io::Error::from(ErrorKind::StorageFull));
        }
        append(self.bytes, from)?;
        append(self.both, from)?;
        Ok(from.len())
    }

    fn flush(&mut self) -> io::Result<()> {
        Ok(())
    }
}

// The arguments, what the process lacks, the files that are opened, what is on the output and on
// the error stream, and the status.
#[derive(Clone, Copy)]
struct Row {
    words: &'static [&'static str],
    lack: Lack,
    opened: &'static [&'static str],
    out: &'static [u8],
    message: &'static [u8],
    status: u8,
}

static ROWS: [Row; 13] = [
    Row {
        words: &["list"],
        lack: Lack::Nothing,
        opened: &[],
        out: b"input real 1 !\n",
        message: b"",
        status: 0,
    },
    Row {
        words: &["list", "a.vcd"],
        lack: Lack::Nothing,
        opened: &["a.vcd"],
        out: b"a wire 1 !\n",
        message: b"",
        status: 0,
    },
    Row {
        words: &["check", "bad.vcd"],
        lack: Lack::Nothing,
        opened: &["bad.vcd"],
        out: b"",
        message: b"vcdkit: bad.vcd:4: bad time\n",
        status: 1,
    },
    Row {
        words: &["pick", "-i", "bad.vcd", "bad"],
        lack: Lack::Nothing,
        opened: &["bad.vcd"],
        out: b"$var wire 1 ! bad $end\n$enddefinitions $end\n#1\n1!\n#3\n0!\n",
        message: b"vcdkit: bad.vcd:4: bad time\n",
        status: 1,
    },
    Row {
        words: &["pick", "-i", "a.vcd", "b"],
        lack: Lack::Nothing,
        opened: &["a.vcd"],
        out: b"",
        message: b"vcdkit: b: selects nothing\n",
        status: 1,
    },
    Row {
        words: &["merge", "a.vcd", "none.vcd", "a.vcd"],
        lack: Lack::Nothing,
        opened: &["a.vcd", "none.vcd"],
        out: b"",
        message: b"vcdkit: none.vcd: cannot be opened\n",
        status: 3,
    },
    Row {
        words: &["cut", "--from", "5", "--to", "4", "a.vcd"],
        lack: Lack::Nothing,
        opened: &[],
        out: b"",
        message: b"vcdkit: --from is above --to\n",
        status: 2,
    },
    Row {
        words: &["merge", "a.vcd", "-o", "b.vcd"],
        lack: Lack::Nothing,
        opened: &[],
        out: b"",
        message: b"error: unexpected argument '-o' found\n\n  \
            tip: to pass '-o' as a value, use '-- -o'\n\n\
            Usage: vcdkit merge [OPTIONS] FILE...\n\n\
            For more information, try '--help'.\n",
        status: 2,
    },
    Row {
        words: &["list"],
        lack: Lack::Text,
        opened: &[],
        out: b"",
        message: b"vcdkit: bad words\n",
        status: 2,
    },
    Row {
        words: &["list"],
        lack: Lack::WordMemory,
        opened: &[],
        out: b"",
        message: b"vcdkit: out of memory\n",
        status: 3,
    },
    Row {
        words: &["list", "a.vcd"],
        lack: Lack::FileMemory,
        opened: &["a.vcd"],
        out: b"",
        message: b"vcdkit: out of memory\n",
        status: 3,
    },
    Row {
        words: &["list", "a.vcd"],
        lack: Lack::Seed,
        opened: &["a.vcd"],
        out: b"",
        message: b"vcdkit: a.vcd: read failed\n",
        status: 3,
    },
    Row {
        words: &["list", "a.vcd"],
        lack: Lack::Room,
        opened: &["a.vcd"],
        out: b"",
        message: b"vcdkit: write failed\n",
        status: 3,
    },
];

// Whether these are the names.
fn are(opened: &[String], names: &[&str]) -> bool {
    opened.len() == names.len() && opened.iter().zip(names).all(|(a, b)| a.as_str() == *b)
}

// Whether these bytes were written, and these after them, and nothing else.
fn has(written: &RefCell<Vec<u8>>, first: &[u8], last: &[u8]) -> bool {
    written.try_borrow().is_ok_and(|bytes| {
        bytes.len() == first.len() + last.len() && bytes.starts_with(first) && bytes.ends_with(last)
    })
}

// Whether a run is as this row says, before its streams are dropped: the message comes after all
// output.
fn is_as(alloc: Global, row: &Row) -> Result<bool, AllocError> {
    let mut process = InMemory {
        words: row.words,
        lack: row.lack,
        opened: Vec::new(alloc),
    };
    let written = RefCell::new(Vec::new(alloc));
    let said = RefCell::new(Vec::new(alloc));
    let both = RefCell::new(Vec::new(alloc));
    let output = Device {
        bytes: &written,
        both: &both,
        has_room: row.lack != Lack::Room,
    };
    let messages = Device {
        bytes: &said,
        both: &both,
        has_room: true,
    };
    let mut out = Buffered::new(alloc, output)?;
    let mut err = Buffered::new(alloc, messages)?;
    let status = run_relied_on(alloc, &mut process, &mut out, &mut err);
    Ok(
        are(process.opened.as_slice(), row.opened)
            && has(&written, row.out, b"")
            && has(&said, row.message, b"")
            && has(&both, row.out, row.message)
            && status == row.status,
    )
}

#[test]
fn a_process_gets_its_files_and_its_streams(rt: HostRuntime) {
    for row in &ROWS {
        assert_eq!(rt; is_as(rt.alloc(), row), Ok(true), "of {:?}", row.words);
    }
}
