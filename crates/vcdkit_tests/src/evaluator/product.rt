// What `run` of `vcdkit` ends with.
ghost use Rattle.std.specs.Prelude.{◌≡◌, ◌≤◌, IfOk, true};
ghost use Rattle.vcdkit.specs.Job.{is_asked};

use std::alloc::{AllocError, Global};
use vcd_evaluator::{Command, Left};
use vcd_text::Watch;
use vcd_text::doubles::Pieces;
use vcd_words::{Words, want_of};
use vcdkit::{Job, Want, run};

// The token limit of all runs. It is the smallest that is allowed, so that the windows are small.
pub(crate) const LIMIT: usize = 64;

// The words of a command.
fn words_of<'a>(command: Command<'a>) -> Words<'a, 'a> {
    match command {
        Command::Check => Words::Check,
        Command::List => Words::List,
        Command::Pick(names) => Words::Pick(names),
        Command::Cut { from, to } => Words::Cut(from, to),
        Command::Sample { times, names } => {
            Words::Sample(times, (!names.is_empty()).then_some(names))
        }
        Command::Edges(names) => Words::Edges((!names.is_empty()).then_some(names)),
        Command::Merge => Words::Merge(&[]),
    }
}

// What a command asks for; its words are good ones.
fn wanted(alloc: Global, command: Command<'_>) -> Result<Want, AllocError>
    ensures { IfOk result (λ want. is_asked want ≡ true) }
{
    match want_of(alloc, words_of(command)) {
        Ok(want) => Ok(want),
        Err(_) => Err(AllocError),
    }
}

// What a command over a text, read by chunks of this many bytes, ends with.
pub(crate) fn run_one(
    alloc: Global,
    command: Command<'_>,
    text: &[u8],
    chunk: usize,
) -> Result<Left, AllocError>
    requires { (1 ≤ chunk) × (chunk ≤ 65536) }
{
    let job = Job {
        task: wanted(alloc, command)?,
        limit: LIMIT,
        chunk,
    };
    let names = [String::from_str(alloc, "(stdin)")?];
    let mut readers = [Watch::new(Pieces::new(text, usize::MAX))];
    let mut out = Watch::new(Vec::new(alloc));
    let mut err = Watch::new(Vec::new(alloc));
    let status = run(
        alloc,
        job,
        names.as_slice(),
        readers.as_mut_slice(),
        &mut out,
        &mut err,
    );
    Ok(Left {
        output: out.device,
        message: err.device,
        status,
    })
}

// What a merge of two texts, read by chunks of this many bytes, ends with.
pub(crate) fn run_two(
    alloc: Global,
    first: &[u8],
    second: &[u8],
    chunk: usize,
) -> Result<Left, AllocError>
    requires { (1 ≤ chunk) × (chunk ≤ 65536) }
{
    let job = Job {
        task: Want::Merge,
        limit: LIMIT,
        chunk,
    };
    let names = [
        String::from_str(alloc, "a.vcd")?,
        String::from_str(alloc, "b.vcd")?,
    ];
    let mut readers = [
        Watch::new(Pieces::new(first, usize::MAX)),
        Watch::new(Pieces::new(second, usize::MAX)),
    ];
    let mut out = Watch::new(Vec::new(alloc));
    let mut err = Watch::new(Vec::new(alloc));
    let status = run(
        alloc,
        job,
        names.as_slice(),
        readers.as_mut_slice(),
        &mut out,
        &mut err,
    );
    Ok(Left {
        output: out.device,
        message: err.device,
        status,
    })
}
