//! A stored run of the programs on the machine: command lines of fixed words, one after the other.
//! It prints each line, what the program writes to standard output for it, its status, and what it
//! writes to the error stream. At the end it runs `vcdkit` on its own arguments and its own
//! standard error, and prints how much was written there.
#![tactic(auto)]

use std::alloc::{AllocError, Global};
use std::io::Write;
use std::{fs, io};
use vcd_program::{Program, Vcdkit, run_on_machine, run_words_on_machine};
use vcd_text::Watch;
use vcdkit_compare::VcdkitCompare;
use vcdkit_strobe::VcdkitStrobe;

/// The command lines of `vcdkit`, without its name.
const LINES: [&str; 13] = [
    "list",
    "check -i a.vcd",
    "list b.vcd",
    "cut --from 2 b.vcd",
    "merge long.vcd a.vcd",
    "check -i bad.vcd",
    "check -i none.vcd",
    "merge a.vcd none.vcd",
    "cut --from 5 --to 4 -i a.vcd",
    "chekc",
    "merge a.vcd -o b.vcd",
    "--version",
    "check --help",
];

/// The command lines of `vcdkit-compare`, without its name.
const COMPARED: [&str; 6] = [
    "--first --x-of-b -i two.vcd in1=in2",
    "--from 1 --to 6 --except in1.b -i two.vcd in1=in2",
    "--always --x-of-a -i two.vcd in1=in2",
    "--from 10 -i two.vcd in1=in2",
    "-i two.vcd in1=in3",
    "-i none.vcd in1=in2",
];

/// The command lines of `vcdkit-strobe`, without its name.
const STROBED: [&str; 7] = [
    "--rise in1.b@0 --fall in2.a -i two.vcd in1.b in2",
    "--rise in1.a -i two.vcd in1",
    "--rise in1.b -i two.vcd",
    "--fall in1.a -i two.vcd in3",
    "-i two.vcd in1",
    "--rise bad -i bad.vcd",
    "--rise a -i none.vcd",
];

/// Returns the words of a command line, the program's name first.
fn words_of(alloc: Global, name: &str, line: &str) -> Result<Vec<String>, AllocError> {
    let mut words = Vec::new(alloc);
    words.push(String::from_str(alloc, name)?)?;
    for word in line.split_whitespace() {
        words.push(String::from_str(alloc, word)?)?;
    }
    Ok(words)
}

/// Runs the program of this name on a command line, and prints what it writes to standard output,
/// its status, and what it writes to the error stream.
fn run_line<P: Program>(rt: &HostRuntime, name: &str, line: &str) -> io::Result<()> {
    let words = words_of(rt.alloc(), name, line)?;
    let mut said = Watch::new(Vec::new(rt.alloc()));
    let status = run_words_on_machine::<P, _>(rt, words.as_slice(), &mut said);
    println!(rt; "status {status}")?;
    rt.stdout().write_all(said.device.as_slice())
}

/// Returns the number after this name among the counts, or 0 if there is none.
fn count_of(counts: &str, name: &str) -> u64 {
    let mut words = counts.split_whitespace().skip_while(|word| *word != name);
    words.nth(1).and_then(|word| word.parse().ok()).unwrap_or(0)
}

/// Returns how many bytes this process has written so far, and in how many writes, as the system
/// counts them.
fn written(rt: &HostRuntime) -> io::Result<(u64, u64)> {
    let counts = fs::read_to_string(rt, "/proc/self/io")?;
    Ok((count_of(&counts, "wchar:"), count_of(&counts, "syscw:")))
}

/// Runs the program on the arguments and the streams of this process, and prints its status, and
/// how many bytes were written meanwhile, and in how many writes. All that does not come to
/// standard output is a message on standard error.
fn run_arguments(rt: &HostRuntime) -> io::Result<()> {
    println!(rt; "$ (arguments)")?;
    let before = written(rt)?;
    let status = run_on_machine::<Vcdkit>(rt);
    let after = written(rt)?;
    let bytes = after.0.saturating_sub(before.0);
    let writes = after.1.saturating_sub(before.1);
    println!(rt; "status {status}, bytes {bytes}, writes {writes}")
}

fn main(rt: HostRuntime) -> io::Result<()> {
    for line in LINES {
        println!(rt; "$ {line}")?;
        run_line::<Vcdkit>(&rt, "vcdkit", line)?;
    }
    for line in COMPARED {
        println!(rt; "$ vcdkit-compare {line}")?;
        run_line::<VcdkitCompare>(&rt, "vcdkit-compare", line)?;
    }
    for line in STROBED {
        println!(rt; "$ vcdkit-strobe {line}")?;
        run_line::<VcdkitStrobe>(&rt, "vcdkit-strobe", line)?;
    }
    run_arguments(&rt)
}
