//! A whole run: headers, then the body, then what the command writes.
use crate::body_reader::read_body;
use crate::command::{Command, Input, Left};
use crate::cut::put_cut;
use crate::edges::put_edges;
use crate::header::Header;
use crate::header_reader::read_header;
use crate::item::{Body, Item};
use crate::item_text::ItemText;
use crate::merge::merge;
use crate::moment::{Moment, moments_of, times_of};
use crate::pick::put_pick;
use crate::reader::Reader;
use crate::refusal::{Refusal, left_with, refused};
use crate::report::{put_list, put_report};
use crate::sample::put_sample;
use crate::stop::Stop;
use crate::text::Text;
use crate::variables::{Placed, first_unmatched, selected};
use std::alloc::{AllocError, Global};

// How many declarations all inputs may have together.
const MAX_DECLARATIONS: usize = 16_777_216;

// An input with a good header, as it was read.
#[derive(Drop)]
pub(crate) struct Opened<'t> {
    pub(crate) name: &'t str,
    pub(crate) header: Header<'t>,
    pub(crate) body: Body<'t>,
}

// What a command has read when it ends.
#[derive(Clone, Copy)]
pub(crate) struct Dump<'d, 't> {
    pub(crate) header: &'d Header<'t>,
    pub(crate) items: &'d [Item<'t>],
    // Whether the input was read to its end, without a fault.
    pub(crate) is_whole: bool,
}

// Returns an input, or the fault of its header.
fn open_input<'t>(
    alloc: Global,
    input: &Input<'t>,
    limit: usize,
    allowed: usize,
) -> Result<Opened<'t>, Stop> {
    let mut reader = Reader::new(alloc, input, limit)?;
    let header = read_header(alloc, &mut reader, allowed)?;
    let body = read_body(alloc, header.codes.as_slice(), &mut reader)?;
    Ok(Opened {
        name: input.name,
        header,
        body,
    })
}

// Returns an input, which may have at most `allowed` declarations.
fn open<'t>(
    alloc: Global,
    input: &Input<'t>,
    limit: usize,
    allowed: usize,
) -> Result<Opened<'t>, Refusal<'t>> {
    match open_input(alloc, input, limit, allowed) {
        Ok(opened) => Ok(opened),
        Err(Stop::At(fault)) => Err(Refusal::Fault(input.name, fault)),
        Err(Stop::NoMemory) => Err(Refusal::NoMemory),
    }
}

// Returns all inputs, or the fault of the first header that has one.
fn open_all<'t>(
    alloc: Global,
    inputs: &[Input<'t>],
    limit: usize,
) -> Result<Vec<Opened<'t>>, Refusal<'t>> {
    let mut all = Vec::new(alloc);
    let mut allowed = MAX_DECLARATIONS;
    for input in inputs {
        let opened = open(alloc, input, limit, allowed)?;
        allowed = allowed.saturating_sub(opened.header.declarations.len());
        all.push(opened)?;
    }
    Ok(all)
}

// Returns the time that no timestamp that is read may pass.
fn last_time(command: Command<'_>, times: &[u64]) -> u64 {
    match (command, times.last()) {
        (Command::Cut { .. } | Command::Sample { .. }, Some(time)) => *time,
        _ => u64::MAX,
    }
}

// Returns whether some timestamp is past this time. If so, the first such timestamp becomes the
// last item, and what comes after it does not count.
fn end_early(body: &mut Body<'_>, last: u64) -> bool {
    let is_past = |item: &Item<'_>| item.mark().is_some_and(|mark| last < mark);
    match body.items.iter().position(is_past) {
        Some(place) => {
            body.items.truncate(place.saturating_add(1));
            body.fault = None;
            true
        }
        None => false,
    }
}

// Writes what a command over one body writes.
fn put_command(
    lines: &mut ItemText,
    command: Command<'_>,
    dump: &Dump<'_, '_>,
    variables: &[Placed<'_>],
    times: &[u64],
) -> Result<(), AllocError> {
    match (command, times) {
        (Command::Check, _) => put_report(&mut lines.text, dump),
        (Command::Pick(_), _) => put_pick(lines, dump, variables)?,
        (Command::Cut { .. }, [from, to]) => put_cut(lines, dump, variables, (*from, *to))?,
        (Command::Sample { .. }, _) => put_sample(&mut lines.text, dump, variables, times),
        (Command::Edges(_), _) => put_edges(&mut lines.text, dump, variables),
        _ => {}
    }
    Ok(())
}

// Returns the outcome of a command over the body of an input.
fn run_body(
    alloc: Global,
    command: Command<'_>,
    opened: &mut Opened<'_>,
    variables: &[Placed<'_>],
    times: &[u64],
) -> Result<Left, AllocError> {
    let is_early = end_early(&mut opened.body, last_time(command, times));
    let fault = opened.body.fault;
    let dump = Dump {
        header: &opened.header,
        items: opened.body.items.as_slice(),
        is_whole: !is_early && fault.is_none(),
    };
    let mut lines = ItemText::new(alloc);
    put_command(&mut lines, command, &dump, variables, times)?;
    left_with(alloc, lines.text, opened.name, fault)
}

// Returns the outcome of a list of an input.
fn run_list(alloc: Global, header: &Header<'_>) -> Result<Left, AllocError> {
    let mut text = Text::new(alloc);
    let all = selected(alloc, header, &[])?;
    put_list(&mut text, header, all.as_slice());
    left_with(alloc, text, "", None)
}

// Returns the outcome of a command over one input whose times are good.
fn run_at<'t>(
    alloc: Global,
    command: Command<'t>,
    mut opened: Opened<'t>,
    times: &[u64],
) -> Result<Left, Refusal<'t>> {
    if let Some(name) = first_unmatched(alloc, &opened.header, command.names())? {
        return Err(Refusal::Unmatched(name));
    }
    if matches!(command, Command::List) {
        return Ok(run_list(alloc, &opened.header)?);
    }
    let variables = selected(alloc, &opened.header, command.names())?;
    let left = run_body(alloc, command, &mut opened, variables.as_slice(), times)?;
    Ok(left)
}

// Returns the outcome of a command over one input.
fn run_one<'t>(
    alloc: Global,
    command: Command<'t>,
    moments: &[Moment],
    opened: Opened<'t>,
) -> Result<Left, Refusal<'t>> {
    let scale = opened.header.scale;
    let times = times_of(alloc, command, moments, scale, opened.name)?;
    run_at(alloc, command, opened, times.as_slice())
}

// Returns the outcome of a run, or why it has no output.
fn run<'t>(
    alloc: Global,
    command: Command<'t>,
    limit: usize,
    inputs: &[Input<'t>],
) -> Result<Left, Refusal<'t>> {
    let moments = moments_of(alloc, command)?;
    let mut opened = open_all(alloc, inputs, limit)?;
    if matches!(command, Command::Merge) {
        return Ok(merge(alloc, opened.as_slice())?);
    }
    match opened.pop() {
        Some(one) => run_one(alloc, command, moments.as_slice(), one),
        None => Ok(left_with(alloc, Text::new(alloc), "", None)?),
    }
}

/// Returns the outcome of a command over these inputs, with this token limit: one input, or for
/// `merge` one or more.
pub fn evaluate(
    alloc: Global,
    command: Command<'_>,
    limit: usize,
    inputs: &[Input<'_>],
) -> Result<Left, AllocError> {
    match run(alloc, command, limit, inputs) {
        Ok(left) => Ok(left),
        Err(Refusal::NoMemory) => Err(AllocError),
        Err(refusal) => refused(alloc, Text::new(alloc), refusal),
    }
}
