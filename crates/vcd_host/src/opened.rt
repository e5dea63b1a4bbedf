//! Inputs that are opened one by one.
ghost use Rattle.std.specs.Prelude.{◌≡◌, ◌++◌, ◌∷◌, ◌≤◌, [], All, IfErr, IfOk, IfSome, OnOk, length, map, string_bytes};
ghost use Rattle.vcd_host.specs.Names.{AddsOne, called, Opens, OpensOne, OpenStop, StopsAmong, StopsAt, text_of};

use crate::host::{Host, OpenFault};
use std::alloc::{AllocError, Global};

/// What standard input is called.
const INPUT: &str = "(stdin)";

/// Returns what an input is called in a message: its name, or `(stdin)` if `name` is `None`.
pub fn called<'a>(name: Option<&'a str>) -> &'a str
    ensures { result.now ≡ called (text_of name.entry) }
{
    match name {
        Some(name) => name,
        None => INPUT,
    }
}

/// Inputs that are open, and what each is called.
#[derive(Drop)]
pub struct OpenInputs<I: Drop> {
    pub names: Vec<String>,
    pub readers: Vec<I>,
}

impl<I: Drop> OpenInputs<I> {
    /// Adds an open input to the list under this name; `None` is standard input. Fails if memory
    /// runs out; then no reader is added.
    fn push(&mut self, alloc: Global, name: Option<&str>, reader: I) -> Result<(), AllocError>
        ensures readers { OnOk result (self.new.readers.items
            ≡ self.old.readers.items ++ reader ∷ []) }
        ensures names { OnOk result (AddsOne name.entry self.old.names.items self.new.names.items) }
        ensures same { IfErr result (λ _. self.new.readers.items ≡ self.old.readers.items) }
    {
        self.names.push(String::from_str(alloc, called(name))?)?;
        Ok(self.readers.push(reader)?)
    }
}

/// Why inputs were not opened.
#[derive(Clone, Copy)]
pub enum OpenStop<'a> {
    /// The input of this name cannot be opened.
    Unopened(Option<&'a str>),
    /// Memory ran out.
    OutOfMemory,
}

impl<'a> From<AllocError> for OpenStop<'a> {
    ghost from_gives = { λ _ stop. stop ≡ OpenStop.OutOfMemory };

    /// Returns `OutOfMemory`.
    fn from(_error: AllocError) -> OpenStop<'a> {
        OpenStop::OutOfMemory
    }
}

/// Has the host open the input of this name, or standard input if `name` is `None`, and adds it to
/// `opened`. Fails if it cannot be opened, or if memory runs out; then no reader is added.
fn open_next<'a, H: Host>(
    alloc: Global,
    name: Option<&'a str>,
    host: &mut H,
    opened: &mut OpenInputs<H::Input>,
) -> Result<(), OpenStop<'a>>
    ensures opened { OnOk result (OpensOne H.opens H.Input.failures (text_of name.entry)
        host.old host.new opened.old.readers.items opened.new.readers.items) }
    ensures names { OnOk result (AddsOne name.entry opened.old.names.items opened.new.names.items) }
    ensures stop { IfErr result (StopsAt H.opens (text_of name.entry) host.old host.new) }
    ensures same { IfErr result (λ _. opened.new.readers.items ≡ opened.old.readers.items) }
{
    match host.open(name) {
        Ok(reader) => Ok(opened.push(alloc, name, reader)?),
        Err(OpenFault::OutOfMemory) => Err(OpenStop::OutOfMemory),
        Err(OpenFault::Unopened) => Err(OpenStop::Unopened(name)),
    }
}

/// Has the host open the inputs of these names in order, and returns them; `None` is standard
/// input. Fails at the first that cannot be opened, or if memory runs out.
pub fn open_inputs<'a, H: Host>(
    alloc: Global,
    asked: &[Option<&'a str>],
    host: &mut H,
) -> Result<OpenInputs<H::Input>, OpenStop<'a>>
    ensures opened { IfOk result (λ inputs.
        Opens H.opens host.old (map text_of asked.now) inputs.readers.items host.new) }
    ensures names { IfOk result (λ inputs.
        map string_bytes inputs.names.items ≡ map called (map text_of asked.now)) }
    ensures fresh { IfOk result (λ inputs. All (λ r. H.Input.failures r ≡ 0) inputs.readers.items) }
    ensures stop { IfErr result (StopsAmong H.opens (map text_of asked.now) host.old host.new) }
{
    let mut opened = OpenInputs {
        names: Vec::new(alloc),
        readers: Vec::new(alloc),
    };
    for name in asked {
        open_next(alloc, *name, host, &mut opened)?;
    }
    Ok(opened)
}

/// Returns a number of bytes that the reads of none of these inputs exceed. `None` if the host does
/// not know one for each.
pub fn max_bytes_of_all<H: Host>(host: &H, inputs: &[H::Input]) -> Option<usize>
    ensures { IfSome result (λ most.
        All (λ r. IfSome (H.Input.rest r) (λ text. length text ≤ most)) inputs.now) }
{
    let mut longest = 0;
    for input in inputs {
        let Some(bytes) = host.max_bytes_of(input) else {
            return None;
        };
        longest = longest.max(bytes);
    }
    Some(longest)
}
