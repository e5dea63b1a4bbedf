//! Prints how many variables the dump on standard input declares. It is a caller of `vcd_head`, and
//! of `vcd_text` below it.
//!
//! `variables` lends a feed its memory, reads the header, and looks at its view. Its contract is
//! over every reader whose bytes are known; standard input is read by the same code, but no
//! contract says what it returns.
#![tactic(auto)]

ghost use Rattle.std.specs.Prelude.{◌≡◌, ◌-◌, ◌^◌, ◌<◌, List, ℕ, IfOk, Some, length, count_by};
ghost use Rattle.vcd_head.specs.Views.{IsViewOf};
ghost use Rattle.vcd_head.specs.Model.Declarations.{variables_of};
ghost use Rattle.vcd_head.specs.Model.Header.{Header};
ghost use Rattle.example_head.specs.Variables.{HasVariables, is_variable};

use std::alloc::Global;
use std::process::ExitCode;
use vcd_head::{HeadFault, HeadView, Kind, Row, read_head};
use vcd_text::{Feed, Source, Watch, text_of};

/// How many bytes a token may have.
const LIMIT: usize = 65_536;

/// How many declarations `read_head` may read.
const MAX_DECLARATIONS: u64 = 16_777_216;

/// Returns how many of these rows declare a variable.
fn variable_rows(rows: &[Row]) -> usize
    ensures { result ≡ count_by (λ r. is_variable r.kind) rows.now }
{
    let mut variables = 0;
    for row in rows {
        if matches!(row.kind, Kind::Var) {
            variables += 1;
        }
    }
    variables
}

/// Returns how many variables a header declares.
fn variables_in(view: HeadView<'_>) -> usize
    ensures { (h : Header) → IsViewOf view.entry h → result ≡ length (variables_of h.declarations) }
{
    variable_rows(view.rows)
}

/// Reads the header that a reader begins with, and returns how many variables it declares. Fails
/// with the fault of the header.
fn variables<S: Source>(alloc: Global, reader: &mut S) -> Result<usize, HeadFault>
    requires failures { S.failures reader.old < 2 ^ 64 - 1 }
    ensures reads { (text : List ℕ) → S.rest reader.old ≡ Some text
        → IfOk result (HasVariables text) }
{
    let mut chunk = vec![in alloc; 0u8; LIMIT]?;
    let mut token = vec![in alloc; 0u8; LIMIT]?;
    let mut value = vec![in alloc; 0u8; LIMIT]?;
    let mut feed = Feed::new(reader, &mut chunk, &mut token, &mut value);
    let head = read_head(alloc, &mut feed, MAX_DECLARATIONS)?;
    Ok(variables_in(head.view()))
}

fn main(rt: HostRuntime) -> ExitCode {
    let written = match variables(rt.alloc(), &mut Watch::new(rt.stdin())) {
        Ok(number) => println!(rt; "{number}"),
        Err(fault) => println!(rt; "{}", text_of(fault.number())),
    };
    ExitCode::from(u8::from(written.is_err()))
}
