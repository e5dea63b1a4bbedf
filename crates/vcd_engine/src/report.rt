//! The report of `check`: seven lines.
ghost use Rattle.std.specs.Prelude.{◌≡◌, ◌++◌, ◌-◌, ◌^◌, ◌<◌, decimal, flat_map, codes, count_by};
ghost use Rattle.vcd_engine.specs.Names.{count_line, declares_variable, named_line, number_or_dash, opens_scope, Puts, PutsTo};

use vcd_text::{Sink, WriteFailed, put, put_number};
use vcd_view::{Kind, Row};

/// How many scopes and variables a header declares.
#[derive(Clone, Copy)]
pub(crate) struct Declared {
    pub(crate) scopes: usize,
    pub(crate) variables: usize,
}

/// Returns how many scopes and variables these rows declare.
pub(crate) fn declared_in(rows: &[Row]) -> Declared
    ensures scopes { result.scopes ≡ count_by (λ r. opens_scope r.kind) rows.now }
    ensures variables { result.variables ≡ count_by (λ r. declares_variable r.kind) rows.now }
{
    let mut scopes = 0;
    let mut variables = 0;
    for row in rows {
        if matches!(row.kind, Kind::Scope) {
            scopes += 1;
        }
        if matches!(row.kind, Kind::Var) {
            variables += 1;
        }
    }
    Declared { scopes, variables }
}

/// Writes a line with a name, a space and a number. Fails if a write does.
fn put_count<W: Sink>(out: &mut W, name: &str, number: u64) -> Result<(), WriteFailed>
    requires { (W.device out.old).failures < 2 ^ 64 - 1 }
    ensures { PutsTo W.device out.old out.new (count_line name.now (decimal number)) result }
{
    put(out, name.as_bytes())?;
    put(out, b" ")?;
    put_number(out, number)?;
    put(out, b"\n")
}

/// Writes a line with name and number for each of these pairs. Fails if a write does.
fn put_counts<W: Sink>(out: &mut W, counts: &[(&str, u64)]) -> Result<(), WriteFailed>
    requires { (W.device out.old).failures < 2 ^ 64 - 1 }
    ensures { Puts (W.device out.old) (W.device out.new) (flat_map named_line counts.now) result }
{
    for (name, number) in counts {
        put_count(out, name, *number)?;
    }
    Ok(())
}

/// Writes the report of `check`: a line for each of these names and counts, and one for the last
/// timestamp, with `-` if there is none. Fails if a write does.
pub(crate) fn put_report<W: Sink>(
    out: &mut W,
    counts: &[(&str, u64)],
    last: Option<u64>,
) -> Result<(), WriteFailed>
    requires { (W.device out.old).failures < 2 ^ 64 - 1 }
    ensures { Puts (W.device out.old) (W.device out.new)
        (flat_map named_line counts.now ++ count_line (codes "last") (number_or_dash last)) result }
{
    put_counts(out, counts)?;
    match last {
        Some(time) => put_count(out, "last", time),
        None => put(out, b"last -\n"),
    }
}
