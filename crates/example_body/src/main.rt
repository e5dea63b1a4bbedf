//! Prints how many value changes of each kind the dump on standard input has. It is a caller of
//! `vcd_body`, over a header that `vcd_head` has read.
//!
//! `count` is the loop over items. Its contract says that the counts are those of the items of the
//! whole body, over every feed that is just after the header.
#![tactic(auto)]

ghost use Rattle.std.specs.Prelude.{◌≡◌, ◌+◌, ◌-◌, ◌^◌, ◌<◌, ℕ, List, IfOk, Some};
ghost use Rattle.example_body.specs.Counts.{BodyCounts, DumpCounts, counted};
ghost use Rattle.vcd_head.specs.Views.{IsViewOf};
ghost use Rattle.vcd_head.specs.Model.Header.{Header};
ghost use Rattle.vcd_head.specs.Model.Input.{Input};
ghost use Rattle.vcd_head.specs.Model.Tokens.{Token};
ghost use Rattle.vcd_text.specs.Feed.{HasGiven, limit_of, source_of};

use std::alloc::Global;
use std::process::ExitCode;
use vcd_body::{BodyFault, Form, Item, Regs, next_item};
use vcd_head::{HeadFault, HeadView, read_head};
use vcd_text::{Feed, Source, Watch, text_of};

/// How many bytes a token may have.
const LIMIT: usize = 65_536;

/// How many changes there were, by how they are written.
#[derive(Clone, Copy)]
struct Forms {
    scalars: u64,
    vectors: u64,
    reals: u64,
}

/// Returns these counts after one more item.
fn with(forms: Forms, item: Item) -> Forms
    requires { forms.scalars + forms.vectors + forms.reals < 2 ^ 63 }
    ensures { result ≡ counted forms item }
{
    let mut forms = forms;
    match item {
        Item::Change { form, .. } => match form {
            Form::Scalar => forms.scalars += 1,
            Form::Vector => forms.vectors += 1,
            Form::RealText => forms.reals += 1,
        },
        Item::Time(_) => {}
        Item::Begin(_) => {}
        Item::End => {}
        Item::Finish => {}
    }
    forms
}

/// Reads a body, of which nothing was read, and returns how many changes of each form it has. Fails
/// with the fault of the body.
fn count<S: Source>(
    feed: &mut Feed<'_, '_, '_, '_, S>,
    view: HeadView<'_>,
) -> Result<Forms, BodyFault>
    requires failures { S.failures (source_of feed.old) < 2 ^ 64 - 1 }
    ensures reads { (h : Header) (i : Input) (front : List Token) → IsViewOf view.entry h
        → HasGiven i front feed.old → IfOk result (BodyCounts h.codes i front (limit_of feed.old)) }
{
    let mut regs = Regs::new();
    let mut forms = Forms {
        scalars: 0,
        vectors: 0,
        reals: 0,
    };
    'items: loop {
        let item = next_item(feed, view, &mut regs)?;
        if item == Item::Finish {
            return Ok(forms);
        }
        forms = with(forms, item);
    }
}

/// Reads a dump, and returns how many changes it has, or the fault of its body. Fails with the
/// fault of its header.
fn forms_in<S: Source>(alloc: Global, reader: &mut S) -> Result<Result<Forms, BodyFault>, HeadFault>
    requires failures { S.failures reader.old < 2 ^ 64 - 1 }
    ensures reads { (text : List ℕ) → S.rest reader.old ≡ Some text
        → IfOk result (λ body. IfOk body (DumpCounts text)) }
{
    let mut chunk = vec![in alloc; 0u8; LIMIT]?;
    let mut token = vec![in alloc; 0u8; LIMIT]?;
    let mut value = vec![in alloc; 0u8; LIMIT]?;
    let mut feed = Feed::new(reader, &mut chunk, &mut token, &mut value);
    let head = read_head(alloc, &mut feed, 16_777_216)?;
    Ok(count(&mut feed, head.view()))
}

fn main(rt: HostRuntime) -> ExitCode {
    let written = match forms_in(rt.alloc(), &mut Watch::new(rt.stdin())) {
        Ok(
            Ok(
                Forms {
                    scalars,
                    vectors,
                    reals,
                },
            ),
        ) => println!(rt; "scalars {scalars}\nvectors {vectors}\nreals {reals}"),
        Ok(Err(fault)) => println!(rt; "{}", text_of(fault.number())),
        Err(fault) => println!(rt; "{}", text_of(fault.number())),
    };
    ExitCode::from(u8::from(written.is_err()))
}
