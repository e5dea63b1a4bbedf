// The checks of declarations, and what a declaration adds to the draft.
ghost use Rattle.std.specs.Prelude.{◌≡◌, List, IfOk, IfErr, MatchResult};
ghost use Rattle.vcd_head.specs.Names.{CallEnd, Declaration, HeaderPhrase, IsBarred, IsDraftOf, MayStart, TakesPhrase, call_end};

use crate::draft::Draft;
use crate::fault::HeadFault;
use crate::rows::{WideRow, push};
use vcd_view::Kind;

// How many scopes may be open (profile).
const MAX_OPEN: usize = 1000;

/// Fails if a declaration of this kind may not come next: with `TooMany` if the draft has `most`
/// declarations already, with `TooDeep` if it opens a scope while 1,000 are open, and with
/// `NoScope` if it closes a scope while none is open.
#[inline(always)]
pub(crate) fn check_start(draft: &Draft, most: u64, kind: Kind) -> Result<(), HeadFault>
    ensures checks { (ps : List HeaderPhrase) → IsDraftOf most draft.now ps
        → MatchResult result (λ _. MayStart most ps kind) (IsBarred most ps kind) }
    ensures ends { IfErr result (λ _. call_end result ≡ CallEnd.Ends) }
{
    if draft.rows.len() as u64 >= most {
        return Err(HeadFault::TooMany);
    }
    match kind {
        Kind::Scope if draft.scopes.len() >= MAX_OPEN => Err(HeadFault::TooDeep),
        Kind::Up if draft.scopes.is_empty() => Err(HeadFault::NoScope),
        Kind::Scope => Ok(()),
        Kind::Up => Ok(()),
        Kind::Var => Ok(()),
    }
}

/// Adds a scope of this type and name to the draft, and makes it the innermost open one. Fails only
/// with `OutOfMemory`; then the draft may have a part of it.
#[inline(always)]
pub(crate) fn open_scope(draft: &mut Draft, type_text: &[u8], name: &[u8]) -> Result<(), HeadFault>
    ensures opens { IfOk result (λ _. TakesPhrase Kind.Scope
        (Declaration.Scope type_text.now name.now) draft.old draft.new) }
    ensures memory { IfErr result (λ fault. fault ≡ HeadFault.OutOfMemory) }
{
    let start = draft.text.len();
    draft.text.extend_from_slice(type_text)?;
    draft.text.extend_from_slice(name)?;
    let parent = draft.parent();
    let row = WideRow {
        kind: Kind::Scope,
        parent,
        start,
        word: type_text.len(),
        name: name.len(),
        all: name.len(),
        code: 0,
    };
    push(&mut draft.rows, row)?;
    draft.scopes.push(draft.rows.len())?;
    Ok(())
}

/// Adds an `$upscope` to the draft, which closes its innermost open scope. There must be one
/// (`check_start`). Fails only with `OutOfMemory`; then the scope is closed, but the `$upscope` not
/// added.
#[inline(always)]
pub(crate) fn close_scope(draft: &mut Draft) -> Result<(), HeadFault>
    ensures closes { IfOk result (λ _. TakesPhrase Kind.Up Declaration.Up draft.old draft.new) }
    ensures memory { IfErr result (λ fault. fault ≡ HeadFault.OutOfMemory) }
{
    let closed = draft.scopes.pop().unwrap_or(0);
    let row = WideRow {
        kind: Kind::Up,
        parent: closed,
        start: 0,
        word: 0,
        name: 0,
        all: 0,
        code: 0,
    };
    push(&mut draft.rows, row)?;
    Ok(())
}
