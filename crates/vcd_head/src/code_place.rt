// The index of a variable's code among the distinct codes.
ghost use Rattle.std.specs.Prelude.{◌≡◌, nat_eq, false, [], ◌∷◌, ◌++◌, length, IfOk, IfErr};
ghost use Rattle.vcd_head.specs.Names.{Enters, EntersKey, IsNewCode, Rises, code_with, key_in, list_any};

use crate::code_key::CodeKey;
use crate::codes::{Codes, index_among, is_declared_as};
use crate::fault::HeadFault;
use crate::rising::{index_in_rising, last_rising};
use crate::rows::{append, token_len};
use std::alloc::Global;
use vcd_view::{Code, key_of};

/// Returns the index in `known` of the code of a variable with this size, which is an event if
/// `event` is true. A new code is added to `known`, and its bytes at the end of `text`. `None` if
/// the code was declared before with another size, or if one of its declarations is an event and
/// the other is not; then nothing has changed. Fails only with `OutOfMemory`, and only for a new
/// code, of which a part may be added then.
#[inline(always)]
pub(crate) fn enter_code(
    alloc: Global,
    text: &mut Vec<u8>,
    known: &mut Codes,
    bytes: &[u8],
    size: usize,
    event: bool,
) -> Result<Option<usize>, HeadFault>
    ensures codes { Enters text.old.items text.new.items known.old known.new
        bytes.now size event result }
    ensures memory { IfErr result (λ fault. fault ≡ HeadFault.OutOfMemory) }
    ensures refused { Rises known.old.rising.items
        → IfErr result (λ _. IsNewCode known.old bytes.now) }
{
    let (position, new) = enter_key(alloc, known, bytes)?;
    if new {
        add_code(text, &mut known.list, bytes, size, event)?;
        return Ok(Some(position));
    }
    if !is_declared_as(&known.list, position, size, event) {
        return Ok(None);
    }
    Ok(Some(position))
}

/// Returns the index in `known` of the code with these bytes, and whether it is new. A new code is
/// added to what it is found by (`known.rising` or `known.keys`), but not yet to `known.list`.
/// Fails only with `OutOfMemory`, and only for a new code.
#[inline(always)]
fn enter_key(alloc: Global, known: &mut Codes, bytes: &[u8]) -> Result<(usize, bool), HeadFault>
    ensures enters { Rises known.old.rising.items
        → IfOk result (λ r. EntersKey bytes.now known.old known.new r.0 r.1) }
    ensures memory { IfErr result (λ fault. fault ≡ HeadFault.OutOfMemory) }
    ensures refused { Rises known.old.rising.items
        → IfErr result (λ _. IsNewCode known.old bytes.now) }
{
    let key = key_of(bytes);
    if known.keys.is_empty() && key > last_rising(&known.rising) {
        let position = known.rising.len();
        append(&mut known.rising, key)?;
        return Ok((position, true));
    }
    if let Some(position) = index_in_rising(&known.rising, key) {
        return Ok((position, false));
    }
    enter_in_set(alloc, known, bytes)
}

/// Returns the index in `known` of the code with these bytes, and whether it is new. If it is, adds
/// its key to `known.keys`. The code is none of those in `known.rising`. Fails only with
/// `OutOfMemory`: a code that is not new is found even if memory is refused.
fn enter_in_set(alloc: Global, known: &mut Codes, bytes: &[u8]) -> Result<(usize, bool), HeadFault>
    ensures enters { Rises known.old.rising.items
        → list_any (nat_eq (key_in bytes.now)) known.old.rising.items ≡ false
        → IfOk result (λ r. EntersKey bytes.now known.old known.new r.0 r.1) }
    ensures memory { IfErr result (λ fault. fault ≡ HeadFault.OutOfMemory) }
    ensures refused { list_any (nat_eq (key_in bytes.now)) known.old.rising.items ≡ false
        → IfErr result (λ _. IsNewCode known.old bytes.now) }
{
    let Ok(key) = CodeKey::of(alloc, bytes) else {
        let Some(position) = index_among(known.keys.as_slice(), bytes) else {
            return Err(HeadFault::OutOfMemory);
        };
        let Some(position) = known.rising.len().checked_add(position) else {
            return Err(HeadFault::OutOfMemory);
        };
        return Ok((position, false));
    };
    let Ok((position, new)) = known.keys.insert_full(key) else {
        return Err(HeadFault::OutOfMemory);
    };
    let Some(position) = known.rising.len().checked_add(position) else {
        return Err(HeadFault::OutOfMemory);
    };
    Ok((position, new))
}

/// Appends the bytes of a code to `text`, and the code to `list`: with its `size`, and as that of
/// an event if `event` is true. Fails only with `OutOfMemory`; then only the bytes may be appended.
#[inline(always)]
fn add_code(
    text: &mut Vec<u8>,
    list: &mut Vec<Code>,
    bytes: &[u8],
    size: usize,
    event: bool,
) -> Result<(), HeadFault>
    ensures text { IfOk result (λ _. text.new.items ≡ text.old.items ++ bytes.now) }
    ensures listed { IfOk result (λ _. list.new.items
        ≡ list.old.items ++ code_with (length text.old.items) bytes.now size event ∷ []) }
    ensures memory { IfErr result (λ fault. fault ≡ HeadFault.OutOfMemory) }
{
    let len = token_len(bytes.len())?;
    let start = text.len();
    text.extend_from_slice(bytes)?;
    let code = Code {
        start,
        len,
        size,
        event,
    };
    append(list, code)
}
