// How a draft becomes a head.
ghost use Rattle.std.specs.Prelude.{◌≡◌, ◌*◌, ◌≤◌, ℕ, List, true, length, IfOk, IfErr};
ghost use Rattle.vcd_head.specs.Names.{HeaderPhrase, IsDraftOf, Views, are_right, header_of, shown};

use crate::codes::Codes;
use crate::draft::Draft;
use crate::fault::HeadFault;
use crate::head::Head;
use crate::index::index_of;
use std::alloc::{AllocError, Global};
use vcd_view::{Code, CodeSeed, Entry, entries_needed, fill_entries};

/// Returns the header that a draft has once all phrases were read into it, with the tables for
/// look-ups of codes. Fails only with `OutOfMemory`.
pub(crate) fn head_of_draft(alloc: Global, draft: Draft) -> Result<Head, HeadFault>
    ensures head { (most : ℕ) (ps : List HeaderPhrase) → IsDraftOf most draft ps
        → IfOk result (λ head. Views (shown head) (header_of ps)) }
    ensures memory { IfErr result (λ fault. fault ≡ HeadFault.OutOfMemory) }
{
    let Draft {
        text,
        rows,
        codes,
        date,
        version,
        scale,
        ..
    } = draft;
    let Codes {
        list: codes,
        rising,
        keys,
    } = codes;
    let seed = *keys.hasher();
    let in_order = keys.is_empty();
    drop(rising);
    drop(keys);
    let index = index_of(alloc, &text, &codes)?;
    let entries = entries_of(alloc, &text, &codes, in_order, seed)?;
    Ok(Head {
        text,
        rows,
        codes,
        index,
        entries,
        seed,
        date,
        version,
        scale,
    })
}

/// Returns the table of entries by which these codes are looked up. The bytes of the codes lie in
/// `text`, `seed` hashes them, and `in_order` says that they are in the order of their numbers.
/// Fails if there is no memory.
fn entries_of(
    alloc: Global,
    text: &[u8],
    codes: &[Code],
    in_order: bool,
    seed: CodeSeed,
) -> Result<Vec<Entry>, AllocError>
    ensures right { IfOk result (λ entries. are_right text.now codes.now entries.items ≡ true) }
    ensures few { IfOk result (λ entries. length entries.items ≤ 3 * length codes.now) }
{
    let empty = Entry::default();
    let count = entries_needed(text, codes, in_order);
    let mut entries = vec![in alloc; empty; count]?;
    fill_entries(&mut entries, text, codes, seed);
    Ok(entries)
}
