// The paths of a header by number, each stored as the path around it and its last part.
ghost use Rattle.std.specs.Prelude.{◌≡◌, ◌≤◌, ◌++◌, ◌∷◌, [], ℕ, List, None, false, get_or, length, IfOk, IfSome};
ghost use Rattle.vcd_compare.specs.Paths.{EntersPath, EntersText, HasTexts, has_dot, joined, node_at};

use indexmap::IndexSet;
use std::alloc::{AllocError, Global};
use vcd_view::CodeSeed;

// Distinct paths. The number of a path is 1 plus its index; 0 is the number of no path.
#[derive(Drop)]
pub(crate) struct Paths {
    // The distinct texts without a dot that paths consist of.
    pub(crate) parts: IndexSet<Vec<u8>, CodeSeed>,
    // Of each path the number of the path before its last dot, or 0 if it has no dot, and the index
    // of the part after that dot.
    pub(crate) nodes: IndexSet<(usize, usize), CodeSeed>,
}

impl Paths {
    /// Returns no paths. Those that are entered are hashed with `seed`.
    pub(crate) fn new(alloc: Global, seed: CodeSeed) -> Self
        ensures { HasTexts result [] }
    {
        Paths {
            parts: IndexSet::with_hasher(alloc, seed),
            nodes: IndexSet::with_hasher(alloc, seed),
        }
    }
}

/// Returns the key at this index, or two zeros if there is none.
pub(crate) fn key_at(keys: &IndexSet<(usize, usize), CodeSeed>, index: usize) -> (usize, usize)
    ensures { result ≡ get_or keys.now.keys index (0, 0) }
{
    match keys.as_slice().get(index) {
        Some(key) => *key,
        None => (0, 0),
    }
}

/// Returns what the path with this number consists of (`nodes` of `Paths`), or two zeros if there
/// is no such path.
pub(crate) fn node_at(nodes: &IndexSet<(usize, usize), CodeSeed>, number: usize) -> (usize, usize)
    ensures { result ≡ node_at nodes.now.keys number }
{
    match number.checked_sub(1) {
        Some(index) => key_at(nodes, index),
        None => (0, 0),
    }
}

/// Returns the number of the path that consists of the path with number `around`, a dot and `name`,
/// or of only `name` if `around` is 0. It is entered if it is new, and so is each path that it
/// begins with, up to a dot.
pub(crate) fn enter_path(
    alloc: Global,
    paths: &mut Paths,
    around: usize,
    name: &[u8],
) -> Result<usize, AllocError>
    ensures { IfOk result (λ number. (texts : List (List ℕ)) → HasTexts paths.old texts
        → around ≤ length texts
        → EntersPath texts paths.new (joined texts around name.now) number) }
{
    let mut number = around;
    let mut rest = name;
    while let Some((part, more)) = split_at_dot(rest) {
        number = enter_part(alloc, paths, number, part)?;
        rest = more;
    }
    enter_part(alloc, paths, number, rest)
}

/// Returns what is before the first dot of a text and what is after it; `None` if it has no dot.
fn split_at_dot(text: &[u8]) -> Option<(&[u8], &[u8])>
    ensures some { IfSome result (λ r. text.now ≡ r.0.now ++ 46 ∷ r.1.now) }
    ensures first { IfSome result (λ r. has_dot r.0.now ≡ false) }
    ensures none { result ≡ None → has_dot text.now ≡ false }
{
    for (index, byte) in text.iter().enumerate() {
        if *byte == b'.' {
            return Some((&text[..index], &text[index + 1..]));
        }
    }
    None
}

/// Returns the number of the path that consists of the path with number `around`, a dot and `part`,
/// or of only `part` if `around` is 0. It is entered if it is new. `part` has no dot.
fn enter_part(
    alloc: Global,
    paths: &mut Paths,
    around: usize,
    part: &[u8],
) -> Result<usize, AllocError>
    ensures { IfOk result (λ number. (texts : List (List ℕ)) → HasTexts paths.old texts
        → around ≤ length texts → has_dot part.now ≡ false
        → EntersPath texts paths.new (joined texts around part.now) number) }
{
    let part = enter_text(alloc, &mut paths.parts, part)?;
    let Ok((index, _)) = paths.nodes.insert_full((around, part)) else {
        return Err(AllocError);
    };
    let Some(number) = index.checked_add(1) else {
        return Err(AllocError);
    };
    Ok(number)
}

/// Returns the index of a text among `texts`, after which it is put if it is new.
pub(crate) fn enter_text(
    alloc: Global,
    texts: &mut IndexSet<Vec<u8>, CodeSeed>,
    text: &[u8],
) -> Result<usize, AllocError>
    ensures { IfOk result (λ index. EntersText texts.old texts.new text.now index) }
{
    if let Some(index) = texts.get_index_of(text) {
        return Ok(index);
    }
    let Ok((index, _)) = texts.insert_full(Vec::from_slice(alloc, text)?) else {
        return Err(AllocError);
    };
    Ok(index)
}
