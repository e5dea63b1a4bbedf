//! Reads the header of a dump, and makes all else of it: what names select, paths, headers as they
//! are written.
//!
//! `read_head` reads a header from a feed, up to the `$end` of `$enddefinitions`, into a `Head`,
//! which owns its memory. `read_head_with_hasher` hashes its codes with what the caller chooses,
//! against crafted codes. All else works on its `HeadView`: the path of a variable (`put_path`),
//! the variables that names select (`select`, as marks), their codes (`flag_codes`), and the header
//! of marked declarations (`put_head`). The header of a merged dump is written from the heads themselves
//! (`put_merged_head`).
//!
//! The view and its rows, the look-up of codes (`find`), the room that an engine needs (`need`) and
//! the codes of a merge (`put_code`) are in `vcd_view`, so that the reader of a body needs no more
//! than that crate. Callers find them here too.
//!
//! # The relations
//!
//! While a header is read, `Reads most input placed before feed` says how far: the tokens given are
//! these good phrases, and then these first tokens of the next one. In the end there is
//! `GivesHead`: the tokens of a whole header were given, and the head shows it. Otherwise there is
//! `Fails`: the header's fault, at its line; or, if memory is refused, that no token given so far
//! has a fault.
//!
//! Each function over a view takes any view, and its result is that of the definitions if the view
//! is of a header of them (`IsViewOf view h`). The entries of a head are always right about its
//! codes (`right`).
//!
//! # The modules
//!
//! The `mod` lines below are in the same groups.
//!
//! - The grammar, and the draft that it fills: `read`, the whole header; `phrases`, one phrase of
//!   it; `tokens`, `texts` and `words`, the next token, texts up to `$end` and tests of tokens;
//!   `scale`, `scopes` and `variable`, what a phrase says; `declarations` and `rows`, what may be
//!   declared and what is kept of it; `draft`, a header while it is read; `finish`, the head that
//!   it becomes; `head` and `fault`, the results
//! - Codes of the draft: `codes`, the list; `rising` and `code_key`, the keys by which they are
//!   found; `code_place`, the index of a variable's code
//! - Look-up in the head: `index`, the order of the codes by their bytes; `vcd_view` has the rest
//! - Scopes around a declaration: `enclosing`, outermost first; `path`, the path of a variable
//! - Selection: `selection`, which variables names select; `inside`, the names that continue inside
//!   open scopes; `names`, names in the order of their bytes; `flags`, the codes of marked variables
//! - Writing: `write`, headers as they are written; `merged`, the header of a merged dump
//! - Ticks: `moment`, a time with a unit in ticks of the header's scale
//! - Theorems: `laws`. Each function there has a law over headers and codes as its contract
//!
//! In `specs/` callers read `Shown`, `Reads` (`ReadsHead`), `Written`, `Fault`, `Marks`, `Merged`
//! and `Moments`; of the view `Views`, `ViewShown`, `Over`, `Finds`, `Needs` and `NewCode`; and the
//! definitions that these cite, as `Model`. `Names` collects what the contracts cite under one
//! path.
//!
//! # Limits
//!
//! At most 16,777,216 declarations, 1,000 open scopes, 16,777,215 bits in a variable, and
//! 4,294,967,295 bytes in a type, a name or a code. Only `read_head` takes memory.
//!
//! Not promised: the result of a call over a view that is of no header, and what `select` leaves in
//! the marks if a name selects nothing.
#![tactic(auto)]

// The grammar, and the draft that it fills.
mod declarations;
mod draft;
mod fault;
mod finish;
mod head;
mod phrases;
mod read;
mod rows;
mod scale;
mod scopes;
mod texts;
mod tokens;
mod variable;
mod words;

// Codes of the draft.
mod code_key;
mod code_place;
mod codes;
mod rising;

// Look-up in the head.
mod index;

// Scopes around a declaration.
mod enclosing;
mod path;

// Selection.
mod flags;
mod inside;
mod names;
mod selection;

// Writing.
mod merged;
mod write;

// Ticks.
mod moment;

// Theorems.
pub mod laws;

pub use fault::HeadFault;
pub use flags::{flag_codes, is_marked};
pub use head::Head;
pub use merged::{least_exponent, put_merged_head};
pub use moment::{Moment, TickFault, ticks};
pub use path::put_path;
pub use read::{read_head, read_head_with_hasher};
pub use selection::{select, selects};
pub use vcd_view::{
    Code, CodeSeed, HeadView, Kind, Need, Probes, Row, Scale, find, find_counted, need, put_code,
};
pub use write::put_head;
