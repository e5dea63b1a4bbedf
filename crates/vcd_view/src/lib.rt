//! The header of a dump as slices and numbers, and the look-up of its codes.
//!
//! A `HeadView` is slices that may be copied: the declarations as rows, the distinct codes, the
//! order of their bytes, and entries that lead to them. Its methods read rows, texts and codes;
//! `find` looks a code up. The reader of a header makes a view, and the reader of a body needs no
//! more of the header than this. No memory is taken.
//!
//! # The relations
//!
//! `IsViewOf view h` says that a view is of a header of the definitions. Each function over a view
//! takes any view. Its result is that of the definitions if this relation holds. The entries of any
//! view are right about its codes (`right`).
//!
//! `Finds codes text position` says of a look-up that the code with this text is at this index, or
//! that there is none. `IsSized codes found` says that the size of the code was found too.
//!
//! # The modules
//!
//! - `view`: `HeadView` with its rows and codes, and `Need`
//! - `look_up`, `probes`: a look at one entry and at the one beside it, then a look by the hash,
//!   then a binary search; comparisons, counted
//! - `entries`, `key`: where a code's entry is, and what it holds; short codes as keys
//! - `fill`: how many entries codes need, and how they are filled
//! - `code_hash`: codes hashed by numbers that nobody knows
//! - `room`: `need`, the room that an engine over a header needs
//! - `keyword`: the keywords of a dump
//! - `new_code`: the codes that a merge assigns
//!
//! In `specs/` callers read `Views` and `Shown`, `Over`, `Finds`, `Needs`, `Keywords` and
//! `NewCode`; whoever makes a view reads `Entries` and `Keys` too. `Names` collects what the
//! contracts cite under one path.
//!
//! Not promised: the result of a call over a view that is of no header.
#![tactic(auto)]

mod code_hash;
mod entries;
mod fill;
mod key;
mod keyword;
mod look_up;
mod new_code;
mod probes;
mod room;
mod view;

pub use code_hash::{CodeHasher, CodeSeed};
pub use fill::{entries_needed, fill_entries};
pub use key::key_of;
pub use keyword::{Keyword, is_end};
pub use look_up::{Found, find, find_counted, find_in_entry, find_sized};
pub use new_code::{NewCode, put_code};
pub use probes::Probes;
pub use room::need;
pub use view::{Code, Entry, HeadView, Kind, Need, Row, Scale, code_bytes};
