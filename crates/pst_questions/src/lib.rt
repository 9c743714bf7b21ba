//! Two questions about a heap with versions: the dump of a place, and which version changed what a path reads.
//!
//! Model: the records that the root record reaches are numbered from 0 in the order of their least access paths (`specs/Paths`), the
//! shortest lists of slots that lead to them; the dump (`specs/Dump`) has one line each, in that order. A path is names joined by
//! dots, as `first.next.key`: a root, and then fields. `resolved` gives its slots in a program; `reading` is what its last field holds
//! in a heap, or none where a null is met before.
//!
//! Contract: `dump` gives exactly that text, or finds no memory. By laws a heap has one dump, and the dumps of two well-formed heaps of
//! one shape with numbers of 64 bits and record types of different names are equal exactly where one heap is the other one with its
//! records renamed. `path_form` answers exactly whether bytes have the form of a path, and `resolve` gives exactly the slots of a
//! valid one. `changed` gives the first version on the way to version 0 whose reading is not that of its parent.
//!
//!     if let Some(path) = resolve(alloc, &program, b"first.key")? {
//!         let version = changed(&heap, &path, VersionNo(7));
//!     }
//!
//! For example a list of the numbers 7 and 5 is dumped so:
//!
//! ```text
//! 0 root: @1
//! 1 N: 7 @2
//! 2 N: 5 null
//! ```
#![tactic(auto)]

mod change;
mod fields;
mod laws_changed;
mod laws_dump;
mod names;
mod numbering;
mod reading;
mod slots;
mod text;
mod walk;
mod worked;

pub use change::changed;
pub use fields::resolve;
pub use laws_changed::{first_change_is_one, versions_there_decide};
pub use laws_dump::{
    dump_is_unique, dumps_by_hand, dumps_tell_heaps, lines_tell_heaps, numbering_exists,
    numbering_is_unique, renaming_keeps_dump,
};
pub use names::path_form;
pub use slots::{PathStep, Slots};
pub use text::dump;
pub use worked::{changes_by_hand, fields_by_hand, path_forms_by_hand, readings_by_hand};
