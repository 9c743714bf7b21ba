//! Questions about the versions that a script makes: what one holds, and which one changed what a path reads.
//!
//! Model: a history of a program, after lines of its script, in which each version has a heap and a parent (`parent_in`). A path reads a
//! value in the heap of each version, or none (`readings_in`). The table of questions (`AskRow`) says by the status how far the
//! input was read, how much of the answer is written, and after which lines the store is left.
//!
//! Contract: [`ask`] reads an input, carries its script out over a store as `run` does, writes no reply, and then writes the
//! answer about the history of all lines as one piece, or the line of the program's fault. Where reading stops, all whole lines
//! that were read are carried out, and nothing is written. The table without the question is `OverRow`: whatever answer stands behind
//! a script that [`carry_script`] carries out. [`tell`] gives the answer (`Tells`), for every history whose versions the heap holds: the
//! dump of a version, or the first version on the way to version 0 that changed what a path reads; `refused path` exactly where the
//! program has no such path, and else `refused version` exactly where no version has the number. Want of memory is the one free answer.
//!
//! By laws: what a text declares are names; the record types of a typed program are those that are declared, in order, under names that
//! differ; so those of an accepted program have names of their own, in which no colon stands, and the dumps of two well-formed heaps of
//! such a program, with numbers of 64 bits, are equal exactly where one heap is the other one with its records renamed. For example
//! `record N 1 { }` has the record types `root` and `N`. A text with `record root 1 { }` is not accepted, since `root` is a keyword.
//!
//!     let mut store: Store = Store::empty();
//!     let status = ask(alloc, Question::Changed(VersionNo(7)), b"list.head", source, sink, &mut store);
#![tactic(auto)]

mod answer;
mod asking;
mod named;

pub use answer::tell;
pub use asking::{ask, carry_script};
pub use named::{
    accepted_types_are_named_apart, declared_are_names, dumps_of_accepted_tell_heaps,
    names_by_hand, types_are_declared,
};
