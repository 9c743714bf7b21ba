//! What the parts of an image denote, which parts a store shows, and the store that parts tell of.
//!
//! Model: the parts of an image (`pst_image_form`), the rules of one (`pst_image_rules`), and the lists of a store and its nodes by number
//! and position (`pst_store_meaning`). The parts of a store (`parts_of`) have its places as positions in the order list, its nodes and
//! versions by their numbers, and its contents as numbers. A number in a slot denotes a content by the slot's kind (`content_of`); the
//! parts denote nodes (`arena_in`) and a heap at each position (`heap_in`). `IsMade` says of what lists a store of the parts is made;
//! `IsRebuilt` what it is good for.
//!
//! Contract: laws, each the clause of one function. `denoted`: a number that a slot may hold is that of the content which it denotes, and the
//! parts that a store shows denote the store's own nodes (`NumbersBackLaw`, `ShownDenotesLaw`). `rules`: of a store at rest, with what an
//! engine leaves (`IsLeftStore`), all rules of an image hold (`RulesLaw`), and the versions keep their rule exactly where the store does
//! (`VersionsLaw`). `taken`: where the nodes of each record are one chain, the forks are the versions in the order of their runs, and each
//! record lives over a relic (`IsTaken`), all that a store keeps is so (`ChainsLaw`, `BuiltLaw`). `made`: the rules of an image give all that
//! a store keeps (`MadeIsStoreLaw`), and a store that is made so shows the same parts and the same heap at each position, and its forks
//! are its versions (`MadeIsRebuiltLaw`). (The fat nodes of Driscoll, Sarnak, Sleator and Tarjan.)
#![tactic(auto)]

mod laws;
mod laws_rules;
mod parts;
mod store;

pub use laws::denoted;
pub use laws_rules::taken;
pub use parts::rules;
pub use store::made;
