//! The history of a script: its runs and versions, the heap of each version, and the reply to each command.
//!
//! Model: an opening (versions with their heaps, the next run, a budget, counts) and what came since (`specs/History`). What a
//! program means is a parameter (`specs/Meaning`); the direct meaning is one.
//!
//! What is kept since the opening in which version 0 is alone is a [`Since`].
//!
//! Contract: each look-up in a [`Since`] is exact, and each change of it is the one that the definitions name, and nothing else.
//! Of the definitions the laws, for every opening: old versions keep their heaps, no count falls, a refused command changes
//! nothing, runs keep apart, and a version is made by its own run on its parent's heap.
//!
//!     after m h line                 the history after a command
//!     reply m h line                 the reply to it
//!     grant(&mut since, run, 100)    a run with a hundred charges more
#![tactic(auto)]

mod arguments;
mod history;
mod laws;
mod rows;
mod worked;

pub use arguments::{first_of, refusal_of_arguments};
pub use history::{
    BUDGET, CALLS, Descent, Descents, NamedCall, NamedCalls, OPEN_RUNS, RUNS, Run, RunState, Runs,
    Since,
};
pub use laws::{
    counts_are_few, counts_never_fall, direct_is_lawful, direct_reads_only, few_runs_are_open,
    heaps_are_well_formed, histories_are_sound, histories_go_on, limits_in_digits,
    old_versions_keep_their_heaps, only_refused_are_refused, readers_change_nothing,
    refusals_are_of_commands, refused_changes_nothing, runs_count_few, runs_keep_apart,
    sound_histories_go_on, version_is_made_by_its_run, versions_have_own_runs,
};
pub use rows::{
    add, give_up, grant, index_of, named_call, next_number, one_call, open, parents, publish,
    run_of, shut, version_of,
};
pub use worked::{open_runs_by_hand, several_calls_by_hand};
