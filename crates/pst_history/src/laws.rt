//! What holds of every history, whatever the program. These functions have no code: each is a fact for those who build on
//! the definitions. That a command has one reply, and a history one heap of each version, is because both are functions.

ghost use Rattle.pst_history.specs.Laws.{RefusedChangesNothing, OnlyRefusedAreRefused, ReadersChangeNothing, RefusalsAreOfCommands, HistoriesAreSound, HistoriesGoOn, OpeningIsSound, SoundHistoriesGoOn, FewRunsAreOpen, RunsKeepApart, OldVersionsKeepTheirHeaps, CountsNeverFall, RunsCountFew, CountsAreFew, VersionIsMadeByItsRun, VersionsHaveOwnRuns, HeapsAreWellFormed, DirectIsLawful, DirectReadsOnly};
ghost use Rattle.pst_history.specs.declared.history.TheConstants.{BUDGET, RUNS, OPEN_RUNS, CALLS};
ghost use Rattle.std.specs.Prelude.{◌≡◌};

/// The limits of a history in digits: the budget that stands at first, the most run numbers, the most open runs, and the most
/// calls of a run.
pub fn limits_in_digits()
    ensures budget { BUDGET ≡ 1000000 }
    ensures runs { RUNS ≡ 1048576 }
    ensures open { OPEN_RUNS ≡ 64 }
    ensures calls { CALLS ≡ 1024 }
{}

/// A refused command is answered by its refusal, and changes nothing.
pub fn refused_changes_nothing()
    ensures { RefusedChangesNothing }
{}

/// Only a refused command is answered by a refusal.
pub fn only_refused_are_refused()
    ensures { OnlyRefusedAreRefused }
{}

/// A query, `versions` and `stats` change nothing, also not the next run number.
pub fn readers_change_nothing()
    ensures { ReadersChangeNothing }
{}

/// A command is never refused as a line without a form or for a numeral's range: that is found when the line is read.
pub fn refusals_are_of_commands()
    ensures { RefusalsAreOfCommands }
{}

/// A history that commands made of a sound opening is sound: each has numbers that a line of a script can give.
pub fn histories_are_sound()
    ensures { HistoriesAreSound }
{}

/// The history of an opening is one of every program, and so is the history after a command that a line can give.
pub fn histories_go_on()
    ensures { HistoriesGoOn }
{}

/// The opening of `run` is sound, so is the history of each sound opening, and each command that a line can
/// give keeps a history sound.
pub fn sound_histories_go_on()
    ensures opening { OpeningIsSound }
    ensures on { SoundHistoriesGoOn }
{}

/// At most 64 runs are open.
pub fn few_runs_are_open()
    ensures { FewRunsAreOpen }
{}

/// A command changes no run but the one that it names or opens, so the interleaving of open runs changes none of them.
pub fn runs_keep_apart()
    ensures { RunsKeepApart }
{}

/// After every command the versions that were there are there, each with its run, its parent and its heap.
pub fn old_versions_keep_their_heaps()
    ensures { OldVersionsKeepTheirHeaps }
{}

/// After every command no count is less than before.
pub fn counts_never_fall()
    ensures { CountsNeverFall }
{}

/// Each run of a history counts no more than 1,000,000,000 beyond its opening.
pub fn runs_count_few()
    ensures { RunsCountFew }
{}

/// No count of a history is above 2^51.
pub fn counts_are_few()
    ensures { CountsAreFew }
{}

/// The heaps of the opening are given, and the heap of each further version is what its own run makes of its parent's.
pub fn version_is_made_by_its_run()
    ensures { VersionIsMadeByItsRun }
{}

/// Each version after 0, also of the opening, was made by a run of its own, with a number from 1 to below the next.
pub fn versions_have_own_runs()
    ensures { VersionsHaveOwnRuns }
{}

/// The heap of each version is well formed, and none of its records bears the number of a later run than its own.
pub fn heaps_are_well_formed()
    ensures { HeapsAreWellFormed }
{}

/// The meaning of a program by its tree is lawful, also of one that is not well typed, if its record types are valid.
pub fn direct_is_lawful()
    ensures { DirectIsLawful }
{}

/// The queries of a well-typed program write nothing.
pub fn direct_reads_only()
    ensures { DirectReadsOnly }
{}
