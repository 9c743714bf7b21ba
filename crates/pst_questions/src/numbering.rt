//! Records with their numbers.

ghost use Rattle.std.specs.Prelude.{◌≡◌};

use indexmap::IndexMap;
use pst_base::{Name, NoMemory};
use std::alloc::Global;

/// Records in the order in which they were found, each once. The number of a record is its place.
#[derive(Drop)]
pub(crate) struct Numbering<R: Copy> {
    /// By run and ordinal, the parts of a record's name.
    records: IndexMap<(u32, u32), R>,
}

/// The parts of a name.
fn key(name: Name) -> (u32, u32)
    ensures { result ≡ (name.run.0, name.ordinal) }
{
    (name.run.0, name.ordinal)
}

impl<R: Copy> Numbering<R> {
    ghost use Rattle.std.specs.Prelude.{◌<◌, ◌^◌, [], length, OnOk, Some, slice_get};
    ghost use Rattle.std.specs.Option.{option_map};
    ghost use Rattle.indexmap.specs.IndexMap.{insert_entry};
    ghost use Rattle.pst_base.specs.Name.{same_name};
    ghost use Rattle.pst_questions.specs.Dump.{number_in};
    ghost use Rattle.pst_questions.specs.Walk.{entries_of, names_of};

    /// No records.
    pub(crate) fn new(alloc: Global) -> Self
        ensures { entries_of result ≡ [] }
    {
        Numbering {
            records: IndexMap::new(alloc),
        }
    }

    /// Notes a record with a reference that stands for it. A record that is there keeps its number.
    pub(crate) fn note(&mut self, name: Name, r: R) -> Result<(), NoMemory>
        ensures { OnOk result (entries_of self.new ≡ insert_entry same_name (entries_of self.old) name r) }
    {
        self.records.insert(key(name), r)?;
        Ok(())
    }

    /// How many records there are.
    pub(crate) fn len(&self) -> usize
        ensures len { result ≡ length (entries_of self.now) }
        ensures small { result < 2 ^ 63 }
    {
        self.records.len()
    }

    /// The reference of the record with a number.
    pub(crate) fn record(&self, number: usize) -> R
        requires { number < length (entries_of self.now) }
        ensures { option_map (λ e. e.1) (slice_get (entries_of self.now) number) ≡ Some result }
    {
        self.records[number]
    }

    /// The number of a record, or how many records there are where it has none.
    pub(crate) fn number(&self, name: Name) -> usize
        ensures { result ≡ number_in (names_of self.now) name }
    {
        match self.records.get_index_of(&key(name)) {
            None => self.records.len(),
            Some(number) => number,
        }
    }
}
