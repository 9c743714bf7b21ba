//! The table of the temporary registers of a procedure.

ghost use Rattle.std.specs.Prelude.{◌≡◌, ◌<◌, ℕ, OnOk, length};
ghost use Rattle.pst_codegen_expressions.specs.Rows.{row_at};

use pst_base::{Kind, NoMemory};
use pst_translation::Need;
use std::alloc::Global;
use std::marker::Model;

/// What a temporary register holds, and its index in the table.
#[derive(Clone, Copy)]
struct Temporary {
    kind: Kind,
    index: usize,
}

/// The temporary registers of a level.
#[derive(Drop)]
struct Row {
    temporaries: Vec<Temporary>,
}

impl Model for Row {
    ghost use Rattle.std.specs.Prelude.{List};
    ghost use Rattle.pst_codegen_expressions.specs.declared.table.Temporary.{Temporary};

    ghost Value = { List Temporary };

    ghost view = { λ a. a.temporaries.items };
}

impl Row {
    ghost use Rattle.std.specs.Prelude.{◌≡◌, [], ◌∷◌, ◌++◌, MatchResult};
    ghost use Rattle.pst_codegen_expressions.specs.Rows.{found_in};

    /// A row with no register.
    fn new(alloc: Global) -> Self
        ensures { result ≡ [] }
    {
        Row {
            temporaries: Vec::new(alloc),
        }
    }

    /// The index of the register for a kind.
    fn find(&self, kind: Kind) -> Option<usize>
        ensures { result ≡ found_in self.now kind }
    {
        for temporary in &self.temporaries {
            if temporary.kind == kind {
                return Some(temporary.index);
            }
        }
        None
    }

    /// Adds a register at the end. Want of memory changes nothing.
    fn push(&mut self, temporary: Temporary) -> Result<(), NoMemory>
        ensures { MatchResult result (λ _. self.new ≡ self.old ++ temporary ∷ []) (λ _. self.new ≡ self.old) }
    {
        self.temporaries.push(temporary)?;
        Ok(())
    }
}

/// The temporary registers of a procedure, in the order in which its code first needs them. The rows make the walk of a
/// search short: at most one register for each kind.
#[derive(Drop)]
pub struct Table {
    needs: Vec<Need>,
    rows: Vec<Row>,
}

impl Model for Table {
    ghost use Rattle.std.specs.Prelude.{List};
    ghost use Rattle.pst_translation.specs.declared.need.Need.{Need};
    ghost use Rattle.pst_codegen_expressions.specs.Rows.{IsIndexed};

    ghost Value = { List Need };

    ghost view = { λ t. t.needs.items };

    ghost invariant = { λ t. IsIndexed t.rows.items t.needs.items };
}

impl Table {
    ghost use Rattle.std.specs.Prelude.{◌≡◌, ◌<◌, OnOk, [], length};
    ghost use Rattle.pst_translation.specs.Needs.{need, noted_one, index_in};
    ghost use Rattle.pst_codegen_expressions.specs.Rows.{index_noted};

    /// A table with no register.
    pub(crate) fn new(alloc: Global) -> Self
        ensures { result ≡ [] }
    {
        Table {
            needs: Vec::new(alloc),
            rows: Vec::new(alloc),
        }
    }

    /// The registers, in order.
    pub fn as_slice(&self) -> &[Need]
        ensures { result.now ≡ self.now }
    {
        self.needs.as_slice()
    }

    /// The index of the register for a level and a kind, if there is one.
    fn find(&self, level: u16, kind: Kind) -> Option<usize>
        ensures { result ≡ index_noted self.now level kind }
    {
        match self.rows.get(usize::from(level)) {
            None => None,
            Some(row) => row.find(kind),
        }
    }

    /// The index of the register for a level and a kind, where there is one.
    pub fn index_of(&self, level: u16, kind: Kind) -> usize
        requires { index_in self.now level kind < length self.now }
        ensures { result ≡ index_in self.now level kind }
    {
        self.find(level, kind).unwrap()
    }

    /// Notes that the code needs a register for a level and a kind.
    pub(crate) fn note(&mut self, alloc: Global, level: u16, kind: Kind) -> Result<(), NoMemory>
        ensures { OnOk result (self.new ≡ noted_one self.old (need level kind)) }
    {
        if self.find(level, kind).is_some() {
            return Ok(());
        }
        let row = usize::from(level);
        lengthen(alloc, &mut self.rows, row)?;
        let index = self.needs.len();
        self.needs.push(Need { level, kind })?;
        let added = self.rows[row].push(Temporary { kind, index });
        if added.is_err() {
            self.needs.pop();
        }
        added
    }
}

/// Adds empty rows up to this one. Want of memory may leave some of them.
fn lengthen(alloc: Global, rows: &mut Vec<Row>, row: usize) -> Result<(), NoMemory>
    ensures same { (level : ℕ) → row_at rows.new.items level ≡ row_at rows.old.items level }
    ensures long { OnOk result (row < length rows.new.items) }
{
    while rows.len() <= row {
        rows.push(Row::new(alloc))?;
    }
    Ok(())
}
