//! The records of an event, in order.
ghost use Rattle.std.specs.Prelude.{◌≡◌, [], ◌∷◌, ◌++◌, OnOk, OnErr};

use crate::records::Record;
use et_base::NoMemory;
use std::alloc::Global;
use std::marker::Model;

/// A list of records. A contract sees it as that list.
#[derive(Debug, Drop)]
pub struct Lines {
    records: Vec<Record>,
}

impl Model for Lines {
    ghost use Rattle.std.specs.Prelude.{List};
    ghost use Rattle.et_state.specs.declared.records.Record.{Record};

    ghost Value = { List Record };

    ghost view = { λ l. l.records.items };
}

impl Lines {
    /// No records yet.
    pub fn begin(alloc: Global) -> Lines
        ensures { result ≡ [] }
    {
        Lines {
            records: Vec::new(alloc),
        }
    }

    /// Puts a record at the end. After `NoMemory` the list is as before.
    pub fn push(&mut self, entry: Record) -> Result<(), NoMemory>
        ensures ok { OnOk result (self.new ≡ self.old ++ entry ∷ []) }
        ensures err { OnErr result (self.new ≡ self.old) }
    {
        self.records.push(entry)?;
        Ok(())
    }

    /// The records in order.
    pub fn records(&self) -> &[Record]
        ensures { result.now ≡ self.now }
    {
        self.records.as_slice()
    }

    /// Empties the list, and keeps its room.
    pub fn clear(&mut self)
        ensures { self.new ≡ [] }
    {
        self.records.clear();
    }
}
