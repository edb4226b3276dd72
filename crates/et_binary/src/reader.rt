//! Reading a binary trace in pieces.
ghost use Rattle.std.specs.Prelude.{◌≡◌, ◌++◌, [], false, None, Some, Err, OnOk, IfOk, IfErr};
ghost use Rattle.et_binary.specs.Packs.{IsPackOf};
ghost use Rattle.et_binary.specs.Unpacking.{AreUnpacked, TakesAll, ShowsIn, unpacked_bytes};

use crate::records::take_all;
use et_text::{Rules, Trace, TraceFault};
use std::alloc::Global;
use std::marker::Model;

/// Reads a binary trace that comes in pieces, cut anywhere. A contract sees the bytes so far, and the fault that came, if one
/// did. It keeps the lines and what they define, and of the bytes no more than the record that is not whole.
#[derive(Drop)]
pub struct BinaryReader {
    alloc: Global,
    rules: Rules,
    /// The bytes before the first record were taken.
    opened: bool,
    /// The front of a record that is not whole.
    rest: Vec<u8>,
    fault: Option<TraceFault>,
}

impl Model for BinaryReader {
    ghost use Rattle.et_text.specs.Stream.{Reading};
    ghost use Rattle.et_binary.specs.Unpacking.{KeepsUnpacking, unpacked_bytes};

    ghost Value = { Reading };

    ghost view = { λ a. record
        { bytes = unpacked_bytes a.opened a.rules a.rest.items; fault = a.fault } };

    ghost invariant = { λ a. KeepsUnpacking a.fault a.rules a.opened a.rest.items };
}

impl BinaryReader {
    ghost use Rattle.et_binary.specs.Unpacking.{Unpacks, StopsUnpacking, HasPackFault};
    ghost use Rattle.et_text.specs.declared.fault.TraceFault.{TraceFault};

    /// No bytes yet.
    pub fn begin(alloc: Global) -> BinaryReader
        ensures { result ≡ record { bytes = []; fault = None } }
    {
        BinaryReader {
            alloc,
            rules: Rules::begin(alloc),
            opened: false,
            rest: Vec::new(alloc),
            fault: None,
        }
    }

    /// Takes the next piece of the bytes. It answers a fault with the piece that first shows it: a wrong one of the first four
    /// bytes, the letter of a record where it is none of the table or stands behind the last record, and the last byte of a
    /// record that breaks a rule. It answers `Ok` while there is none. After any fault, want of memory too, each further call
    /// answers that fault and changes nothing. It takes no memory ahead of the bytes that came.
    pub fn feed(&mut self, piece: &[u8]) -> Result<(), TraceFault>
        ensures ok { OnOk result (Unpacks self.old self.new piece.now) }
        ensures again { (fault : TraceFault) →
            self.old.fault ≡ Some fault → (result ≡ Err fault) × (self.new ≡ self.old) }
        ensures err { self.old.fault ≡ None →
            IfErr result (StopsUnpacking self.old self.new piece.now) }
    {
        match self.fault {
            Some(fault) => return Err(fault),
            None => {}
        }
        let unpacked = unpack(
            self.alloc,
            &mut self.rules,
            self.opened,
            &mut self.rest,
            piece,
        );
        match unpacked {
            Ok(opened) => {
                self.opened = opened;
                Ok(())
            }
            Err(fault) => {
                self.fault = Some(fault);
                Err(fault)
            }
        }
    }

    /// All bytes came: their lines, where they keep every rule. `Ok` comes exactly where the bytes are the pack of a good
    /// list, and then with that list; else the fault is that of the bytes. It takes no memory.
    pub fn finish(self) -> Result<Trace, TraceFault>
        ensures ok { IfOk result (λ trace. IsPackOf trace self.bytes) }
        ensures unharmed { OnOk result (self.fault ≡ None) }
        ensures again { (fault : TraceFault) → self.fault ≡ Some fault → result ≡ Err fault }
        ensures err { self.fault ≡ None → IfErr result (HasPackFault self.bytes) }
    {
        match self.fault {
            Some(fault) => return Err(fault),
            None => {}
        }
        self.rules.finish()
    }
}

/// Takes all that is whole of the bytes held back and the piece, and holds back the rest. It says whether the bytes before
/// the first record were taken. After an error what is held back means nothing.
fn unpack(
    alloc: Global,
    rules: &mut Rules,
    opened: bool,
    held: &mut Vec<u8>,
    piece: &[u8],
) -> Result<bool, TraceFault>
    requires before { AreUnpacked rules.old opened held.old.items }
    ensures ok { IfOk result (λ opens. TakesAll rules.old rules.new opened opens
        (held.old.items ++ piece.now) held.new.items) }
    ensures err { IfErr result
        (ShowsIn (unpacked_bytes opened rules.old (held.old.items ++ piece.now))) }
{
    if held.is_empty() {
        let (opens, left) = take_all(alloc, rules, opened, piece)?;
        held.extend_from_slice(left)?;
        return Ok(opens);
    }
    held.extend_from_slice(piece)?;
    let (opens, left) = take_all(alloc, rules, opened, held.as_slice())?;
    if left.len() != held.len() {
        let tail = Vec::from_slice(alloc, left)?;
        *held = tail;
    }
    Ok(opens)
}
