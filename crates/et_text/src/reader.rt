//! Reading the text of a trace in pieces.
ghost use Rattle.std.specs.Prelude.{◌≡◌, ◌++◌, ◌∷◌, [], None, Some, Err, OnOk, IfOk, IfErr};
ghost use Rattle.et_text.specs.Text.{IsOneLine, IsTextOf};

use crate::fault::{AFTER, TraceFault};
use crate::lines::{first_line, take_rest};
use crate::rules::Rules;
use crate::trace::Trace;
use std::alloc::Global;
use std::marker::Model;

/// Reads the text of a trace that comes in pieces, cut anywhere. A contract sees the bytes so far, and the fault that
/// came, if one did. It keeps the lines and what they define, and of the text no more than the line that has not ended.
#[derive(Drop)]
pub struct TextReader {
    alloc: Global,
    rules: Rules,
    /// The last line was taken.
    ended: bool,
    /// The front of a line that has not ended.
    rest: Vec<u8>,
    fault: Option<TraceFault>,
}

impl Model for TextReader {
    ghost use Rattle.et_text.specs.Stream.{Reading, KeepsReading, bytes_read};

    ghost Value = { Reading };

    ghost view = { λ a. record { bytes = bytes_read a.rules a.rest.items; fault = a.fault } };

    ghost invariant = { λ a. KeepsReading a.fault a.rules a.ended a.rest.items };
}

impl TextReader {
    ghost use Rattle.et_text.specs.Stream.{Reading, GrowsBy, StopsReading, HasTextFault};
    ghost use Rattle.et_text.specs.declared.fault.TraceFault.{TraceFault};
    ghost use Rattle.et_text.specs.declared.fault.TraceFault.TheVariants.{NoMemory as OutOfMemory};

    /// No bytes yet.
    pub fn begin(alloc: Global) -> TextReader
        ensures { result ≡ record { bytes = []; fault = None } }
    {
        TextReader {
            alloc,
            rules: Rules::begin(alloc),
            ended: false,
            rest: Vec::new(alloc),
            fault: None,
        }
    }

    /// Takes the next piece of the text. It answers the first line that breaks a rule with the piece that ends that
    /// line, and `Ok` while there is none. After any fault, want of memory too, each further call answers that fault
    /// and changes nothing.
    pub fn feed(&mut self, piece: &[u8]) -> Result<(), TraceFault>
        ensures ok { OnOk result (GrowsBy self.old self.new piece.now) }
        ensures again { (fault : TraceFault) →
            self.old.fault ≡ Some fault → (result ≡ Err fault) × (self.new ≡ self.old) }
        ensures err { self.old.fault ≡ None → IfErr result
            (StopsReading self.old self.new piece.now) }
    {
        match self.fault {
            Some(fault) => return Err(fault),
            None => {}
        }
        let mut rest = piece;
        'lines: while let Some((line, behind)) = first_line(rest) {
            self.end_line(line)?;
            rest = behind;
        }
        self.hold(rest)
    }

    /// The whole text came: its lines, where they keep every rule. `Ok` comes exactly where the bytes are the text of a
    /// good list, and then with that list; else the fault is that of the bytes. It takes no memory.
    pub fn finish(self) -> Result<Trace, TraceFault>
        ensures ok { IfOk result (λ trace. IsTextOf trace self.bytes) }
        ensures unharmed { OnOk result (self.fault ≡ None) }
        ensures again { (fault : TraceFault) → self.fault ≡ Some fault → result ≡ Err fault }
        ensures err { self.fault ≡ None → IfErr result (HasTextFault self.bytes) }
    {
        match self.fault {
            Some(fault) => return Err(fault),
            None => {}
        }
        if self.ended && !self.rest.is_empty() {
            let line = self.rules.next_number();
            return Err(TraceFault::At { kind: AFTER, line });
        }
        self.rules.finish()
    }

    /// Takes the end of a line, without its LF.
    fn end_line(&mut self, line: &[u8]) -> Result<(), TraceFault>
        requires unharmed { self.old.fault ≡ None }
        requires one_line { IsOneLine line.now }
        ensures ok { OnOk result
            (self.new ≡ record self.old { bytes = self.old.bytes ++ (line.now ++ 10 ∷ []) }) }
        ensures err { IfErr result (StopsReading self.old self.new (line.now ++ 10 ∷ [])) }
    {
        let taken = take_rest(
            self.alloc,
            &mut self.rules,
            self.ended,
            &mut self.rest,
            line,
        );
        match taken {
            Ok(last) => {
                self.ended = last;
                self.rest.clear();
                Ok(())
            }
            Err(fault) => {
                self.fault = Some(fault);
                Err(fault)
            }
        }
    }

    /// Holds back the front of a line.
    fn hold(&mut self, front: &[u8]) -> Result<(), TraceFault>
        requires unharmed { self.old.fault ≡ None }
        requires one_line { IsOneLine front.now }
        ensures ok { OnOk result (GrowsBy self.old self.new front.now) }
        ensures err { IfErr result
            (λ fault. (fault ≡ OutOfMemory) × (self.new.fault ≡ Some OutOfMemory)) }
    {
        self.fault = Some(TraceFault::NoMemory);
        self.rest.extend_from_slice(front)?;
        self.fault = None;
        Ok(())
    }
}
