//! Records become lines, and classes and methods get their numbers.
ghost use Rattle.std.specs.Prelude.{◌≡◌, ◌<◌, ◌++◌, length, All, IfOk, OnOk};
ghost use Rattle.et_base.specs.declared.line.TraceLine.TheVariants.{Class, Method};
ghost use Rattle.et_state.specs.Naming.{IsNamed, methods_named_by, nothing_mentioned, with_new, mentions_after, number_in, class_line, lines_of};
ghost use Rattle.et_binary.specs.Formats.{written_in, lines_written_in};
ghost use Rattle.et_loop.specs.Naming.{mentions_method, method_lines, HasClasses, WritesRecord};

use crate::mentioned::Mentioned;
use crate::program::Program;
use et_base::{ClassId, Format, MethodId, Name, NoMemory, TraceLine};
use et_binary::write_line_in;
use et_state::Record;
use std::alloc::Global;
use std::marker::Model;

/// The classes and methods that a trace mentioned so far, in the order of their numbers.
#[derive(Drop)]
pub struct Numbering {
    alloc: Global,
    classes: Mentioned,
    methods: Mentioned,
}

impl Model for Numbering {
    ghost use Rattle.et_state.specs.Naming.{Mentions};

    ghost Value = { Mentions };

    ghost view = { λ n. record { classes = n.classes; methods = n.methods } };
}

/// Writes the C line of a class.
fn write_class<P: Program>(
    alloc: Global,
    format: Format,
    program: &P,
    class: ClassId,
    number: u32,
    buffer: &mut Vec<u8>,
) -> Result<(), NoMemory>
    requires { class < (P.names program.now).class_count }
    ensures { OnOk result (buffer.new.items ≡ buffer.old.items
        ++ written_in format (Class number ((P.names program.now).class_name class))) }
{
    let name = Name::of(alloc, program.class_name(class))?;
    write_line_in(format, &TraceLine::Class { number, name }, buffer)
}

/// Writes the N line of a method.
fn write_method<P: Program>(
    alloc: Global,
    format: Format,
    program: &P,
    method: MethodId,
    number: u32,
    class: u32,
    buffer: &mut Vec<u8>,
) -> Result<(), NoMemory>
    requires { method < (P.names program.now).method_count }
    ensures { OnOk result (buffer.new.items ≡ buffer.old.items
        ++ written_in format (Method number class ((P.names program.now).method_name method)
        ((P.names program.now).method_descriptor method))) }
{
    let name = Name::of(alloc, program.method_name(method))?;
    let descriptor = Name::of(alloc, program.method_descriptor(method))?;
    let line = TraceLine::Method {
        number,
        class,
        name,
        descriptor,
    };
    write_line_in(format, &line, buffer)
}

impl Numbering {
    /// Nothing was mentioned.
    pub fn begin(alloc: Global) -> Numbering
        ensures { result ≡ nothing_mentioned }
    {
        Numbering {
            alloc,
            classes: Mentioned::begin(alloc),
            methods: Mentioned::begin(alloc),
        }
    }

    /// Mentions a class, with its C line where it is new, and answers its number.
    fn mention_class<P: Program>(
        &mut self,
        format: Format,
        program: &P,
        class: ClassId,
        buffer: &mut Vec<u8>,
    ) -> Result<u32, NoMemory>
        requires { class < (P.names program.now).class_count }
        ensures number { IfOk result (λ n. n ≡ number_in self.new.classes class) }
        ensures mentions { OnOk result
            (self.new ≡ record self.old { classes = with_new self.old.classes class }) }
        ensures lines { OnOk result (buffer.new.items
            ≡ buffer.old.items
            ++ lines_written_in format (class_line (P.names program.now) self.old.classes class)) }
    {
        if let Some(number) = self.classes.number(class.number()) {
            return Ok(number);
        }
        let number = self.classes.add(class.number())?;
        write_class(self.alloc, format, program, class, number, buffer)?;
        Ok(number)
    }

    /// Mentions a method, with its N line where it is new, behind its class, and answers its number. Where it was mentioned,
    /// its class was too, and is not looked for.
    fn mention_method<P: Program>(
        &mut self,
        format: Format,
        program: &P,
        method: MethodId,
        buffer: &mut Vec<u8>,
    ) -> Result<u32, NoMemory>
        requires method { method < (P.names program.now).method_count }
        requires class { (P.names program.now).method_class method
            < (P.names program.now).class_count }
        requires classes { HasClasses (P.names program.now) self.old }
        ensures number { IfOk result (λ n. n ≡ number_in self.new.methods method) }
        ensures mentions { OnOk result
            (self.new ≡ mentions_method (P.names program.now) self.old method) }
        ensures lines { OnOk result (buffer.new.items
            ≡ buffer.old.items
            ++ lines_written_in format (method_lines (P.names program.now) self.old method)) }
    {
        if let Some(number) = self.methods.number(method.number()) {
            return Ok(number);
        }
        let class = self.mention_class(format, program, program.method_class(method), buffer)?;
        let number = self.methods.add(method.number())?;
        write_method(self.alloc, format, program, method, number, class, buffer)?;
        Ok(number)
    }

    /// Writes the lines of a record that mentions a method: it is entered, returns or is left by an exception.
    #[inline]
    fn write_passage<P: Program>(
        &mut self,
        format: Format,
        program: &P,
        entry: Record,
        buffer: &mut Vec<u8>,
    ) -> Result<(), NoMemory>
        requires named { IsNamed (P.names program.now) entry }
        requires method { length (methods_named_by entry) ≡ 1 }
        requires classes { HasClasses (P.names program.now) self.old }
        ensures { OnOk result (WritesRecord (P.names program.now) format entry self.old self.new
            buffer.old.items buffer.new.items) }
    {
        let line = match entry {
            Record::Enter {
                event,
                thread,
                method,
                receiver,
            } => TraceLine::Enter {
                event,
                thread,
                method: self.mention_method(format, program, method, buffer)?,
                receiver,
            },
            Record::Exit {
                event,
                thread,
                method,
            } => TraceLine::Exit {
                event,
                thread,
                method: self.mention_method(format, program, method, buffer)?,
            },
            Record::Unwind {
                event,
                thread,
                method,
                exception,
            } => TraceLine::Unwind {
                event,
                thread,
                method: self.mention_method(format, program, method, buffer)?,
                exception,
            },
            Record::Alloc { .. } | Record::Update { .. } => unreachable!(),
        };
        write_line_in(format, &line, buffer)
    }

    /// Writes the lines of a record.
    #[inline(never)]
    fn write_record<P: Program>(
        &mut self,
        format: Format,
        program: &P,
        entry: Record,
        buffer: &mut Vec<u8>,
    ) -> Result<(), NoMemory>
        requires named { IsNamed (P.names program.now) entry }
        requires classes { HasClasses (P.names program.now) self.old }
        ensures { OnOk result (WritesRecord (P.names program.now) format entry self.old self.new
            buffer.old.items buffer.new.items) }
    {
        let line = match entry {
            Record::Alloc {
                event,
                thread,
                object,
                class,
                size,
                length,
            } => TraceLine::Alloc {
                event,
                thread,
                object,
                class: self.mention_class(format, program, class, buffer)?,
                size,
                length,
            },
            Record::Update {
                event,
                thread,
                object,
                slot,
                old,
                new,
            } => TraceLine::Update {
                event,
                thread,
                object,
                slot,
                old,
                new,
            },
            _ => return self.write_passage(format, program, entry, buffer),
        };
        write_line_in(format, &line, buffer)
    }

    /// Writes the lines of records, in order. Where there are none it returns at once.
    #[inline(always)]
    pub fn write_records<P: Program>(
        &mut self,
        format: Format,
        program: &P,
        records: &[Record],
        buffer: &mut Vec<u8>,
    ) -> Result<(), NoMemory>
        requires named { All (IsNamed (P.names program.now)) records.now }
        requires classes { HasClasses (P.names program.now) self.old }
        ensures classes { OnOk result (HasClasses (P.names program.now) self.new) }
        ensures mentions { OnOk result
            (self.new ≡ mentions_after (P.names program.now) self.old records.now) }
        ensures lines { OnOk result (buffer.new.items
            ≡ buffer.old.items
            ++ lines_written_in format (lines_of (P.names program.now) self.old records.now)) }
    {
        'records: for entry in records {
            self.write_record(format, program, *entry, buffer)?;
        }
        Ok(())
    }
}
