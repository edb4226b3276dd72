//! The rules on lines.

ghost use Rattle.std.specs.Prelude.{◌≡◌, ◌<◌, ◌^◌, [], ◌∷◌, IfOk, None, true, codes, map, if◌then◌else◌};
ghost use Rattle.std.specs.List.{list_all};
ghost use Rattle.et_base.specs.Marks.{first_from};
ghost use Rattle.et_listing.specs.Lines.{pairs};
ghost use Rattle.et_asm.specs.Pool.{parts, constant_entries};
ghost use Rattle.et_asm.specs.Symbols.{places, stage_marks};
ghost use Rattle.et_asm.specs.Code.{is_defined};
ghost use Rattle.et_asm.specs.Listings.{is_short_text, entry_fits, line_fits, fault_marks, own_marks, uses_defined, no_labels, defines_new, branch_reaches, reaches, body_line_marks, listed_body_marks, outside_marks, listing_marks};

use crate::code::is_catch;
use crate::counts::{Counts, NONE};
use crate::fault::{LABEL, LIMIT, NUMBER, OPERANDS, ORDER, WORD};
use crate::instruction::behind;
use crate::labels::{Labels, define, is_defined, labels_of, place_of};
use crate::order::{Stage, body_of, is_finished, is_inside, may_stand, opens, step};
use crate::symbols::{Symbols, index_of, width};
use et_base::marks::{First, mark};
use et_code::opcode::GOTO_W;
use et_listing::entry::Entry;
use et_listing::instruction::Instruction;
use et_listing::line::{Line, LineFault, Parsed};
use et_listing::spelling::text_len;
use et_listing::word::Word;
use indexmap::IndexMap;
use std::alloc::{AllocError, Global};

fn is_short(text: &Word) -> bool
    ensures { result ≡ is_short_text (Entry.Utf8 text.now) }
{
    text_len(text.bytes()) <= 0xffff
}

/// Whether the texts of an entry are not too long.
fn texts_fit(e: &Entry) -> bool
    ensures { result ≡ list_all is_short_text (parts e.now) }
{
    match e {
        Entry::Integer(_) | Entry::Long(_) => true,
        Entry::Utf8(text) | Entry::Class(text) | Entry::Text(text) => is_short(text),
        Entry::NameAndType(name, descriptor) => is_short(name) && is_short(descriptor),
        Entry::Field(class, name, descriptor)
        | Entry::Method(class, name, descriptor)
        | Entry::InterfaceMethod(class, name, descriptor) => {
            is_short(class) && is_short(name) && is_short(descriptor)
        }
    }
}

/// Whether an entry keeps the limits.
fn entry_fits<'a>(symbols: &Symbols<'a>, e: &Entry<'a>) -> bool
    ensures { result ≡ entry_fits symbols.now e.now }
{
    let index = index_of(symbols, e);
    let texts = texts_fit(e);
    texts && index <= 0xffff - width(e)
}

fn pair_fits<'a>(symbols: &Symbols<'a>, name: &Word<'a>, descriptor: &Word<'a>) -> bool
    ensures { result ≡ list_all (entry_fits symbols.now)
        (Entry.Utf8 name.now ∷ Entry.Utf8 descriptor.now ∷ []) }
{
    let first = entry_fits(symbols, &Entry::Utf8(name.copy()));
    let second = entry_fits(symbols, &Entry::Utf8(descriptor.copy()));
    first && second
}

fn class_fits<'a>(symbols: &Symbols<'a>, name: &Word<'a>) -> bool
    ensures { result ≡ entry_fits symbols.now (Entry.Class name.now) }
{
    entry_fits(symbols, &Entry::Class(name.copy()))
}

/// Whether the entries of an instruction keep the limits.
fn operands_fit<'a>(symbols: &Symbols<'a>, instruction: &Instruction<'a>) -> bool
    ensures { result ≡ line_fits symbols.now (Line.Instruction instruction.now) }
{
    match instruction {
        Instruction::Load(e) => entry_fits(symbols, e),
        Instruction::Pool(_, e) => entry_fits(symbols, e),
        Instruction::Interface(class, name, descriptor) => {
            let e = Entry::InterfaceMethod(class.copy(), name.copy(), descriptor.copy());
            entry_fits(symbols, &e)
        }
        Instruction::Array(class, _) => class_fits(symbols, class),
        _ => true,
    }
}

/// Whether the entries of a line keep the limits.
fn line_fits<'a>(symbols: &Symbols<'a>, line: &Line<'a>) -> bool
    ensures { result ≡ line_fits symbols.now line.now }
{
    match line {
        Line::Class(name, super_name, _) => {
            let first = class_fits(symbols, name);
            let second = class_fits(symbols, super_name);
            first && second
        }
        Line::Interface(name) => class_fits(symbols, name),
        Line::Field(name, descriptor, _, constant) => {
            let texts = pair_fits(symbols, name, descriptor);
            let value = constant_fits(symbols, constant);
            texts && value
        }
        Line::Method(name, descriptor, _, limits) => {
            let texts = pair_fits(symbols, name, descriptor);
            let body = body_fits(symbols, limits.is_some());
            texts && body
        }
        Line::Instruction(instruction) => operands_fit(symbols, instruction),
        Line::Catch(_, _, _, Some(class)) => class_fits(symbols, class),
        _ => true,
    }
}

/// Whether the entries of a field's constant keep the limits.
fn constant_fits<'a>(symbols: &Symbols<'a>, constant: &Option<Entry<'a>>) -> bool
    ensures { result ≡ list_all (entry_fits symbols.now) (constant_entries constant.now) }
{
    match constant {
        None => true,
        Some(e) => {
            let name = entry_fits(symbols, &Entry::Utf8(Word::new(b"ConstantValue")));
            let value = entry_fits(symbols, e);
            name && value
        }
    }
}

/// Whether the name of a method's attribute keeps the limits, where it has one.
fn body_fits(symbols: &Symbols, has_body: bool) -> bool
    ensures { result ≡ (if has_body then entry_fits symbols.now
        (Entry.Utf8 (codes "Code")) else true) }
{
    if has_body {
        entry_fits(symbols, &Entry::Utf8(Word::new(b"Code")))
    } else {
        true
    }
}

/// The first broken rule behind the fault that a line has by itself.
#[tactic(auto, unfolding(et_base::specs::Marks::first_from))]
fn check_fault(first: First, number: usize, fault: Option<LineFault>) -> First
    ensures { result ≡ first_from first (fault_marks number fault) }
{
    match fault {
        None => first,
        Some(LineFault::Word) => mark(first, number, WORD, false),
        Some(LineFault::Operands) => mark(first, number, OPERANDS, false),
        Some(LineFault::Number) => mark(first, number, NUMBER, false),
    }
}

/// The first broken rule behind those of every line.
#[tactic(auto, using(crate::proofs::Marked::marks_more), unfolding(et_base::specs::Marks::first_from))]
fn check_own<'a>(
    first: First,
    symbols: &Symbols<'a>,
    number: usize,
    stage: Stage,
    few: bool,
    p: &Parsed<'a>,
) -> First
    ensures { result ≡ first_from first (own_marks symbols.now number stage few p.now) }
{
    let stands = may_stand(stage, &p.line);
    let fits = line_fits(symbols, &p.line);
    let first = check_fault(first, number, p.fault);
    let first = mark(first, number, ORDER, stands);
    let first = mark(first, number, LIMIT, fits);
    mark(first, number, LIMIT, few)
}

/// Whether labels are defined.
fn are_defined(labels: &Labels, names: &[Word]) -> bool
    ensures { result ≡ list_all (is_defined (places labels.now.entries)) names.now }
{
    names.iter().all(|name| is_defined(labels, name))
}

/// Whether the labels of the pairs of a `lookupswitch` are defined.
fn pairs_defined(labels: &Labels, words: &[Word]) -> bool
    ensures { result
        ≡ list_all (is_defined (places labels.now.entries)) (map (λ p. p.1) (pairs words.now)) }
{
    let mut rest = words;
    while let [_, target, more @ ..] = rest {
        if !is_defined(labels, target) {
            return false;
        }
        rest = more;
    }
    true
}

/// Whether the labels that an instruction uses are defined.
fn targets_defined<'a>(labels: &Labels<'a>, instruction: &Instruction<'a>) -> bool
    ensures { result ≡ uses_defined (places labels.now.entries) (Line.Instruction instruction.now) }
{
    match instruction {
        Instruction::Branch(_, target) => is_defined(labels, target),
        Instruction::Table(_, names, otherwise) => {
            is_defined(labels, otherwise) && are_defined(labels, names.as_slice())
        }
        Instruction::Lookup(words, otherwise) => {
            is_defined(labels, otherwise) && pairs_defined(labels, words.as_slice())
        }
        _ => true,
    }
}

/// Whether the labels that a line uses are defined.
fn uses_defined<'a>(labels: &Labels<'a>, line: &Line<'a>) -> bool
    ensures { result ≡ uses_defined (places labels.now.entries) line.now }
{
    match line {
        Line::Catch(from, to, handler, _) => {
            is_defined(labels, from) && is_defined(labels, to) && is_defined(labels, handler)
        }
        Line::Instruction(instruction) => targets_defined(labels, instruction),
        _ => true,
    }
}

/// Whether a line uses no label.
fn uses_none(line: &Line) -> bool
    ensures { result ≡ uses_defined no_labels line.now }
{
    match line {
        Line::Catch(..) => false,
        Line::Instruction(Instruction::Branch(..))
        | Line::Instruction(Instruction::Table(..))
        | Line::Instruction(Instruction::Lookup(..)) => false,
        _ => true,
    }
}

/// Whether a line defines none of these labels.
fn defines_new<'a>(seen: &Labels<'a>, line: &Line<'a>) -> bool
    ensures { result ≡ defines_new (places seen.now.entries) line.now }
{
    match line {
        Line::Label(name) => !is_defined(seen, name),
        _ => true,
    }
}

/// Whether a branch of 16 bits from a place reaches its label.
fn branch_reaches<'a>(labels: &Labels<'a>, at: usize, opcode: u8, target: &Word<'a>) -> bool
    ensures { result ≡ branch_reaches (places labels.now.entries) at opcode target.now }
{
    let place = place_of(labels, target);
    let near = place <= at.saturating_add(32767) && at <= place.saturating_add(32768);
    let undefined = !is_defined(labels, target);
    opcode == GOTO_W || undefined || near
}

/// Whether the branch of a line reaches its label.
fn reaches<'a>(labels: &Labels<'a>, at: usize, line: &Line<'a>) -> bool
    ensures { result ≡ reaches (places labels.now.entries) at line.now }
{
    match line {
        Line::Instruction(Instruction::Branch(opcode, target)) => {
            branch_reaches(labels, at, *opcode, target)
        }
        _ => true,
    }
}

/// Where a line of a body stands.
#[derive(Clone, Copy)]
struct Spot {
    /// The number of the line.
    number: usize,
    /// Where its code begins in the body, in bytes.
    at: usize,
    /// Where its code ends.
    end: usize,
    /// How many lines up to it, and with it, are a `catch`.
    catches: usize,
}

/// The first broken rule behind those of a line of a body.
#[tactic(auto, unfolding(et_base::specs::Marks::first_from))]
fn check_body_line<'a>(
    first: First,
    labels: &Labels<'a>,
    seen: &Labels<'a>,
    spot: Spot,
    line: &Line<'a>,
) -> First
    ensures { result ≡ first_from first (body_line_marks (places labels.now.entries) spot.number
        (places seen.now.entries) spot.at spot.end spot.catches line.now) }
{
    let new = defines_new(seen, line);
    let defined = uses_defined(labels, line);
    let near = reaches(labels, spot.at, line);
    let first = mark(first, spot.number, LABEL, new);
    let first = mark(first, spot.number, LABEL, defined);
    let first = mark(first, spot.number, LIMIT, near);
    let first = mark(first, spot.number, LIMIT, spot.end <= 0xffff);
    mark(first, spot.number, LIMIT, spot.catches <= 0xffff)
}

/// The first broken rule behind those of a body, whose first line has a number.
fn check_body<'a>(
    first: First,
    alloc: Global,
    symbols: &Symbols<'a>,
    number: usize,
    body: &[Parsed<'a>],
) -> Result<First, AllocError>
    requires { number < 2 ^ 62 }
    ensures { IfOk result
        (λ found. found ≡ first_from first (listed_body_marks symbols.now number
        body.now)) }
{
    let labels = labels_of(alloc, symbols, body)?;
    let mut found = first;
    let mut seen: Labels<'a> = IndexMap::new(alloc);
    let mut at = 0;
    let mut catches = 0;
    for i in 0..body.len() {
        let line = &body[i].line;
        let end = behind(symbols, at, line)?;
        catches += usize::from(is_catch(line));
        let spot = Spot {
            number: number + i,
            at,
            end,
            catches,
        };
        found = check_body_line(found, &labels, &seen, spot, line);
        define(&mut seen, at, line)?;
        at = end;
    }
    Ok(found)
}

/// The first broken rule behind those of a line outside of bodies, and of the body that it opens.
fn check_outside<'a>(
    first: First,
    alloc: Global,
    symbols: &Symbols<'a>,
    number: usize,
    p: &Parsed<'a>,
    more: &[Parsed<'a>],
) -> Result<First, AllocError>
    requires { number < 2 ^ 61 }
    ensures { IfOk result (λ found.
        found ≡ first_from first (outside_marks symbols.now number p.now more.now)) }
{
    let first = mark(first, number, LABEL, uses_none(&p.line));
    if opens(&p.line) {
        return check_body(first, alloc, symbols, number + 1, body_of(more));
    }
    Ok(first)
}

/// What the lines before a line say of it.
#[derive(Clone, Copy)]
struct Before {
    /// Where the listing is.
    stage: Stage,
    /// Whether there are not too many interfaces, fields and methods, with what the line itself declares.
    few: bool,
}

/// The first broken rule behind those of a line.
fn check_line<'a>(
    first: First,
    alloc: Global,
    symbols: &Symbols<'a>,
    number: usize,
    before: Before,
    p: &Parsed<'a>,
    more: &[Parsed<'a>],
) -> Result<First, AllocError>
    requires { number < 2 ^ 61 }
    ensures { IfOk result (λ found. found ≡ first_from first (stage_marks
        symbols.now number before.stage before.few p.now more.now)) }
{
    let first = check_own(first, symbols, number, before.stage, before.few, p);
    if is_inside(before.stage) {
        return Ok(first);
    }
    check_outside(first, alloc, symbols, number, p, more)
}

/// The first broken rule of a listing.
pub(crate) fn check_lines<'a>(
    alloc: Global,
    symbols: &Symbols<'a>,
    lines: &[Parsed<'a>],
) -> Result<First, AllocError>
    ensures { IfOk result (λ found. found ≡ first_from None (listing_marks symbols.now lines.now)) }
{
    let mut found = None;
    let mut stage = Stage::Start;
    let mut counts = NONE;
    for i in 0..lines.len() {
        let p = &lines[i];
        counts = counts.with(&p.line);
        let before = Before {
            stage,
            few: counts.are_few(),
        };
        found = check_line(found, alloc, symbols, i + 1, before, p, &lines[i + 1..])?;
        stage = step(stage, &p.line);
    }
    Ok(mark(found, lines.len() + 1, ORDER, is_finished(stage)))
}
