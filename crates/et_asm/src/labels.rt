//! The labels of a body.

ghost use Rattle.std.specs.Prelude.{◌≡◌, ℕ, List, OnOk, IfOk};
ghost use Rattle.et_asm.specs.Symbols.{places, define};
ghost use Rattle.et_asm.specs.Code.{labels_of, is_defined, label_place};

use crate::instruction::behind;
use crate::symbols::Symbols;
use et_listing::line::{Line, Parsed};
use et_listing::word::Word;
use indexmap::IndexMap;
use std::alloc::{AllocError, Global};

/// Labels with their places in the code.
pub(crate) type Labels<'a> = IndexMap<Word<'a>, usize>;

/// Whether a label is defined.
pub(crate) fn is_defined(labels: &Labels, name: &Word) -> bool
    ensures { result ≡ is_defined (places labels.now.entries) name.now }
{
    labels.get(name).is_some()
}

/// The place of a label, or 0 where it isn't defined.
pub(crate) fn place_of(labels: &Labels, name: &Word) -> usize
    ensures { result ≡ label_place (places labels.now.entries) name.now }
{
    labels.get(name).copied().unwrap_or(0)
}

/// Defines a label, unless it is defined.
fn define_label<'a>(labels: &mut Labels<'a>, name: &Word<'a>, at: usize) -> Result<(), AllocError>
    ensures { OnOk result ((q : List ℕ) → places labels.new.entries q
        ≡ define at (Line.Label name.now) (places labels.old.entries) q) }
{
    if is_defined(labels, name) {
        return Ok(());
    }
    labels.insert(name.copy(), at)?;
    Ok(())
}

/// Defines the label of a label line, unless it is defined.
pub(crate) fn define<'a>(
    labels: &mut Labels<'a>,
    at: usize,
    line: &Line<'a>,
) -> Result<(), AllocError>
    ensures { OnOk result ((q : List ℕ) →
        places labels.new.entries q ≡ define at line.now (places labels.old.entries) q) }
{
    match line {
        Line::Label(name) => define_label(labels, name, at),
        _ => Ok(()),
    }
}

/// The labels of a body.
pub(crate) fn labels_of<'a>(
    alloc: Global,
    symbols: &Symbols<'a>,
    body: &[Parsed<'a>],
) -> Result<Labels<'a>, AllocError>
    ensures { IfOk result (λ labels. places labels.entries ≡ labels_of symbols.now body.now) }
{
    let mut labels = IndexMap::new(alloc);
    let mut at = 0;
    for p in body {
        define(&mut labels, at, &p.line)?;
        at = behind(symbols, at, &p.line)?;
    }
    Ok(labels)
}
