//! Classes, each once.

ghost use Rattle.std.specs.Prelude.{◌≡◌, ℕ, ◌<◌, false, [], length, OnOk};
ghost use Rattle.std.specs.List.{slice_index_or};
ghost use Rattle.et_hierarchy.specs.Search.{AreMarksOf};
ghost use Rattle.et_hierarchy.specs.Ancestry.{class_added};

use et_base::ClassId;
use std::alloc::{AllocError, Global};
use std::marker::Model;

/// Classes, each once, in the order in which they were added. A contract sees the list of them.
#[derive(Drop)]
pub(crate) struct DistinctClasses {
    classes: Vec<ClassId>,
    /// Whether a class is in the list, at its place. The places stay when the classes are taken out.
    marks: Vec<bool>,
}

impl Model for DistinctClasses {
    ghost use Rattle.std.specs.Prelude.{ℕ, List};
    ghost use Rattle.et_hierarchy.specs.Search.{AreMarksOf};

    ghost Value = { List ℕ };

    ghost view = { λ d. d.classes.items };

    ghost invariant = { λ d. AreMarksOf d.classes.items d.marks.items };
}

/// Whether a class is marked.
#[inline]
pub(crate) fn is_marked(marks: &[bool], class: u32) -> bool
    ensures { result ≡ slice_index_or marks.now class false }
{
    match marks.get(class as usize) {
        Some(mark) => *mark,
        None => false,
    }
}

/// Makes places up to this class. What is marked stays so, also where memory runs out, and a new place isn't marked.
fn make_places(marks: &mut Vec<bool>, class: u32) -> Result<(), AllocError>
    ensures long { OnOk result (class < length marks.new.items) }
    ensures kept { (u : ℕ) →
        slice_index_or marks.new.items u false ≡ slice_index_or marks.old.items u false }
{
    let places = class as usize + 1;
    if places <= marks.len() {
        return Ok(());
    }
    marks.resize(places, false)?;
    Ok(())
}

/// Takes away the marks of these classes, which are all that are marked.
fn unmark(marks: &mut Vec<bool>, classes: &[ClassId])
    requires { AreMarksOf classes.now marks.old.items }
    ensures { AreMarksOf [] marks.new.items }
{
    for class in classes {
        marks[class.number() as usize] = false;
    }
}

impl DistinctClasses {
    /// No class yet.
    pub(crate) fn begin(alloc: Global) -> Self
        ensures { result ≡ [] }
    {
        DistinctClasses {
            classes: Vec::new(alloc),
            marks: Vec::new(alloc),
        }
    }

    /// Puts a class behind the others, unless it is one of them.
    #[inline]
    pub(crate) fn add(&mut self, class: u32) -> Result<(), AllocError>
        ensures { OnOk result (self.new ≡ class_added self.old class) }
    {
        if is_marked(self.marks.as_slice(), class) {
            return Ok(());
        }
        make_places(&mut self.marks, class)?;
        self.classes.push(ClassId::new(class))?;
        self.marks[class as usize] = true;
        Ok(())
    }

    /// Takes all classes out. The time is linear in how many they are.
    pub(crate) fn clear(&mut self)
        ensures { self.new ≡ [] }
    {
        unmark(&mut self.marks, self.classes.as_slice());
        self.classes.clear();
    }

    /// The classes in their order.
    pub(crate) fn as_slice(&self) -> &[ClassId]
        ensures { result.now ≡ self.now }
    {
        self.classes.as_slice()
    }
}
