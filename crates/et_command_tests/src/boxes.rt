//! When a replay drops the models that it was given.
ghost use Rattle.std.specs.Prelude.{◌≡◌, ◌<◌};

use crate::commands::FIVE;
use et_base::{NoMemory, Steps};
use et_files::Status;
use et_io::{MemFiles, MemSink};
use et_models::{MarkSweep, SemiSpace};
use et_replay::{Fed, HeapModel, Item, Kind, Policy, Report};
use et_test_runs::elephant;
use std::alloc::Global;
use std::cell::Cell;
use std::marker::Brand;
use std::process::Abort;
use std::rc::Rc;
use std::sync::ledger::{Blank, Ledger};
use std::test::Fail;

/// A model that shares a number with other models and with the test. At each item it puts a digit behind the number: how
/// many share it.
#[derive(Drop)]
struct Watched<M> {
    model: M,
    digits: Rc<Cell<u64>>,
}

impl<M: HeapModel> HeapModel for Watched<M> {
    ghost kind_of = { λ w. M.kind_of w.model };

    ghost is_new = { λ w. M.is_new w.model };

    ghost stands_for = { λ w policy objects past. M.stands_for w.model policy objects past };

    fn kind(&self) -> Kind {
        self.model.kind()
    }

    fn set_policy(&mut self, policy: Policy, objects: u32) -> Result<(), NoMemory> {
        self.model.set_policy(policy, objects)
    }

    fn feed(&mut self, item: &Item) -> Fed {
        let sharers = Rc::strong_count(&self.digits) as u64;
        self.digits
            .set(self.digits.get().wrapping_mul(10).wrapping_add(sharers));
        self.model.feed(item)
    }

    fn report(&self) -> Report {
        self.model.report()
    }
}

/// The answer to these words, which ask for no model but mark-sweep ones: two are there, with another between them.
fn answer_of_three<L: Ledger>(
    alloc: Global,
    words: &[String],
    files: &mut MemFiles,
    digits: &Rc<Cell<u64>>,
    out: &mut MemSink,
    blank: Blank,
) -> Result<Status, Fail>
    requires name { blank.name ≡ L.name }
    requires parts { blank.parts ≡ L.parts }
    requires counts { 0 < L.parts }
{
    let first = Watched {
        model: MarkSweep::begin(alloc),
        digits: digits.clone()?,
    };
    let other = Watched {
        model: SemiSpace::begin(alloc),
        digits: digits.clone()?,
    };
    let last = Watched {
        model: MarkSweep::begin(alloc),
        digits: digits.clone()?,
    };
    let mut models: Vec<Box<dyn HeapModel>> = Vec::new(alloc);
    models.push(Box::new(alloc, first)?)?;
    models.push(Box::new(alloc, other)?)?;
    models.push(Box::new(alloc, last)?)?;
    let mut err = MemSink::begin(alloc, 1000);
    let mut visits = Steps::<L>::begin(blank);
    Ok(elephant(alloc, words, files, out, &mut err, models, &mut visits))
}

/// A model that nobody asked for is gone before the first item, so that two models and the test share the number. The
/// first model is exhausted by the third item, and is gone before the last one has that item.
#[test]
fn models_are_dropped_at_once(rt: HostRuntime) -> Result<(), Fail> {
    let alloc = rt.alloc();
    let mut files = MemFiles::begin(alloc);
    files.hold("T", FIVE)?;
    let mut words = Vec::new(alloc);
    for word in ["replay", "--mark-sweep", "48", "T"] {
        words.push(String::from_str(alloc, word)?)?;
    }
    let digits = Rc::new(alloc, Cell::new(0))?;
    let mut out = MemSink::begin(alloc, 1000);
    let status = answer_of_three::<Brand>(
        alloc,
        &words,
        &mut files,
        &digits,
        &mut out,
        Blank::new(1),
    )?;
    assert_eq!(rt; status, Status::Done);
    assert_eq!(rt; digits.get(), 333_332);
    assert_eq!(rt; Rc::strong_count(&digits), 1);
    let line = "mark-sweep capacity=48 collections=1 marked=48 swept=0 peak=48 exhausted=3\n";
    let wanted = format!(in alloc; "{line}{line}")?;
    assert_eq!(rt; out.bytes(), wanted.as_bytes());
    Ok(())
}
