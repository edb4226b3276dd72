//! Division.
ghost use Rattle.std.specs.Prelude.{◌≡◌};
ghost use Rattle.std.specs.Int.{w32, w64};
ghost use Rattle.et_event.specs.declared.rows.Number.TheVariants as numbers;
ghost use Rattle.et_event.specs.declared.rows.Row.TheVariants as rows;
ghost use Rattle.et_event.specs.Plain.{divided};
ghost use Rattle.et_event.specs.Sites.{Site};
ghost use Rattle.et_ops.specs.Plain.{KeepsLocals, RunsPlain};

use crate::ends::{PlainEnd, end_of};
use crate::operands::{put_int, replace, two_ints, two_longs};
use et_base::{Value, div32, div64, rem32, rem64};
use et_event::{Division, Number};
use et_state::Running;

#[inline(always)]
fn divide32(division: Division, a: i32, b: i32) -> Option<i32>
    ensures { result ≡ divided w32 division a b }
{
    match division {
        Division::Quotient => div32(a, b),
        Division::Remainder => rem32(a, b),
    }
}

#[inline(always)]
fn divide64(division: Division, a: i64, b: i64) -> Option<i64>
    ensures { result ≡ divided w64 division a b }
{
    match division {
        Division::Quotient => div64(a, b),
        Division::Remainder => rem64(a, b),
    }
}

/// `idiv` and `irem`.
#[inline(always)]
fn divide_ints(running: &mut Running, division: Division, next: u32) -> PlainEnd
    ensures ends { (at : Site) → at.next ≡ next →
        RunsPlain at (rows.Divide numbers.Int division) result running.old running.new }
    ensures stays { KeepsLocals running.old.frame running.new.frame }
{
    let Some((a, b)) = two_ints(running) else {
        return PlainEnd::IllTyped;
    };
    let Some(n) = divide32(division, a, b) else {
        return PlainEnd::More;
    };
    put_int(running, 2, n, next);
    PlainEnd::Done
}

/// `ldiv` and `lrem`.
#[inline(always)]
fn divide_longs(running: &mut Running, division: Division, next: u32) -> PlainEnd
    ensures ends { (at : Site) → at.next ≡ next →
        RunsPlain at (rows.Divide numbers.Long division) result running.old running.new }
    ensures stays { KeepsLocals running.old.frame running.new.frame }
{
    let Some((a, b)) = two_longs(running) else {
        return PlainEnd::IllTyped;
    };
    match divide64(division, a, b) {
        Some(n) => end_of(replace(running, 4, &[Value::LongHigh, Value::Long(n)], next)),
        None => PlainEnd::More,
    }
}

/// Does an `idiv`, `irem`, `ldiv` or `lrem` (JVMS 6.5) whose divisor isn't 0, over the frame that runs, in front of the pc `next`.
#[inline(always)]
pub fn divide(running: &mut Running, number: Number, division: Division, next: u32) -> PlainEnd
    ensures ends { (at : Site) → at.next ≡ next →
        RunsPlain at (rows.Divide number division) result running.old running.new }
    ensures stays { KeepsLocals running.old.frame running.new.frame }
{
    match number {
        Number::Int => divide_ints(running, division, next),
        Number::Long => divide_longs(running, division, next),
    }
}
