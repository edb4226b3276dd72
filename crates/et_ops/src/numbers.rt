//! Operations on numbers.
ghost use Rattle.std.specs.Prelude.{◌≡◌, ◌≢◌};
ghost use Rattle.std.specs.Int.{w32, w64};
ghost use Rattle.et_event.specs.FrameSteps.{StepsRunning};
ghost use Rattle.et_event.specs.Plain.{combine as combination, combined, negated, shifted, values_moved, converted, compared, put_some};
ghost use Rattle.et_event.specs.declared.rows.Number.TheVariants as numbers;
ghost use Rattle.et_event.specs.declared.rows.Conversion.TheVariants as conversions;

use crate::operands::{int_at, long_at, put_int, replace, two_ints, two_longs};
use et_base::{
    Value, add32, add64, and32, and64, cmp64, mul32, mul64, neg32, neg64, or32, or64, shl32, shl64,
    shr32, shr64, sub32, sub64, to_byte, to_char, to_int, to_short, ushr32, ushr64, xor32, xor64,
};
use et_event::{Arithmetic, Conversion, Number, Shift};
use et_state::Running;

#[inline(always)]
fn combine32(operation: Arithmetic, a: i32, b: i32) -> i32
    ensures { result ≡ combination w32 operation a b }
{
    match operation {
        Arithmetic::Add => add32(a, b),
        Arithmetic::Subtract => sub32(a, b),
        Arithmetic::Multiply => mul32(a, b),
        Arithmetic::And => and32(a, b),
        Arithmetic::Or => or32(a, b),
        Arithmetic::Xor => xor32(a, b),
    }
}

#[inline(always)]
fn combine64(operation: Arithmetic, a: i64, b: i64) -> i64
    ensures { result ≡ combination w64 operation a b }
{
    match operation {
        Arithmetic::Add => add64(a, b),
        Arithmetic::Subtract => sub64(a, b),
        Arithmetic::Multiply => mul64(a, b),
        Arithmetic::And => and64(a, b),
        Arithmetic::Or => or64(a, b),
        Arithmetic::Xor => xor64(a, b),
    }
}

#[inline(always)]
fn shift32(shift: Shift, a: i32, count: i32) -> i32
    ensures { result ≡ shifted w32 shift a count }
{
    match shift {
        Shift::Left => shl32(a, count),
        Shift::Right => shr32(a, count),
        Shift::UnsignedRight => ushr32(a, count),
    }
}

#[inline(always)]
fn shift64(shift: Shift, a: i64, count: i32) -> i64
    ensures { result ≡ shifted w64 shift a count }
{
    match shift {
        Shift::Left => shl64(a, count),
        Shift::Right => shr64(a, count),
        Shift::UnsignedRight => ushr64(a, count),
    }
}

/// `iadd`, `isub`, `imul`, `iand`, `ior` and `ixor`.
#[inline(always)]
fn combine_ints(running: &mut Running, operation: Arithmetic, next: u32) -> bool
    ensures { StepsRunning (put_some next
        (combined numbers.Int operation running.old.frame.operands) running.old.frame)
        result running.old running.new }
{
    let Some((a, b)) = two_ints(running) else {
        return false;
    };
    put_int(running, 2, combine32(operation, a, b), next);
    true
}

/// `ladd`, `lsub`, `lmul`, `land`, `lor` and `lxor`.
#[inline(never)]
fn combine_longs(running: &mut Running, operation: Arithmetic, next: u32) -> bool
    ensures { StepsRunning (put_some next
        (combined numbers.Long operation running.old.frame.operands) running.old.frame)
        result running.old running.new }
{
    let Some((a, b)) = two_longs(running) else {
        return false;
    };
    let sum = combine64(operation, a, b);
    replace(running, 4, &[Value::LongHigh, Value::Long(sum)], next)
}

/// `ineg`.
#[inline(always)]
fn negate_int(running: &mut Running, next: u32) -> bool
    ensures { StepsRunning (put_some next (negated numbers.Int running.old.frame.operands)
        running.old.frame) result running.old running.new }
{
    let Some(a) = int_at(running, 0) else {
        return false;
    };
    replace(running, 1, &[Value::Int(neg32(a))], next)
}

/// `lneg`.
#[inline(always)]
fn negate_long(running: &mut Running, next: u32) -> bool
    ensures { StepsRunning (put_some next (negated numbers.Long running.old.frame.operands)
        running.old.frame) result running.old running.new }
{
    let Some(a) = long_at(running, 0) else {
        return false;
    };
    replace(running, 2, &[Value::LongHigh, Value::Long(neg64(a))], next)
}

/// `ishl`, `ishr` and `iushr`.
#[inline(always)]
fn shift_int(running: &mut Running, shift: Shift, next: u32) -> bool
    ensures { StepsRunning (put_some next
        (values_moved numbers.Int shift running.old.frame.operands) running.old.frame)
        result running.old running.new }
{
    let Some((a, count)) = two_ints(running) else {
        return false;
    };
    put_int(running, 2, shift32(shift, a, count), next);
    true
}

/// `lshl`, `lshr` and `lushr`.
#[inline(always)]
fn shift_long(running: &mut Running, shift: Shift, next: u32) -> bool
    ensures { StepsRunning (put_some next
        (values_moved numbers.Long shift running.old.frame.operands) running.old.frame)
        result running.old running.new }
{
    let Some(count) = int_at(running, 0) else {
        return false;
    };
    let Some(a) = long_at(running, 1) else {
        return false;
    };
    let moved = shift64(shift, a, count);
    replace(running, 3, &[Value::LongHigh, Value::Long(moved)], next)
}

/// `lcmp`.
#[inline(never)]
pub(crate) fn compare_longs(running: &mut Running, next: u32) -> bool
    ensures { StepsRunning (put_some next (compared running.old.frame.operands) running.old.frame)
        result running.old running.new }
{
    let Some((a, b)) = two_longs(running) else {
        return false;
    };
    replace(running, 4, &[Value::Int(cmp64(a, b))], next)
}

/// `i2b`, `i2c`, `i2s` and `i2l`.
#[inline(always)]
fn convert_int(running: &mut Running, conversion: Conversion, next: u32) -> bool
    requires { conversion ≢ conversions.LongToInt }
    ensures { StepsRunning (put_some next (converted conversion running.old.frame.operands)
        running.old.frame) result running.old running.new }
{
    let Some(a) = int_at(running, 0) else {
        return false;
    };
    match conversion {
        Conversion::IntToByte => replace(running, 1, &[Value::Int(to_byte(a))], next),
        Conversion::IntToChar => replace(running, 1, &[Value::Int(to_char(a))], next),
        Conversion::IntToShort => replace(running, 1, &[Value::Int(to_short(a))], next),
        Conversion::IntToLong => {
            replace(running, 1, &[Value::LongHigh, Value::Long(a as i64)], next)
        }
        Conversion::LongToInt => unreachable!(),
    }
}

/// `l2i`.
#[inline(always)]
fn long_to_int(running: &mut Running, next: u32) -> bool
    ensures { StepsRunning (put_some next
        (converted conversions.LongToInt running.old.frame.operands) running.old.frame)
        result running.old running.new }
{
    let Some(a) = long_at(running, 0) else {
        return false;
    };
    replace(running, 2, &[Value::Int(to_int(a))], next)
}

/// Two numbers are combined.
#[inline(always)]
pub(crate) fn combine(
    running: &mut Running,
    number: Number,
    operation: Arithmetic,
    next: u32,
) -> bool
    ensures { StepsRunning (put_some next (combined number operation running.old.frame.operands)
        running.old.frame) result running.old running.new }
{
    match number {
        Number::Int => combine_ints(running, operation, next),
        Number::Long => combine_longs(running, operation, next),
    }
}

/// A number is negated.
#[inline(never)]
pub(crate) fn negate_number(running: &mut Running, number: Number, next: u32) -> bool
    ensures { StepsRunning (put_some next (negated number running.old.frame.operands)
        running.old.frame) result running.old running.new }
{
    match number {
        Number::Int => negate_int(running, next),
        Number::Long => negate_long(running, next),
    }
}

/// A number is shifted.
#[inline(never)]
pub(crate) fn shift_number(running: &mut Running, number: Number, shift: Shift, next: u32) -> bool
    ensures { StepsRunning (put_some next (values_moved number shift running.old.frame.operands)
        running.old.frame) result running.old running.new }
{
    match number {
        Number::Int => shift_int(running, shift, next),
        Number::Long => shift_long(running, shift, next),
    }
}

/// A number is converted.
#[inline(never)]
pub(crate) fn convert(running: &mut Running, conversion: Conversion, next: u32) -> bool
    ensures { StepsRunning (put_some next (converted conversion running.old.frame.operands)
        running.old.frame) result running.old running.new }
{
    match conversion {
        Conversion::LongToInt => long_to_int(running, next),
        Conversion::IntToByte
        | Conversion::IntToChar
        | Conversion::IntToShort
        | Conversion::IntToLong => convert_int(running, conversion, next),
    }
}
