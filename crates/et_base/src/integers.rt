//! The arithmetic of int and long (JVMS 2.11.3, 2.11.4, and 6.5 by the names given here). Everything wraps.

ghost use Rattle.std.specs.Prelude.{◌≡◌};
ghost use Rattle.std.specs.Int.{w32, w64};
ghost use Rattle.et_base.specs.Integers.{add, subtract, multiply, negate, and, or, xor, shift_left, shift_right, unsigned_shift_right, divide, remainder, compare};
ghost use Rattle.et_base.specs.Integers.{to_byte as low_byte, to_char as low_char, to_short as low_short, to_int as low_int};

/// The sum (`iadd`).
pub fn add32(a: i32, b: i32) -> i32
    ensures { result ≡ add w32 a b }
{
    a.wrapping_add(b)
}

/// The difference (`isub`).
pub fn sub32(a: i32, b: i32) -> i32
    ensures { result ≡ subtract w32 a b }
{
    a.wrapping_sub(b)
}

/// The product (`imul`).
pub fn mul32(a: i32, b: i32) -> i32
    ensures { result ≡ multiply w32 a b }
{
    a.wrapping_mul(b)
}

/// The number with the other sign (`ineg`).
pub fn neg32(a: i32) -> i32
    ensures { result ≡ negate w32 a }
{
    a.wrapping_neg()
}

/// The bits that both have (`iand`).
pub fn and32(a: i32, b: i32) -> i32
    ensures { result ≡ and w32 a b }
{
    a & b
}

/// The bits that one of both has (`ior`).
pub fn or32(a: i32, b: i32) -> i32
    ensures { result ≡ or w32 a b }
{
    a | b
}

/// The bits that exactly one of both has (`ixor`).
pub fn xor32(a: i32, b: i32) -> i32
    ensures { result ≡ xor w32 a b }
{
    a ^ b
}

/// The bits moved up, by the low 5 bits of the count (`ishl`).
pub fn shl32(a: i32, count: i32) -> i32
    ensures { result ≡ shift_left w32 a count }
{
    a << (count.cast_unsigned() % 32)
}

/// The bits moved down with the sign, by the low 5 bits of the count (`ishr`).
pub fn shr32(a: i32, count: i32) -> i32
    ensures { result ≡ shift_right w32 a count }
{
    a >> (count.cast_unsigned() % 32)
}

/// The bits moved down with zeros, by the low 5 bits of the count (`iushr`).
pub fn ushr32(a: i32, count: i32) -> i32
    ensures { result ≡ unsigned_shift_right w32 a count }
{
    (a.cast_unsigned() >> (count.cast_unsigned() % 32)).cast_signed()
}

/// The quotient, rounded toward zero (`idiv`); `None` exactly where the divisor is 0.
pub fn div32(a: i32, b: i32) -> Option<i32>
    ensures { result ≡ divide w32 a b }
{
    if b == 0 {
        None
    } else {
        Some(a.wrapping_div(b))
    }
}

/// The remainder, of the sign of the dividend (`irem`); `None` exactly where the divisor is 0.
pub fn rem32(a: i32, b: i32) -> Option<i32>
    ensures { result ≡ remainder w32 a b }
{
    if b == 0 {
        None
    } else {
        Some(a.wrapping_rem(b))
    }
}

/// The sum (`ladd`).
pub fn add64(a: i64, b: i64) -> i64
    ensures { result ≡ add w64 a b }
{
    a.wrapping_add(b)
}

/// The difference (`lsub`).
pub fn sub64(a: i64, b: i64) -> i64
    ensures { result ≡ subtract w64 a b }
{
    a.wrapping_sub(b)
}

/// The product (`lmul`).
pub fn mul64(a: i64, b: i64) -> i64
    ensures { result ≡ multiply w64 a b }
{
    a.wrapping_mul(b)
}

/// The number with the other sign (`lneg`).
pub fn neg64(a: i64) -> i64
    ensures { result ≡ negate w64 a }
{
    a.wrapping_neg()
}

/// The bits that both have (`land`).
pub fn and64(a: i64, b: i64) -> i64
    ensures { result ≡ and w64 a b }
{
    a & b
}

/// The bits that one of both has (`lor`).
pub fn or64(a: i64, b: i64) -> i64
    ensures { result ≡ or w64 a b }
{
    a | b
}

/// The bits that exactly one of both has (`lxor`).
pub fn xor64(a: i64, b: i64) -> i64
    ensures { result ≡ xor w64 a b }
{
    a ^ b
}

/// The bits moved up, by the low 6 bits of the count (`lshl`).
pub fn shl64(a: i64, count: i32) -> i64
    ensures { result ≡ shift_left w64 a count }
{
    a << (count.cast_unsigned() % 64)
}

/// The bits moved down with the sign, by the low 6 bits of the count (`lshr`).
pub fn shr64(a: i64, count: i32) -> i64
    ensures { result ≡ shift_right w64 a count }
{
    a >> (count.cast_unsigned() % 64)
}

/// The bits moved down with zeros, by the low 6 bits of the count (`lushr`).
pub fn ushr64(a: i64, count: i32) -> i64
    ensures { result ≡ unsigned_shift_right w64 a count }
{
    (a.cast_unsigned() >> (count.cast_unsigned() % 64)).cast_signed()
}

/// The quotient, rounded toward zero (`ldiv`); `None` exactly where the divisor is 0.
pub fn div64(a: i64, b: i64) -> Option<i64>
    ensures { result ≡ divide w64 a b }
{
    if b == 0 {
        None
    } else {
        Some(a.wrapping_div(b))
    }
}

/// The remainder, of the sign of the dividend (`lrem`); `None` exactly where the divisor is 0.
pub fn rem64(a: i64, b: i64) -> Option<i64>
    ensures { result ≡ remainder w64 a b }
{
    if b == 0 {
        None
    } else {
        Some(a.wrapping_rem(b))
    }
}

/// How two numbers compare (`lcmp`): 1, 0 or -1.
pub fn cmp64(a: i64, b: i64) -> i32
    ensures { result ≡ compare a b }
{
    if b < a {
        1
    } else if a < b {
        -1
    } else {
        0
    }
}

/// The low 8 bits with their sign (`i2b`).
pub fn to_byte(a: i32) -> i32
    ensures { result ≡ low_byte a }
{
    ((a.cast_unsigned() % 0x100) as u8).cast_signed() as i32
}

/// The low 16 bits (`i2c`).
pub fn to_char(a: i32) -> i32
    ensures { result ≡ low_char a }
{
    (a.cast_unsigned() % 0x1_0000) as i32
}

/// The low 16 bits with their sign (`i2s`).
pub fn to_short(a: i32) -> i32
    ensures { result ≡ low_short a }
{
    ((a.cast_unsigned() % 0x1_0000) as u16).cast_signed() as i32
}

/// The low 32 bits with their sign (`l2i`).
pub fn to_int(a: i64) -> i32
    ensures { result ≡ low_int a }
{
    ((a.cast_unsigned() % 0x1_0000_0000) as u32).cast_signed()
}

#[cfg(test)]
mod tests {
    use super::*;
    use std::test::Fail;

    #[test]
    fn divisions_round_toward_zero(rt: HostRuntime) -> Result<(), Fail> {
        assert_eq!(rt; div32(-2147483648, -1), Some(-2147483648));
        assert_eq!(rt; rem32(-2147483648, -1), Some(0));
        assert_eq!(rt; div32(-7, 2), Some(-3));
        assert_eq!(rt; rem32(-7, 2), Some(-1));
        assert_eq!(rt; div64(7, 0), None);
        Ok(())
    }

    #[test]
    fn shifts_go_by_the_low_bits(rt: HostRuntime) -> Result<(), Fail> {
        assert_eq!(rt; shl32(1, 33), 2);
        assert_eq!(rt; ushr32(-1, 28), 15);
        assert_eq!(rt; shl64(1, 65), 2);
        Ok(())
    }

    #[test]
    fn what_does_not_fit_wraps(rt: HostRuntime) -> Result<(), Fail> {
        assert_eq!(rt; to_byte(200), -56);
        assert_eq!(rt; to_char(-1), 65535);
        assert_eq!(rt; to_short(40000), -25536);
        assert_eq!(rt; to_int(4294967297), 1);
        assert_eq!(rt; add32(2147483647, 1), -2147483648);
        Ok(())
    }
}
