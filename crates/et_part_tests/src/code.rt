//! Code whose faults were worked out by hand from JVMS 4.9.1 and 6.5.

use et_code::{CODE, CheckFault, CodeFault, RawCode, TableRow, UNSUPPORTED, check_code, decode};
use std::test::Fail;

#[test]
fn decodes(rt: HostRuntime) -> Result<(), Fail> {
    // sipush -2
    let (instr, next) = decode(&[0x11, 0xff, 0xfe], 0).ok().ok_or("sipush")?;
    assert_eq!(rt; instr.first, -2);
    assert_eq!(rt; next, 3);
    // wide iinc 258 -1
    let (instr, next) = decode(&[0xc4, 0x84, 1, 2, 0xff, 0xff], 0)
        .ok()
        .ok_or("iinc")?;
    assert_eq!(rt; instr.first, 258);
    assert_eq!(rt; instr.second, -1);
    assert_eq!(rt; next, 6);
    // invokedynamic is refused before its operands are read
    assert_eq!(rt; decode(&[0xba], 0).err(), Some(CodeFault::Unsupported));
    assert_eq!(rt; decode(&[0xc4], 0).err(), Some(CodeFault::Short));
    assert_eq!(rt; decode(&[0xc4, 0x60], 0).err(), Some(CodeFault::Opcode));
    Ok(())
}

/// The first fault of code with one local variable, whose constant pool has a Utf8 at 1, a Class at
/// 2, an Integer at 3, a Float at 4 and a Fieldref at 5.
fn fault_of(rt: &HostRuntime, code: &[u8], table: &[TableRow]) -> Result<Option<CheckFault>, Fail> {
    let body = RawCode {
        max_stack: 2,
        max_locals: 1,
        code: code.to_vec(rt.alloc())?,
        table: table.to_vec(rt.alloc())?,
    };
    Ok(check_code(rt.alloc(), body, &[0, 1, 7, 3, 4, 9]).err())
}

fn code_at(place: usize) -> Option<CheckFault> {
    Some(CheckFault::At { kind: CODE, place })
}

fn unsupported_at(place: usize) -> Option<CheckFault> {
    Some(CheckFault::At {
        kind: UNSUPPORTED,
        place,
    })
}

#[test]
fn checks_instructions(rt: HostRuntime) -> Result<(), Fail> {
    // new 2; pop; return
    assert_eq!(rt; fault_of(&rt, &[0xbb, 0, 2, 0x57, 0xb1], &[])?, None);
    assert_eq!(rt; fault_of(&rt, &[], &[])?, code_at(0));
    // nop; fadd
    assert_eq!(rt; fault_of(&rt, &[0, 0x62], &[])?, unsupported_at(5));
    // nop; new 1, which is no Class
    assert_eq!(rt; fault_of(&rt, &[0, 0xbb, 0, 1], &[])?, code_at(5));
    // ldc 4, which is a Float
    assert_eq!(rt; fault_of(&rt, &[0x12, 4], &[])?, unsupported_at(4));
    // lload_0 needs two local variables
    assert_eq!(rt; fault_of(&rt, &[0x1e, 0xb1], &[])?, code_at(4));
    // goto 2, into its own operands
    assert_eq!(rt; fault_of(&rt, &[0xa7, 0, 2], &[])?, code_at(4));
    // newarray 12, and newarray 7
    assert_eq!(rt; fault_of(&rt, &[0xbc, 12], &[])?, code_at(4));
    assert_eq!(rt; fault_of(&rt, &[0xbc, 7], &[])?, unsupported_at(4));
    Ok(())
}

#[test]
fn checks_rows(rt: HostRuntime) -> Result<(), Fail> {
    let code = [0, 0, 0xb1];
    let good = TableRow {
        start: 0,
        end: 3,
        handler: 2,
        catch: 2,
    };
    let empty = TableRow { end: 0, ..good };
    let outside = TableRow { handler: 3, ..good };
    let utf8 = TableRow { catch: 1, ..good };
    assert_eq!(rt; fault_of(&rt, &code, &[good])?, None);
    assert_eq!(rt; fault_of(&rt, &code, &[good, empty])?, code_at(17));
    assert_eq!(rt; fault_of(&rt, &code, &[outside, empty])?, code_at(9));
    assert_eq!(rt; fault_of(&rt, &code, &[utf8])?, code_at(9));
    Ok(())
}

#[test]
fn chooses(rt: HostRuntime) -> Result<(), Fail> {
    // nop; tableswitch from -1 to 0, default 30, rows 10 and 20
    let table = [
        0, 0xaa, 0, 0, 0, 0, 0, 30, 0xff, 0xff, 0xff, 0xff, 0, 0, 0, 0, 0, 0, 0, 10, 0, 0, 0, 20,
    ];
    let (instr, next) = decode(&table, 1).ok().ok_or("tableswitch")?;
    assert_eq!(rt; next, 24);
    assert_eq!(rt; instr.table, 4);
    Ok(())
}
