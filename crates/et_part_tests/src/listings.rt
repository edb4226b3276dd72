//! Faulty listings with their first fault, and listings at the limits.

use et_asm::{AsmFault, LABEL, LIMIT, NUMBER, OPERANDS, ORDER, WORD, assemble};
use std::alloc::{AllocError, Global};
use std::process::Abort;
use std::test::Fail;

/// Tests that a text is faulty at this line by this kind.
fn faulty(rt: &impl Abort, alloc: Global, text: &str, line: u64, kind: u8) -> Result<(), Fail> {
    let fault = assemble(alloc, text.as_bytes()).err();
    assert_eq!(rt; fault, Some(AsmFault::At { line, kind }), "{text}");
    Ok(())
}

/// A text, or the body of a method, which begins at line 3, and the line of its fault.
type Faulty = (&'static str, u64);

/// Tests that each text is faulty at its line by this kind.
fn are_faulty(rt: &impl Abort, alloc: Global, kind: u8, texts: &[Faulty]) -> Result<(), Fail> {
    for (text, line) in texts {
        faulty(rt, alloc, text, *line, kind)?;
    }
    Ok(())
}

/// Tests that each body of a method is faulty at its line by this kind.
fn bodies_are_faulty(
    rt: &impl Abort,
    alloc: Global,
    kind: u8,
    bodies: &[Faulty],
) -> Result<(), Fail> {
    for (body, line) in bodies {
        let text = format!(in alloc; "class A O 0021\nmethod m ()V 0009 1 1\n{body}")?;
        faulty(rt, alloc, text.as_str(), *line, kind)?;
    }
    Ok(())
}

/// Bodies of a method with a wrong word, and the line of the fault.
static WRONG_WORDS_IN_BODIES: [Faulty; 8] = [
    ("new Box\npopp\nreturn\nend\n", 4),
    ("fadd\nend\n", 3),
    ("wide\nend\n", 3),
    ("ldc_w int 1\nend\n", 3),
    ("ret 1\nend\n", 3),
    ("a :\nend\n", 3),
    ("pop\\t\nend\n", 3),
    ("popp x y\npopq\nend\n", 3),
];

#[test]
fn finds_wrong_words(rt: HostRuntime) -> Result<(), Fail> {
    bodies_are_faulty(&rt, rt.alloc(), WORD, &WRONG_WORDS_IN_BODIES)?;
    Ok(())
}

/// Texts with a wrong operand, and the line of the fault.
static WRONG_OPERANDS: [Faulty; 8] = [
    ("class Box java/lang/Object 21\n", 1),
    ("class Box java/lang/Object 002g\n", 1),
    ("class B%41 O 0021\n", 1),
    ("class B%2f O 0021\n", 1),
    ("class Box\tO 0021\n", 1),
    ("class A O 0021\nmethod m ()V 0009 70000 x\n", 2),
    ("class A O 0021\nfield f I 0000 string\n", 2),
    ("class A O 0021\nfield f I 0000 float 1\n", 2),
];

#[test]
fn finds_wrong_operands(rt: HostRuntime) -> Result<(), Fail> {
    are_faulty(&rt, rt.alloc(), OPERANDS, &WRONG_OPERANDS)?;
    Ok(())
}

/// Bodies of a method with a wrong operand of an instruction, and the line of the fault.
static WRONG_OPERANDS_OF_INSTRUCTIONS: [Faulty; 10] = [
    ("goto b\nb: x\nend\n", 4),
    ("tableswitch 1 default a\na:\nend\n", 3),
    ("lookupswitch 1 default a\na:\nend\n", 3),
    ("ldc string\nend\n", 3),
    ("ldc long 1\nend\n", 3),
    ("iinc 99999 x\nend\n", 3),
    ("newarray Object\nend\n", 3),
    ("goto a-b\nend\n", 3),
    ("end x\n", 3),
    ("a:\ncatch a a a\nend\n", 4),
];

#[test]
fn finds_wrong_operands_of_instructions(rt: HostRuntime) -> Result<(), Fail> {
    bodies_are_faulty(&rt, rt.alloc(), OPERANDS, &WRONG_OPERANDS_OF_INSTRUCTIONS)?;
    Ok(())
}

/// Texts with a wrong number, and the line of the fault.
static WRONG_NUMBERS: [Faulty; 4] = [
    ("class A O 0021\nmethod m ()V 0009 1 70000\n", 2),
    ("class A O 0021\nmethod m ()V 0009 -1 0\n", 2),
    ("class A O 0021\nfield f I 0008 int 2147483648\n", 2),
    (
        "class A O 0021\nfield f J 0008 long -9223372036854775809\n",
        2,
    ),
];

/// Bodies of a method with a wrong number, and the line of the fault.
static WRONG_NUMBERS_IN_BODIES: [Faulty; 7] = [
    ("bipush 128\nend\n", 3),
    ("sipush -32769\nend\n", 3),
    ("iload 65536\nend\n", 3),
    ("iinc 0 32768\nend\n", 3),
    ("multianewarray A 256\nend\n", 3),
    ("tableswitch 2147483647 a a default a\na:\nend\n", 3),
    ("lookupswitch 2147483648 a default a\na:\nend\n", 3),
];

#[test]
fn finds_wrong_numbers(rt: HostRuntime) -> Result<(), Fail> {
    are_faulty(&rt, rt.alloc(), NUMBER, &WRONG_NUMBERS)?;
    bodies_are_faulty(&rt, rt.alloc(), NUMBER, &WRONG_NUMBERS_IN_BODIES)?;
    Ok(())
}

/// Texts with a wrong label, and the line of the fault.
static WRONG_LABELS: [Faulty; 1] = [("class A O 0021\ngoto x\n", 2)];

/// Bodies of a method with a wrong label, and the line of the fault.
static WRONG_LABELS_IN_BODIES: [Faulty; 6] = [
    ("a:\na:\nend\n", 4),
    ("goto b\nend\nb:\n", 3),
    ("goto b\nend\nmethod n ()V 0009 1 1\nb:\nend\n", 3),
    ("a:\ncatch a a b *\nend\n", 4),
    ("a:\ntableswitch 0 a b default a\nend\n", 4),
    ("a:\nlookupswitch 0 a default b\nend\n", 4),
];

#[test]
fn finds_wrong_labels(rt: HostRuntime) -> Result<(), Fail> {
    are_faulty(&rt, rt.alloc(), LABEL, &WRONG_LABELS)?;
    bodies_are_faulty(&rt, rt.alloc(), LABEL, &WRONG_LABELS_IN_BODIES)?;
    Ok(())
}

/// Texts with a wrong order, and the line of the fault.
static WRONG_ORDER: [Faulty; 9] = [
    ("", 1),
    ("\n# x\n", 3),
    ("interface A\nclass A O 0021\n", 1),
    ("class A O 0021\nclass B O 0021\n", 2),
    ("class A O 0021\nfield f I 0000\ninterface B\n", 3),
    ("class A O 0021\nmethod m ()V 0009\nfield f I 0000\n", 3),
    ("class A O 0021\nend\n", 2),
    ("class A O 0021\npop\n", 2),
    ("class A O 0021\nmethod m ()V 0009\na:\n", 3),
];

/// Bodies of a method with a wrong order, and the line of the fault.
static WRONG_ORDER_IN_BODIES: [Faulty; 2] = [
    ("new Box\npop\nreturn\n", 6),
    ("method n ()V 0009\nend\n", 3),
];

#[test]
fn finds_wrong_order(rt: HostRuntime) -> Result<(), Fail> {
    are_faulty(&rt, rt.alloc(), ORDER, &WRONG_ORDER)?;
    bodies_are_faulty(&rt, rt.alloc(), ORDER, &WRONG_ORDER_IN_BODIES)?;
    Ok(())
}

/// A text and then so many times another.
fn repeated(alloc: Global, head: &str, line: &str, count: u32) -> Result<String, AllocError> {
    let mut text = String::from_str(alloc, head)?;
    for _ in 0..count {
        text.push_str(line)?;
    }
    Ok(text)
}

#[test]
fn finds_too_much_in_a_body(rt: HostRuntime) -> Result<(), Fail> {
    let alloc = rt.alloc();
    let head = "class A O 0021\nmethod m ()V 0009 1 1\n";
    let code = repeated(alloc, head, "nop\n", 65_536)?;
    faulty(&rt, alloc, code.as_str(), 65_538, LIMIT)?;
    let catches = repeated(
        alloc,
        "class A O 0021\nmethod m ()V 0009 1 1\na:\n",
        "catch a a a *\n",
        65_536,
    )?;
    faulty(&rt, alloc, catches.as_str(), 65_539, LIMIT)?;
    let jump = "class A O 0021\nmethod m ()V 0009 1 1\ngoto b\n";
    let mut far = repeated(alloc, jump, "nop\n", 32_765)?;
    far.push_str("b:\nend\n")?;
    faulty(&rt, alloc, far.as_str(), 3, LIMIT)?;
    let mut near = repeated(alloc, jump, "nop\n", 32_764)?;
    near.push_str("b:\nend\n")?;
    assert!(rt; assemble(alloc, near.as_str().as_bytes()).is_ok());
    Ok(())
}

#[test]
fn finds_too_many_interfaces_and_too_long_names(rt: HostRuntime) -> Result<(), Fail> {
    let alloc = rt.alloc();
    let interfaces = repeated(alloc, "class A O 0021\n", "interface A\n", 65_536)?;
    faulty(&rt, alloc, interfaces.as_str(), 65_537, LIMIT)?;
    let mut name = repeated(alloc, "class ", "%20", 65_536)?;
    name.push_str(" O 0021\n")?;
    faulty(&rt, alloc, name.as_str(), 1, LIMIT)?;
    Ok(())
}

/// A class with so many fields, of which each has another value.
fn fields(alloc: Global, count: u32) -> Result<String, AllocError> {
    let mut text = String::from_str(alloc, "class A O 0021\n")?;
    for n in 0..count {
        let line = format!(in alloc; "field f I 0008 int {n}\n")?;
        text.push_str(line.as_str())?;
    }
    Ok(text)
}

// Four entries of the two classes and three of the first field, and then one for each value.
#[test]
fn finds_a_full_pool(rt: HostRuntime) -> Result<(), Fail> {
    let alloc = rt.alloc();
    let full = fields(alloc, 65_527)?;
    assert!(rt; assemble(alloc, full.as_str().as_bytes()).is_ok());
    let over = fields(alloc, 65_530)?;
    faulty(&rt, alloc, over.as_str(), 65_529, LIMIT)?;
    Ok(())
}
