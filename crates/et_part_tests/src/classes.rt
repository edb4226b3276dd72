//! Classes that break one rule each, with the fault that JVMS 4 and the profile give them, and
//! classes as javac writes them.

use crate::class_files::{BOX, CELL, POINT, RICH, SHAPE};
use et_class::{ClassFault, read_class};
use std::alloc::{AllocError, Global};
use std::process::Abort;
use std::test::Fail;

/// A change of a class, which breaks a rule, and the fault that the changed class has.
#[derive(Clone, Copy)]
struct Change {
    rule: &'static str,
    /// The place at which the class is changed.
    at: usize,
    /// How many bytes are taken away there.
    removed: usize,
    /// What is put there.
    inserted: &'static [u8],
    kind: u8,
    /// The offset of the fault.
    offset: usize,
}

// A row says the rule, the place, how many bytes go and which come there, and the kind and the offset of the fault.
macro_rules! changes {
    ($($rule:literal: at $at:literal -$removed:literal +$inserted:literal => $kind:literal at $offset:literal;)*) => {
        [$(Change {
            rule: $rule,
            at: $at,
            removed: $removed,
            inserted: $inserted,
            kind: $kind,
            offset: $offset,
        }),*]
    };
}

fn changed(alloc: Global, class: &[u8], change: &Change) -> Result<Vec<u8>, AllocError> {
    let at = change.at.min(class.len());
    let end = at + change.removed.min(class.len() - at);
    let mut bytes = Vec::new(alloc);
    bytes.extend_from_slice(&class[..at])?;
    bytes.extend_from_slice(change.inserted)?;
    bytes.extend_from_slice(&class[end..])?;
    Ok(bytes)
}

/// Box with one change.
static BOXES: [Change; 21] = changes! {
    "the first 0 bytes": at 0 -125 +b"" => 11 at 0;
    "the first 4 bytes": at 4 -121 +b"" => 11 at 4;
    "the first 6 bytes": at 6 -119 +b"" => 11 at 6;
    "the first 8 bytes": at 8 -117 +b"" => 11 at 8;
    "the first 10 bytes": at 10 -115 +b"" => 11 at 10;
    "the first 80 bytes": at 80 -45 +b"" => 11 at 80;
    "the first 92 bytes": at 92 -33 +b"" => 11 at 92;
    "the first 123 bytes": at 123 -2 +b"" => 11 at 123;
    "a byte more": at 125 -0 +b"\0" => 10 at 125;
    "fadd": at 117 -1 +b"b" => 9 at 117;
    "invokedynamic": at 114 -1 +b"\xba" => 9 at 114;
    "major_version 53": at 7 -1 +b"5" => 2 at 6;
    "a Class that names index 4": at 18 -1 +b"\x04" => 3 at 16;
    "no pool": at 8 -2 +b"\0\0" => 3 at 8;
    "tag 2": at 10 -1 +b"\x02" => 3 at 10;
    "the byte 0 in a Utf8": at 13 -1 +b"\0" => 3 at 10;
    "final and abstract": at 80 -2 +b"\x041" => 4 at 80;
    "no superclass": at 84 -2 +b"\0\0" => 3 at 84;
    "an attribute without end": at 102 -4 +b"\xff\xff\xff\xff" => 11 at 106;
    "new of a Utf8": at 116 -1 +b"\x01" => 8 at 114;
    "goto at the end": at 118 -1 +b"\xa7" => 8 at 118;
};

/// The rich class with one change for each rule of both passes.
static RULES: [Change; 108] = changes! {
    "the magic number": at 3 -1 +b"\xbf" => 1 at 0;
    "a version that is too low": at 7 -1 +b"," => 2 at 6;
    "a version that is too high": at 7 -1 +b"5" => 2 at 6;
    "a count of 0": at 9 -1 +b"\0" => 3 at 8;
    "a tag of none": at 669 -1 +b"\x02" => 3 at 669;
    "a Long with one index": at 9 -1 +b"\x02\x05\0\0\0\0\0\0\0\x01" => 3 at 10;
    "a Double with one index": at 9 -1 +b"\x02\x06\0\0\0\0\0\0\0\x01" => 3 at 10;
    "a Utf8 with the byte 0": at 111 -1 +b"\0" => 3 at 108;
    "a Utf8 in four bytes": at 13 -4 +b"\xf0\x90\x80\x80" => 3 at 10;
    "a Utf8 that is cut in a unit": at 111 -1 +b"\xc3" => 3 at 108;
    "a byte behind the last attribute": at 1015 -0 +b"\0" => 10 at 1015;
    "a file that ends in the last attribute": at 1014 -1 +b"" => 11 at 1013;
    "a Class that names no Utf8": at 19 -1 +b"&" => 3 at 17;
    "a Class without a name": at 19 -1 +b"\x1c" => 3 at 17;
    "a Class with a name that begins as an array": at 107 -1 +b" " => 3 at 105;
    "a String that names no Utf8": at 699 -1 +b"\x02" => 3 at 697;
    "a MethodType that names no Utf8": at 702 -1 +b"\0" => 3 at 700;
    "a NameAndType whose name is none": at 719 -1 +b"&" => 3 at 717;
    "a NameAndType whose descriptor is none": at 721 -1 +b"&" => 3 at 717;
    "a Fieldref without a class": at 744 -1 +b"\x01" => 3 at 742;
    "a Methodref without a name and type": at 736 -1 +b"!" => 3 at 732;
    "an InterfaceMethodref without a class": at 739 -1 +b"\0" => 3 at 737;
    "an InvokeDynamic without a name and type": at 756 -1 +b"!" => 3 at 752;
    "an index behind a Long": at 699 -1 +b")" => 3 at 697;
    "this_class is no Class": at 760 -1 +b"\x01" => 3 at 759;
    "this_class is an array": at 760 -1 +b"\x0a" => 3 at 759;
    "super_class is 0": at 762 -1 +b"\0" => 3 at 761;
    "super_class is an array": at 762 -1 +b"\x0c" => 3 at 761;
    "an interface is no Class": at 766 -1 +b"\x01" => 3 at 765;
    "an interface is an array": at 766 -1 +b"\x0c" => 3 at 765;
    "an interface that is not abstract": at 757 -2 +b"\x02\x01" => 4 at 757;
    "an interface that is final": at 757 -2 +b"\x06\x11" => 4 at 757;
    "a class that is final and abstract": at 758 -1 +b"1" => 4 at 757;
    "a public and private field": at 770 -1 +b"\x1b" => 4 at 769;
    "a final and volatile field": at 786 -1 +b"P" => 4 at 785;
    "a field of an interface that is not static": at 757 -2 +b"\x06\x01" => 4 at 785;
    "a private and protected method": at 844 -1 +b"\x06" => 4 at 843;
    "an abstract method that is private": at 836 -1 +b"\x02" => 4 at 835;
    "an abstract method that is static": at 836 -1 +b"\x08" => 4 at 835;
    "an abstract method that is final": at 836 -1 +b"\x10" => 4 at 835;
    "an abstract method that is synchronized": at 836 -1 +b" " => 4 at 835;
    "an abstract method that is native": at 835 -2 +b"\x05\0" => 4 at 835;
    "a field with the descriptor of a method": at 774 -1 +b"\x11" => 5 at 773;
    "a field with a class without a name": at 774 -1 +b"\"" => 5 at 773;
    "a field whose descriptor is no Utf8": at 774 -1 +b"&" => 5 at 773;
    "a method with the descriptor of a field": at 840 -1 +b"\x0f" => 5 at 839;
    "an <init> that answers an int": at 809 -1 +b"\x1f" => 5 at 808;
    "parameters of 255 entries and a receiver": at 840 -1 +b"#" => 5 at 839;
    "a field whose name is no Utf8": at 772 -1 +b"&" => 6 at 769;
    "a method with an empty name": at 838 -1 +b"\x1c" => 6 at 835;
    "two fields of one name and descriptor": at 788 -1 +b"\x0d" => 6 at 785;
    "two methods of one name and descriptor": at 846 -1 +b"\x12" => 6 at 843;
    "a method without code that is neither native nor abstract": at 835 -1 +b"\0" => 6 at 835;
    "a native method with code": at 851 -1 +b"\x01" => 6 at 851;
    "an interface with another superclass than Object": at 757 -6 +b"\x06\x01\0\x02\0\x02"
        => 6 at 761;
    "a field attribute without a name": at 794 -8 +b"&\0\0\0\0" => 7 at 793;
    "a class attribute without a name": at 1008 -7 +b"\0\0\0\0\0" => 7 at 1007;
    "an attribute of code without a name": at 864 -140 +b"\x87\0\x04\0\x03\0\0\0l\x12&W\x14\0(X\
        \xbb\0\x02W\x04\xbd\0\x04W\x04\x04\xc5\0\x0a\x02W\x04\xbc\x0aW\xb2\06W\x1a\xaa\0\0\0\0\0\0\
        \x14\0\0\0\0\0\0\0\0\0\0\0\x14\x1a\xab\0\0\0\0\0\x1b\0\0\0\x02\0\0\0\x01\0\0\0\x1b\0\0\0\
        \x02\0\0\0\x1b\x01\xc0\0\x04W\xb8\04\xb9\05\x01\0\xb6\04\xb7\03\xa7\0\x03\x1fX\x15\0\xac\
        \xbf\0\x01\0\0\0\x07\0k\0\x08\0\x01\0&\0\0\0\x01" => 7 at 993;
    "two ConstantValues": at 792 -1 +b"\x02\0\x17\0\0\0\x03\x01\x02\x03" => 7 at 802;
    "a ConstantValue of a String for an int": at 784 -1 +b"," => 7 at 777;
    "a ConstantValue of three bytes": at 782 -3 +b"\x03\0&\0" => 7 at 777;
    "two Codes": at 858 -0 +b"\x02\0\x18\0\0\0\x8c\0\x04\0\x03\0\0\0l\x12&W\x14\0(X\xbb\0\x02W\x04\
        \xbd\0\x04W\x04\x04\xc5\0\x0a\x02W\x04\xbc\x0aW\xb2\06W\x1a\xaa\0\0\0\0\0\0\x14\0\0\0\0\0\
        \0\0\0\0\0\0\x14\x1a\xab\0\0\0\0\0\x1b\0\0\0\x02\0\0\0\x01\0\0\0\x1b\0\0\0\x02\0\0\0\x1b\
        \x01\xc0\0\x04W\xb8\04\xb9\05\x01\0\xb6\04\xb7\03\xa7\0\x03\x1fX\x15\0\xac\xbf\0\x01\0\0\0\
        \x07\0k\0\x08\0\x01\0\x19\0\0\0\x06\0\x01\0\0\0" => 7 at 1005;
    "a Code whose code passes its end": at 870 -3 +b"\x10\0\0" => 7 at 859;
    "a Code with a byte behind its attributes": at 864 -141 +b"\x8d\0\x04\0\x03\0\0\0l\x12&W\x14\0\
        (X\xbb\0\x02W\x04\xbd\0\x04W\x04\x04\xc5\0\x0a\x02W\x04\xbc\x0aW\xb2\06W\x1a\xaa\0\0\0\0\0\
        \0\x14\0\0\0\0\0\0\0\0\0\0\0\x14\x1a\xab\0\0\0\0\0\x1b\0\0\0\x02\0\0\0\x01\0\0\0\x1b\0\0\0\
        \x02\0\0\0\x1b\x01\xc0\0\x04W\xb8\04\xb9\05\x01\0\xb6\04\xb7\03\xa7\0\x03\x1fX\x15\0\xac\
        \xbf\0\x01\0\0\0\x07\0k\0\x08\0\x01\0\x19\0\0\0\x06\0\x01\0\0\0\x01\0" => 7 at 859;
    "no code": at 864 -127 +b"\x18\0\x04\0\x03\0\0\0\0\0\0" => 8 at 869;
    "an opcode of none": at 980 -1 +b"\xca" => 8 at 980;
    "an instruction that is cut off": at 980 -1 +b"\x11" => 8 at 980;
    "a branch into an instruction": at 974 -1 +b"\x01" => 8 at 972;
    "a switch that leads out of the code": at 909 -4 +b"\xff\xff\xff\x9c" => 8 at 905;
    "a tableswitch with low above high": at 916 -1 +b"\x01" => 8 at 905;
    "a lookupswitch whose keys don't rise": at 940 -1 +b"\x02" => 8 at 926;
    "a local beyond max_locals": at 978 -1 +b"\x03" => 8 at 977;
    "a long whose second entry is beyond max_locals": at 975 -1 +b" " => 8 at 975;
    "arguments beyond max_locals": at 868 -1 +b"\x02" => 8 at 869;
    "ldc of a Utf8": at 874 -1 +b"\x0d" => 8 at 873;
    "ldc2_w of an Integer": at 878 -1 +b"&" => 8 at 876;
    "getstatic of a Methodref": at 902 -1 +b"4" => 8 at 900;
    "invokevirtual of an InterfaceMethodref": at 968 -1 +b"5" => 8 at 966;
    "invokeinterface of a Methodref": at 963 -1 +b"4" => 8 at 961;
    "invokestatic of a Fieldref": at 960 -1 +b"6" => 8 at 958;
    "invokevirtual of <init>": at 968 -1 +b"3" => 8 at 966;
    "invokespecial of <clinit>": at 971 -1 +b"7" => 8 at 969;
    "new of an array": at 882 -1 +b"\x0a" => 8 at 880;
    "new of a Utf8": at 882 -1 +b"\x0d" => 8 at 880;
    "anewarray of 255 dimensions": at 887 -1 +b"%" => 8 at 885;
    "multianewarray of no dimension": at 894 -1 +b"\0" => 8 at 891;
    "multianewarray of three dimensions of two": at 894 -1 +b"\x03" => 8 at 891;
    "newarray of kind 3": at 898 -1 +b"\x03" => 8 at 897;
    "newarray of kind 12": at 898 -1 +b"\x0c" => 8 at 897;
    "a range that starts in an instruction": at 984 -7 +b"\x01\0\x07\0k\0\0" => 8 at 983;
    "a range that ends at its start": at 986 -5 +b"\0\0k\0\0" => 8 at 983;
    "a range that ends in an instruction": at 986 -5 +b"\x01\0k\0\0" => 8 at 983;
    "a range that ends behind the code": at 986 -5 +b"m\0k\0\0" => 8 at 983;
    "a handler in an instruction": at 988 -3 +b"\x01\0\0" => 8 at 983;
    "a catch type that is no Class": at 990 -1 +b"\x0d" => 8 at 983;
    "a field of type float": at 790 -1 +b"\x1d" => 9 at 789;
    "a method with a float": at 840 -1 +b"\x1e" => 9 at 839;
    "fadd": at 980 -1 +b"b" => 9 at 980;
    "invokedynamic": at 980 -1 +b"\xba" => 9 at 980;
    "ldc of a Float": at 874 -1 +b"'" => 9 at 873;
    "ldc of a Class": at 874 -1 +b"\x02" => 9 at 873;
    "ldc of a MethodType": at 874 -1 +b"-" => 9 at 873;
    "ldc of a MethodHandle": at 874 -1 +b"." => 9 at 873;
    "ldc2_w of a Double": at 878 -1 +b"*" => 9 at 876;
    "newarray of float": at 898 -1 +b"\x06" => 9 at 897;
    "checkcast to an array of float": at 956 -1 +b"\x0c" => 9 at 954;
    "of two kinds at one place the least": at 836 -3 +b"\x02\0\x1c" => 4 at 835;
    "of two broken items the first": at 760 -77 +b"\0\0\x04\0\x01\0\x06\0\x02\0\x18\0\x0d\0\x0f\0\
        \x01\0\x17\0\0\0\x02\0&\0\0\0\x0e\0\x0f\0\x01\0\x17\0\0\0\x03\x01\x02\x03\0\x04\0\x01\0\
        \x10\0\x11\0\x01\0\x18\0\0\0\x11\0\x01\0\x01\0\0\0\x05*\xb7\03\xb1\0\0\0\0\x04\x02"
        => 3 at 759;
};

/// Each change makes the class one that has its fault.
fn check_changes(
    rt: &impl Abort,
    alloc: Global,
    class: &[u8],
    changes: &[Change],
) -> Result<(), AllocError> {
    for change in changes {
        let bytes = changed(alloc, class, change)?;
        let fault = read_class(alloc, &bytes).err();
        let wanted = ClassFault::At {
            kind: change.kind,
            offset: change.offset,
        };
        assert_eq!(rt; fault, Some(wanted), "{}", change.rule);
    }
    Ok(())
}

#[test]
fn names_the_first_fault(rt: HostRuntime) -> Result<(), Fail> {
    check_changes(&rt, rt.alloc(), &BOX, &BOXES)?;
    Ok(())
}

#[test]
fn knows_each_rule(rt: HostRuntime) -> Result<(), Fail> {
    check_changes(&rt, rt.alloc(), &RICH, &RULES)?;
    Ok(())
}

#[test]
fn reads_classes(rt: HostRuntime) -> Result<(), Fail> {
    let rich = read_class(rt.alloc(), &RICH)?;
    assert_eq!(rt; rich.fields.iter().map(|f| f.constant).max(), Some(38));
    assert_eq!(rt; rich.methods.iter().filter(|m| m.code.is_some()).count(), 2);
    let point = read_class(rt.alloc(), &POINT)?;
    assert_eq!(rt; point.methods.len(), 6);
    let cell = read_class(rt.alloc(), &CELL)?;
    assert_eq!(rt; cell.methods.iter().filter(|m| m.code.is_some()).count(), 4);
    let shape = read_class(rt.alloc(), &SHAPE)?;
    assert_eq!(rt; shape.fields.len(), 1);
    Ok(())
}
