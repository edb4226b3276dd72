//! Small sets of classes: the fault that each has, and what calls and fields of their classes mean (JVMS 5.4.3, 6.5).

ghost use Rattle.std.specs.Prelude.{◌<◌, length, All, IfOk};
ghost use Rattle.et_class.specs.Classes.{HasItsParts};
ghost use Rattle.et_link.specs.Declaring.{HasItsFile};

use crate::class_files::BOX;
use crate::link_files::{
    ALL, BAD, BOTH, GRID, HELD, LEFT, LOOP, LOWER, MID, NEAR, NONE, ONE, OPEN, RIGHT, SUB, TEXT,
    TOP, UPPER,
};
use et_base::{ClassId, MethodId};
use et_class::{ClassFault, ClassFile, read_class};
use et_link::{LinkError, LinkFault, LinkFaultKind, Program, link};
use et_program::{Shown, TextMethod};
use std::alloc::Global;
use std::process::Abort;
use std::test::Fail;

/// The class file of these bytes.
fn read(alloc: Global, source: &[u8]) -> Result<ClassFile, ClassFault>
    ensures parts { IfOk result HasItsParts }
    ensures of_file { IfOk result HasItsFile }
{
    let file = read_class(alloc, source)?;
    Ok(file)
}

/// The class files of these bytes, in order.
fn read_all(alloc: Global, sources: &[&[u8]]) -> Result<Vec<ClassFile>, ClassFault>
    ensures parts { IfOk result (λ files. All HasItsParts files.items) }
    ensures of_files { IfOk result (λ files. All HasItsFile files.items) }
{
    let mut files = Vec::new(alloc);
    'sources: for source in sources {
        let file = read(alloc, source)?;
        files.push(file)?;
    }
    Ok(files)
}

/// The program of these files, or their fault.
pub(crate) fn link_all(
    rt: &impl Abort,
    alloc: Global,
    sources: &[&[u8]],
) -> Result<Result<Program, LinkFault>, ClassFault> {
    let files = read_all(alloc, sources)?;
    assert!(rt; files.len() > 0);
    Ok(link(alloc, files))
}

/// The files have a fault of this kind, at this class.
fn refuses(
    rt: &impl Abort,
    alloc: Global,
    sources: &[&[u8]],
    kind: LinkFaultKind,
    class: &[u8],
) -> Result<(), ClassFault> {
    match link_all(rt, alloc, sources)? {
        Err(
            LinkFault::At {
                kind: found,
                class: name,
            },
        ) => {
            assert_eq!(rt; found, kind);
            assert_eq!(rt; name.as_slice(), class);
        }
        Err(LinkFault::NoMemory) => panic!(rt; "no memory"),
        Ok(_) => panic!(rt; "linked"),
    }
    Ok(())
}

#[test]
fn faults_of_names(rt: HostRuntime) -> Result<(), Fail> {
    let alloc = rt.alloc();
    refuses(&rt, alloc, &[&BOX, &BOX], LinkFaultKind::Duplicate, b"Box")?;
    refuses(
        &rt,
        alloc,
        &[&BAD, &BOX, &BOX],
        LinkFaultKind::Duplicate,
        b"Box",
    )?;
    refuses(&rt, alloc, &[&SUB], LinkFaultKind::NoSuper, b"Sub")?;
    refuses(&rt, alloc, &[&BAD, &SUB], LinkFaultKind::NoSuper, b"Sub")?;
    refuses(&rt, alloc, &[&LOOP], LinkFaultKind::Cycle, b"Loop")?;
    refuses(&rt, alloc, &[&TEXT], LinkFaultKind::FinalSuper, b"Text")?;
    Ok(())
}

#[test]
fn faults_of_methods(rt: HostRuntime) -> Result<(), Fail> {
    let alloc = rt.alloc();
    refuses(
        &rt,
        alloc,
        &[&UPPER, &LOWER],
        LinkFaultKind::CrossPackage,
        b"q/Lower",
    )?;
    refuses(&rt, alloc, &[&BAD], LinkFaultKind::NoMain, b"Bad")?;
    refuses(&rt, alloc, &[&BAD, &BOX], LinkFaultKind::NoMain, b"Bad")?;
    Ok(())
}

#[test]
fn near_redeclares(rt: HostRuntime) -> Result<(), Fail> {
    let program = link_all(&rt, rt.alloc(), &[&UPPER, &NEAR])??;
    assert_eq!(rt; program.class_count(), 48);
    Ok(())
}

#[test]
fn one_box(rt: HostRuntime) -> Result<(), Fail> {
    let program = link_all(&rt, rt.alloc(), &[&BOX])??;
    // 45 built-in classes, Box, and the arrays of strings
    assert_eq!(rt; program.class_count(), 47);
    let class = program.resolve_class(b"Box")?;
    assert_eq!(rt; class, ClassId::new(45));
    assert_eq!(rt; program.class(class).name.as_slice(), b"Box".as_slice());
    let object = program.resolve_class(b"java/lang/Object")?;
    assert_eq!(rt; program.init_order(class), [object, class].as_slice());
    Ok(())
}

#[test]
fn main_of_one_box(rt: HostRuntime) -> Result<(), Fail> {
    let program = link_all(&rt, rt.alloc(), &[&BOX])??;
    let main = program.method(program.main());
    assert_eq!(rt; main.name.as_slice(), b"main".as_slice());
    assert_eq!(rt; main.class, ClassId::new(45));
    assert_eq!(rt; program.file_methods(), [program.main()].as_slice());
    Ok(())
}

#[test]
fn arrays_of_strings(rt: HostRuntime) -> Result<(), Fail> {
    let program = link_all(&rt, rt.alloc(), &[&BOX])??;
    let strings = program.resolve_class(b"[Ljava/lang/String;")?;
    let string = program.resolve_class(b"java/lang/String")?;
    assert_eq!(rt; program.array_over(string), Some(strings));
    assert!(rt; program.pool(strings).is_none());
    let object = program.resolve_class(b"java/lang/Object")?;
    assert!(rt; program.passes(strings, object));
    Ok(())
}

#[test]
fn no_arrays_of_boxes(rt: HostRuntime) -> Result<(), Fail> {
    let program = link_all(&rt, rt.alloc(), &[&BOX])??;
    let class = program.resolve_class(b"Box")?;
    assert_eq!(rt; program.array_over(class), None);
    assert!(rt; program.pool(class).is_some());
    Ok(())
}

#[test]
fn out_is_the_last_static_field(rt: HostRuntime) -> Result<(), Fail> {
    let program = link_all(&rt, rt.alloc(), &[&HELD])??;
    let class = program.resolve_class(b"Held")?;
    let held = program.resolve_field(class, b"held", b"LHeld;")?;
    let system = program.resolve_class(b"java/lang/System")?;
    let out = program.resolve_field(system, b"out", b"Ljava/io/PrintStream;")?;
    assert_eq!(rt; program.statics(), [held, out].as_slice());
    assert_eq!(rt; program.field(held).slot, 0);
    assert_eq!(rt; program.field(out).slot, 1);
    assert_eq!(rt;
        program.resolve_field(system, b"out", b"Ljava/lang/Object;"),
        Err(LinkError::NoSuchField)
    );
    Ok(())
}

/// What a method of a class does with texts.
fn text_method(
    program: &Program,
    class: &[u8],
    name: &[u8],
    descriptor: &[u8],
) -> Result<Option<TextMethod>, LinkError> {
    let class = program.resolve_class(class)?;
    let method = program.resolve_method(class, false, name, descriptor)?;
    Ok(program.text_method(method))
}

#[test]
fn methods_of_texts(rt: HostRuntime) -> Result<(), Fail> {
    let program = link_all(&rt, rt.alloc(), &[&BOX])??;
    let with_text = b"(Ljava/lang/String;)V";
    let builder = b"java/lang/StringBuilder";
    assert_eq!(rt;
        text_method(
            &program,
            builder,
            b"append",
            b"(C)Ljava/lang/StringBuilder;"
        ),
        Ok(Some(TextMethod::Append(Shown::Char)))
    );
    assert_eq!(rt;
        text_method(&program, b"java/io/PrintStream", b"println", with_text),
        Ok(Some(TextMethod::PrintLine(Shown::Text)))
    );
    assert_eq!(rt;
        text_method(&program, builder, b"<init>", with_text),
        Ok(Some(TextMethod::BeginWith))
    );
    // a throwable's constructor has the same name and descriptor
    assert_eq!(rt;
        text_method(&program, b"java/lang/Error", b"<init>", with_text),
        Ok(None)
    );
    Ok(())
}

#[test]
fn arrays_of_arrays(rt: HostRuntime) -> Result<(), Fail> {
    let program = link_all(&rt, rt.alloc(), &[&GRID])??;
    let rows = program.resolve_class(b"[I")?;
    let grid = program.resolve_class(b"[[I")?;
    assert_eq!(rt; program.base_array(10), Some(rows));
    assert_eq!(rt; program.array_over(rows), Some(grid));
    assert_eq!(rt; program.base_array(4), None);
    Ok(())
}

fn class_of(program: &Program, method: Result<MethodId, LinkError>) -> Result<ClassId, LinkError>
    requires { IfOk method (λ m. m < length program.now.methods) }
{
    let method = method?;
    Ok(program.method(method).class)
}

#[test]
fn the_first_is_resolved_and_none_selected(rt: HostRuntime) -> Result<(), Fail> {
    let sources: [&[u8]; 5] = [&BOTH, &ONE, &TOP, &LEFT, &RIGHT];
    let program = link_all(&rt, rt.alloc(), &sources)??;
    let both = program.resolve_class(b"Both")?;
    let top = program.resolve_class(b"Top")?;
    // several are maximally specific (5.4.3.3, 6.5)
    let method = program.resolve_method(both, false, b"m", b"()V")?;
    assert_eq!(rt; program.method(method).class, top);
    assert_eq!(rt;
        program.select(both, method, false),
        Err(LinkError::IncompatibleClassChange)
    );
    Ok(())
}

#[test]
fn the_lower_interface_decides(rt: HostRuntime) -> Result<(), Fail> {
    let sources: [&[u8]; 5] = [&BOTH, &ONE, &TOP, &LEFT, &RIGHT];
    let program = link_all(&rt, rt.alloc(), &sources)??;
    let one = program.resolve_class(b"One")?;
    let left = program.resolve_class(b"Left")?;
    // Left is below Top
    let found = program.resolve_method(one, false, b"m", b"()V");
    assert_eq!(rt; class_of(&program, found), Ok(left));
    let both = program.resolve_class(b"Both")?;
    let method = program.resolve_method(both, false, b"m", b"()V")?;
    assert_eq!(rt;
        class_of(&program, program.select(one, method, true)),
        Ok(left)
    );
    Ok(())
}

#[test]
fn a_common_subinterface_decides(rt: HostRuntime) -> Result<(), Fail> {
    let sources: [&[u8]; 5] = [&ALL, &MID, &TOP, &LEFT, &RIGHT];
    let program = link_all(&rt, rt.alloc(), &sources)??;
    let all = program.resolve_class(b"All")?;
    let mid = program.resolve_class(b"Mid")?;
    // Left and Right each have m, and Mid is below both (5.4.3.3, 6.5)
    let method = program.resolve_method(all, false, b"m", b"()V")?;
    assert_eq!(rt; program.method(method).class, mid);
    assert_eq!(rt;
        class_of(&program, program.select(all, method, false)),
        Ok(mid)
    );
    Ok(())
}

#[test]
fn errors_of_names(rt: HostRuntime) -> Result<(), Fail> {
    let program = link_all(&rt, rt.alloc(), &[&NONE, &OPEN])??;
    assert_eq!(rt;
        program.resolve_class(b"Gone"),
        Err(LinkError::NoClassDefFound)
    );
    let none = program.resolve_class(b"None")?;
    assert_eq!(rt;
        program.resolve_field(none, b"f", b"I"),
        Err(LinkError::NoSuchField)
    );
    assert_eq!(rt;
        program.resolve_method(none, false, b"n", b"()V"),
        Err(LinkError::NoSuchMethod)
    );
    assert_eq!(rt;
        program.resolve_method(none, true, b"m", b"()V"),
        Err(LinkError::IncompatibleClassChange)
    );
    Ok(())
}

#[test]
fn errors_of_names_in_an_interface(rt: HostRuntime) -> Result<(), Fail> {
    let program = link_all(&rt, rt.alloc(), &[&NONE, &OPEN])??;
    let open = program.resolve_class(b"Open")?;
    assert_eq!(rt;
        program.resolve_method(open, true, b"n", b"()V"),
        Err(LinkError::NoSuchMethod)
    );
    assert_eq!(rt;
        program.resolve_method(open, false, b"m", b"()V"),
        Err(LinkError::IncompatibleClassChange)
    );
    Ok(())
}

#[test]
fn errors_of_selection(rt: HostRuntime) -> Result<(), Fail> {
    let program = link_all(&rt, rt.alloc(), &[&NONE, &OPEN])??;
    let none = program.resolve_class(b"None")?;
    let open = program.resolve_class(b"Open")?;
    let method = program.resolve_method(open, true, b"m", b"()V")?;
    assert_eq!(rt;
        program.select(none, method, true),
        Err(LinkError::AbstractMethod)
    );
    let object = program.resolve_class(b"java/lang/Object")?;
    assert_eq!(rt;
        program.select(object, method, true),
        Err(LinkError::IncompatibleClassChange)
    );
    Ok(())
}

// A constructor is that of the class that is named (6.5, invokespecial).
#[test]
fn constructors_are_not_inherited(rt: HostRuntime) -> Result<(), Fail> {
    let program = link_all(&rt, rt.alloc(), &[&NONE, &OPEN])??;
    let none = program.resolve_class(b"None")?;
    let object = program.resolve_class(b"java/lang/Object")?;
    let constructor = program.resolve_method(none, false, b"<init>", b"()V")?;
    assert_eq!(rt;
        program.select_special(none, none, constructor),
        Err(LinkError::NoSuchMethod)
    );
    assert_eq!(rt;
        program.select_special(none, object, constructor),
        Ok(constructor)
    );
    Ok(())
}
