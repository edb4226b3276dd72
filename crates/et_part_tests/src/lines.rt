//! One line of each kind.
use et_base::{Name, TraceLine};
use et_text::write_line;
use std::alloc::Global;
use std::process::Abort;
use std::test::Fail;

/// Each line is written as its text.
fn are_written(rt: &impl Abort, alloc: Global, rows: &[(TraceLine, &str)]) -> Result<(), Fail> {
    for (line, text) in rows {
        let mut buffer = Vec::new(alloc);
        write_line(line, &mut buffer)?;
        assert_eq!(rt; buffer.as_slice(), text.as_bytes());
    }
    Ok(())
}

// A row says the kind of a line with its numbers, and its text.
macro_rules! rows {
    ($($kind:ident { $($name:ident $value:expr),* } => $text:literal;)*) => {
        [$((TraceLine::$kind { $($name: $value),* }, $text)),*]
    };
}

#[test]
fn classes_and_methods(rt: HostRuntime) -> Result<(), Fail> {
    let alloc = rt.alloc();
    let rows: [(TraceLine, &str); 3] = rows! {
        Header { version 1, interval 10 } => "H 1 10\n";
        Class { number 1, name Name::of(alloc, b"a %\x7f\xc3\x1f~!")? } => "C 1 a%20%25%7F%C3%1F~!\n";
        Method { number 1, class 2, name Name::of(alloc, b"main")?, descriptor Name::of(alloc, b"([Ljava/lang/String;)V")? }
            => "N 1 2 main ([Ljava/lang/String;)V\n";
    };
    are_written(&rt, alloc, &rows)
}

#[test]
fn events(rt: HostRuntime) -> Result<(), Fail> {
    let rows: [(TraceLine, &str); 5] = rows! {
        Alloc { event 3, thread 0, object 2, class 3, size 536870936, length 67108864 } => "A 3 0 2 3 536870936 67108864\n";
        Update { event 22, thread 1, object 0, slot 0, old 3, new 4 } => "U 22 1 0 0 3 4\n";
        Enter { event 17, thread 1, method 4, receiver 0 } => "M 17 1 4 0\n";
        Exit { event 23, thread 1, method 3 } => "E 23 1 3\n";
        Unwind { event 7, thread 0, method 4, exception 2 } => "X 7 0 4 2\n";
    };
    are_written(&rt, rt.alloc(), &rows)
}

#[test]
fn deaths_and_the_end(rt: HostRuntime) -> Result<(), Fail> {
    let rows: [(TraceLine, &str); 3] = rows! {
        Flush { event 1099511627776, deaths 2 } => "F 1099511627776 2\n";
        Death { object 1, time 3 } => "D 1 3\n";
        Finish { event 5, how 0 } => "Z 5 0\n";
    };
    are_written(&rt, rt.alloc(), &rows)
}
