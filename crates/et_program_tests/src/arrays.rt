//! An array as the owner of a method is Object (JVMS 5.4.3.3; 6.5, invokespecial).

use crate::programs::{HEAD, is_done, library};
use std::test::Fail;

/// The methods of `T`, and how the trace goes on behind the entry of `main`.
#[derive(Clone, Copy)]
struct Methods {
    listing: &'static str,
    trace: &'static str,
}

/// An array has the constructor of Object, and none of its elements.
const CONSTRUCTORS: [Methods; 2] = [
    Methods {
        listing: "method main ([Ljava/lang/String;)V 0009 2 1\nnew T\ndup\n\
         invokespecial [I <init> ()V\npop\nreturn\nend\n",
        trace: "A 2 0 2 2 16 0\nE 6 0 1\nF 7 2\nD 1 5\nD 2 4\nZ 7 0\n",
    },
    Methods {
        listing: "method <init> (I)V 0001 0 2\nreturn\nend\n\
         method main ([Ljava/lang/String;)V 0009 2 1\nnew T\niconst_0\n\
         invokespecial [LT; <init> (I)V\nreturn\nend\n",
        trace: "A 2 0 2 2 16 0\nC 3 java/lang/NoSuchMethodError\nA 4 0 3 3 32 0\n\
         X 5 0 1 3\nF 6 3\nD 1 4\nD 2 4\nD 3 5\nZ 6 0\n",
    },
];

#[test]
fn an_array_has_the_constructor_of_object(rt: HostRuntime) -> Result<(), Fail> {
    let alloc = rt.alloc();
    let mut files = library(alloc)?;
    for Methods { listing, trace } in &CONSTRUCTORS {
        let listing = format!(in alloc; "{HEAD}{listing}")?;
        is_done(alloc, &mut files, &listing, "", trace)?;
    }
    Ok(())
}
