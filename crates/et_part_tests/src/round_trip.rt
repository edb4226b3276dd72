//! Listings of which the class files are known, byte for byte, and read back.

use et_asm::assemble;
use et_class::read_class;
use std::alloc::{AllocError, Global};
use std::process::Abort;
use std::test::Fail;

/// The hexadecimal digits of a half byte.
const DIGITS: [u8; 16] = *b"0123456789abcdef";

/// The hexadecimal digits of bytes.
fn digits_of(alloc: Global, bytes: &[u8]) -> Result<Vec<u8>, AllocError> {
    let mut digits = Vec::new(alloc);
    for byte in bytes {
        digits.push(DIGITS[(*byte / 16) as usize])?;
        digits.push(DIGITS[(*byte % 16) as usize])?;
    }
    Ok(digits)
}

/// A listing, the name of its class, and the digits of its class file.
#[derive(Clone, Copy)]
struct Listing {
    name: &'static str,
    text: &'static str,
    digits: &'static str,
}

/// Tests that a listing makes the class file of its digits, and that the reader finds the class in it.
fn makes(rt: &impl Abort, alloc: Global, listing: &Listing) -> Result<(), Fail> {
    let Listing { name, text, digits } = *listing;
    let made = assemble(alloc, text.as_bytes())?;
    let found = digits_of(alloc, made.as_slice())?;
    assert_eq!(rt; found.as_slice(), digits.as_bytes(), "{text}");
    let class = read_class(alloc, made.as_slice())?;
    let found = class.pool.class_name(class.this_class);
    assert_eq!(rt; found, Some(name.as_bytes()), "{text}");
    Ok(())
}

/// Tests that each listing makes its class file.
fn make_all(rt: &impl Abort, alloc: Global, listings: &[Listing]) -> Result<(), Fail> {
    for listing in listings {
        makes(rt, alloc, listing)?;
    }
    Ok(())
}

/// Objects and their fields.
static OBJECTS: [Listing; 7] = [
    Listing {
        name: "Box",
        text: "class Box java/lang/Object 0021\nmethod main ([Ljava/lang/String;)V 0009 1 1\n\
         new Box\npop\nreturn\nend\n",
        digits: "cafebabe000000340008010003426f780700010100106a6176612f6c616e672f4f626a65637407000301\
         00046d61696e010016285b4c6a6176612f6c616e672f537472696e673b2956010004436f646500210002\
         000400000000000100090005000600010007000000110001000100000005bb000257b1000000000000",
    },
    Listing {
        name: "Node",
        text: "class Node java/lang/Object 0021\nfield next LNode; 0000\n\
         method main ([Ljava/lang/String;)V 0009 4 1\nnew Node\nnew Node\ndup2\n\
         putfield Node next LNode;\nswap\nputfield Node next LNode;\nreturn\nend\n",
        digits: "cafebabe00000034000c0100044e6f64650700010100106a6176612f6c616e672f4f626a656374070003\
         0100046e6578740100064c4e6f64653b0100046d61696e010016285b4c6a6176612f6c616e672f537472\
         696e673b2956010004436f64650c00050006090002000a00210002000400000001000000050006000000\
         01000900070008000100090000001b000400010000000fbb0002bb00025cb5000b5fb5000bb100000000\
         0000",
    },
    Listing {
        name: "Chain",
        text: "class Chain java/lang/Object 0021\nfield next LChain; 0000\n\
         method main ([Ljava/lang/String;)V 0009 4 2\nnew Chain\nastore 1\nnew Chain\ndup\n\
         aload 1\nputfield Chain next LChain;\nnew Chain\ndup_x1\nswap\n\
         putfield Chain next LChain;\naconst_null\nastore 1\nnop\nnop\npop\nreturn\nend\n",
        digits: "cafebabe00000034000c010005436861696e0700010100106a6176612f6c616e672f4f626a6563740700\
         030100046e6578740100074c436861696e3b0100046d61696e010016285b4c6a6176612f6c616e672f53\
         7472696e673b2956010004436f64650c00050006090002000a0021000200040000000100000005000600\
         0000010009000700080001000900000029000400020000001dbb00023a01bb0002591901b5000bbb0002\
         5a5fb5000b013a01000057b1000000000000",
    },
    Listing {
        name: "Two",
        text: "class Two java/lang/Object 0021\nmethod main ([Ljava/lang/String;)V 0009 5 1\n\
         new java/lang/ref/WeakReference\ndup\nnew java/lang/ref/WeakReference\ndup\n\
         new Two\ninvokespecial java/lang/ref/WeakReference <init> (Ljava/lang/Object;)V\n\
         invokespecial java/lang/ref/WeakReference <init> (Ljava/lang/Object;)V\nnop\nnop\n\
         invokevirtual java/lang/ref/WeakReference get ()Ljava/lang/Object;\npop\nreturn\n\
         end\n",
        digits: "cafebabe00000034001201000354776f0700010100106a6176612f6c616e672f4f626a65637407000301\
         00046d61696e010016285b4c6a6176612f6c616e672f537472696e673b2956010004436f646501001b6a\
         6176612f6c616e672f7265662f5765616b5265666572656e63650700080100063c696e69743e01001528\
         4c6a6176612f6c616e672f4f626a6563743b29560c000a000b0a0009000c01000367657401001428294c\
         6a6176612f6c616e672f4f626a6563743b0c000e000f0a00090010002100020004000000000001000900\
         05000600010007000000240005000100000018bb000959bb000959bb0002b7000db7000d0000b6001157\
         b1000000000000",
    },
    Listing {
        name: "Big",
        text: "class Big java/lang/Object 0021\nmethod main ([Ljava/lang/String;)V 0009 1 1\n\
         ldc int 67108864\nanewarray java/lang/Object\npop\nreturn\nend\n",
        digits: "cafebabe0000003400090100034269670700010100106a6176612f6c616e672f4f626a65637407000301\
         00046d61696e010016285b4c6a6176612f6c616e672f537472696e673b2956010004436f646503040000\
         00002100020004000000000001000900050006000100070000001300010001000000071208bd000457b1\
         000000000000",
    },
    Listing {
        name: "Big",
        text: "class Big java/lang/Object 0021\nmethod main ([Ljava/lang/String;)V 0009 1 1\n\
         ldc int 67108865\nanewarray java/lang/Object\npop\nreturn\nend\n",
        digits: "cafebabe0000003400090100034269670700010100106a6176612f6c616e672f4f626a65637407000301\
         00046d61696e010016285b4c6a6176612f6c616e672f537472696e673b2956010004436f646503040000\
         01002100020004000000000001000900050006000100070000001300010001000000071208bd000457b1\
         000000000000",
    },
    Listing {
        name: "Ill",
        text: "class Ill java/lang/Object 0021\nmethod main ([Ljava/lang/String;)V 0009 2 1\niadd\n\
         return\nend\n",
        digits: "cafebabe000000340008010003496c6c0700010100106a6176612f6c616e672f4f626a65637407000301\
         00046d61696e010016285b4c6a6176612f6c616e672f537472696e673b2956010004436f646500210002\
         0004000000000001000900050006000100070000000e000200010000000260b1000000000000",
    },
];

#[test]
fn makes_objects(rt: HostRuntime) -> Result<(), Fail> {
    make_all(&rt, rt.alloc(), &OBJECTS)?;
    Ok(())
}

/// Weak references, their queues, and texts.
static REFERENCES: [Listing; 5] = [
    Listing {
        name: "Rev",
        text: "class Rev java/lang/Object 0021\nfield next LRev; 0000\n\
         method main ([Ljava/lang/String;)V 0009 5 1\nnew java/lang/ref/WeakReference\ndup\n\
         new Rev\ndup\nnew Rev\nputfield Rev next LRev;\n\
         invokespecial java/lang/ref/WeakReference <init> (Ljava/lang/Object;)V\nnop\nnop\n\
         dup\ninvokevirtual java/lang/ref/WeakReference get ()Ljava/lang/Object;\nifnull q\n\
         nop\nq:\npop\nreturn\nend\n",
        digits: "cafebabe0000003400160100035265760700010100106a6176612f6c616e672f4f626a65637407000301\
         00046e6578740100054c5265763b0100046d61696e010016285b4c6a6176612f6c616e672f537472696e\
         673b2956010004436f646501001b6a6176612f6c616e672f7265662f5765616b5265666572656e636507\
         000a0c00050006090002000c0100063c696e69743e010015284c6a6176612f6c616e672f4f626a656374\
         3b29560c000e000f0a000b001001000367657401001428294c6a6176612f6c616e672f4f626a6563743b\
         0c001200130a000b00140021000200040000000100000005000600000001000900070008000100090000\
         0029000500010000001dbb000b59bb000259bb0002b5000db70011000059b60015c600040057b1000000\
         000000",
    },
    Listing {
        name: "Clr",
        text: "class Clr java/lang/Object 0021\nfield next LClr; 0000\n\
         method main ([Ljava/lang/String;)V 0009 5 1\nnew java/lang/ref/WeakReference\ndup\n\
         new Clr\ndup\nnew Clr\nputfield Clr next LClr;\n\
         invokespecial java/lang/ref/WeakReference <init> (Ljava/lang/Object;)V\ndup\n\
         invokevirtual java/lang/ref/WeakReference clear ()V\npop\nreturn\nend\n",
        digits: "cafebabe000000340016010003436c720700010100106a6176612f6c616e672f4f626a65637407000301\
         00046e6578740100054c436c723b0100046d61696e010016285b4c6a6176612f6c616e672f537472696e\
         673b2956010004436f646501001b6a6176612f6c616e672f7265662f5765616b5265666572656e636507\
         000a0c00050006090002000c0100063c696e69743e010015284c6a6176612f6c616e672f4f626a656374\
         3b29560c000e000f0a000b0010010005636c6561720100032829560c001200130a000b00140021000200\
         04000000010000000500060000000100090007000800010009000000230005000100000017bb000b59bb\
         000259bb0002b5000db7001159b6001557b1000000000000",
    },
    Listing {
        name: "Que",
        text: "class Que java/lang/Object 0021\nmethod main ([Ljava/lang/String;)V 0009 6 2\n\
         new java/lang/ref/ReferenceQueue\ndup\n\
         invokespecial java/lang/ref/ReferenceQueue <init> ()V\nastore 1\n\
         new java/lang/ref/WeakReference\ndup\nnew Que\naload 1\n\
         invokespecial java/lang/ref/WeakReference <init> (Ljava/lang/Object;Ljava/lang/ref/ReferenceQueue;)V\n\
         nop\npop\nnop\naload 1\n\
         invokevirtual java/lang/ref/ReferenceQueue poll ()Ljava/lang/ref/Reference;\npop\n\
         return\nend\n",
        digits: "cafebabe0000003400170100035175650700010100106a6176612f6c616e672f4f626a65637407000301\
         00046d61696e010016285b4c6a6176612f6c616e672f537472696e673b2956010004436f646501001c6a\
         6176612f6c616e672f7265662f5265666572656e636551756575650700080100063c696e69743e010003\
         2829560c000a000b0a0009000c01001b6a6176612f6c616e672f7265662f5765616b5265666572656e63\
         6507000e010033284c6a6176612f6c616e672f4f626a6563743b4c6a6176612f6c616e672f7265662f52\
         65666572656e636551756575653b29560c000a00100a000f0011010004706f6c6c01001b28294c6a6176\
         612f6c616e672f7265662f5265666572656e63653b0c001300140a000900150021000200040000000000\
         01000900050006000100070000002b000600020000001fbb000959b7000d3a01bb000f59bb00021901b7\
         00120057001901b6001657b1000000000000",
    },
    Listing {
        name: "Str",
        text: "class Str java/lang/Object 0021\nmethod main ([Ljava/lang/String;)V 0009 2 1\n\
         ldc string a\nldc string a\nif_acmpeq q\nnop\nq:\nreturn\nend\n",
        digits: "cafebabe00000034000a0100035374720700010100106a6176612f6c616e672f4f626a65637407000301\
         00046d61696e010016285b4c6a6176612f6c616e672f537472696e673b2956010004436f646501000161\
         0800080021000200040000000000010009000500060001000700000015000200010000000912091209a5\
         000400b1000000000000",
    },
    Listing {
        name: "Hello",
        text: "class Hello java/lang/Object 0021\nmethod main ([Ljava/lang/String;)V 0009 2 1\n\
         getstatic java/lang/System out Ljava/io/PrintStream;\nldc string Hi\n\
         invokevirtual java/io/PrintStream println (Ljava/lang/String;)V\nreturn\nend\n",
        digits: "cafebabe00000034001601000548656c6c6f0700010100106a6176612f6c616e672f4f626a6563740700\
         030100046d61696e010016285b4c6a6176612f6c616e672f537472696e673b2956010004436f64650100\
         106a6176612f6c616e672f53797374656d0700080100036f75740100154c6a6176612f696f2f5072696e\
         7453747265616d3b0c000a000b090009000c010002486908000e0100136a6176612f696f2f5072696e74\
         53747265616d0700100100077072696e746c6e010015284c6a6176612f6c616e672f537472696e673b29\
         560c001200130a0011001400210002000400000000000100090005000600010007000000150002000100\
         000009b2000d120fb60015b1000000000000",
    },
];

#[test]
fn makes_references(rt: HostRuntime) -> Result<(), Fail> {
    make_all(&rt, rt.alloc(), &REFERENCES)?;
    Ok(())
}

/// Exceptions, monitors and calls.
static THROWING: [Listing; 5] = [
    Listing {
        name: "Div",
        text: "class Div java/lang/Object 0021\nmethod main ([Ljava/lang/String;)V 0009 4 1\na:\n\
         new Div\nnew Div\niconst_1\niconst_0\nidiv\nb:\npop\nreturn\n\
         catch a b b java/lang/ArithmeticException\nend\n",
        digits: "cafebabe00000034000a0100034469760700010100106a6176612f6c616e672f4f626a65637407000301\
         00046d61696e010016285b4c6a6176612f6c616e672f537472696e673b2956010004436f646501001d6a\
         6176612f6c616e672f41726974686d65746963457863657074696f6e0700080021000200040000000000\
         01000900050006000100070000001f000400010000000bbb0002bb000204036c57b10001000000090009\
         000900000000",
    },
    Listing {
        name: "Syn",
        text: "class Syn java/lang/Object 0021\nmethod main ([Ljava/lang/String;)V 0009 1 1\na:\n\
         invokestatic Syn f ()V\nb:\nreturn\nh:\npop\nreturn\ncatch a b h *\nend\n\
         method f ()V 0029 1 0\ninvokestatic Syn g ()V\nreturn\nend\nmethod g ()V 0029 1 0\n\
         invokestatic Syn k ()V\nreturn\nend\nmethod k ()V 0029 1 0\naconst_null\nathrow\n\
         end\n",
        digits: "cafebabe00000034001201000353796e0700010100106a6176612f6c616e672f4f626a65637407000301\
         00046d61696e010016285b4c6a6176612f6c616e672f537472696e673b2956010004436f646501000166\
         0100032829560c000800090a0002000a010001670c000c00090a0002000d0100016b0c000f00090a0002\
         0010002100020004000000000004000900050006000100070000001a0001000100000006b8000bb157b1\
         00010000000300040000000000290008000900010007000000100001000000000004b8000eb100000000\
         0029000c000900010007000000100001000000000004b80011b1000000000029000f0009000100070000\
         000e000100000000000201bf000000000000",
    },
    Listing {
        name: "Use",
        text: "class Use java/lang/Object 0021\nmethod main ([Ljava/lang/String;)V 0009 1 1\na:\n\
         getstatic Bad x I\nb:\npop\nreturn\nh:\npop\nc:\ngetstatic Bad x I\nd:\npop\n\
         return\nk:\npop\nreturn\ncatch a b h *\ncatch c d k *\nend\n",
        digits: "cafebabe00000034000e0100035573650700010100106a6176612f6c616e672f4f626a65637407000301\
         00046d61696e010016285b4c6a6176612f6c616e672f537472696e673b2956010004436f646501000342\
         616407000801000178010001490c000a000b090009000c00210002000400000000000100090005000600\
         01000700000029000100010000000db2000d57b157b2000d57b157b10002000000030005000000060009\
         000b000000000000",
    },
    Listing {
        name: "Bad",
        text: "class Bad java/lang/Object 0021\nfield x I 0008\nmethod <clinit> ()V 0008 2 0\n\
         iconst_1\niconst_0\nidiv\npop\nreturn\nend\n",
        digits: "cafebabe00000034000a0100034261640700010100106a6176612f6c616e672f4f626a65637407000301\
         000178010001490100083c636c696e69743e010003282956010004436f64650021000200040000000100\
         0800050006000000010008000700080001000900000011000200000000000504036c57b1000000000000",
    },
    Listing {
        name: "Deep",
        text: "class Deep java/lang/Object 0021\nmethod main ([Ljava/lang/String;)V 0009 1 1\n\
         invokestatic Deep f ()V\nreturn\nend\nmethod f ()V 0009 1 0\n\
         invokestatic Deep f ()V\nreturn\nend\n",
        digits: "cafebabe00000034000c010004446565700700010100106a6176612f6c616e672f4f626a656374070003\
         0100046d61696e010016285b4c6a6176612f6c616e672f537472696e673b2956010004436f6465010001\
         660100032829560c000800090a0002000a00210002000400000000000200090005000600010007000000\
         100001000100000004b8000bb10000000000090008000900010007000000100001000000000004b8000b\
         b1000000000000",
    },
];

#[test]
fn makes_throwing(rt: HostRuntime) -> Result<(), Fail> {
    make_all(&rt, rt.alloc(), &THROWING)?;
    Ok(())
}

/// Threads and monitors.
static THREADS: [Listing; 3] = [
    Listing {
        name: "Wrk",
        text: "class Wrk java/lang/Thread 0021\nfield top Ljava/lang/Object; 0008\n\
         method <init> ()V 0001 1 1\naload 0\ninvokespecial java/lang/Thread <init> ()V\n\
         return\nend\nmethod run ()V 0001 1 1\ninvokestatic Wrk add ()V\nreturn\nend\n\
         method add ()V 0029 1 0\nnew java/lang/Object\n\
         putstatic Wrk top Ljava/lang/Object;\nreturn\nend\n\
         method main ([Ljava/lang/String;)V 0009 2 1\nnew Wrk\ndup\n\
         invokespecial Wrk <init> ()V\ninvokevirtual Wrk start ()V\n\
         invokestatic Wrk add ()V\nreturn\nend\n",
        digits: "cafebabe00000034001a01000357726b0700010100106a6176612f6c616e672f54687265616407000301\
         0003746f700100124c6a6176612f6c616e672f4f626a6563743b0100063c696e69743e01000328295601\
         0004436f64650c000700080a0004000a01000372756e0100036164640c000d00080a0002000e0100106a\
         6176612f6c616e672f4f626a6563740700100c0005000609000200120100046d61696e010016285b4c6a\
         6176612f6c616e672f537472696e673b29560a0002000a01000573746172740c001700080a0002001800\
         210002000400000001000800050006000000040001000700080001000900000012000100010000000619\
         00b7000bb1000000000001000c000800010009000000100001000100000004b8000fb100000000002900\
         0d000800010009000000130001000000000007bb0011b30013b100000000000900140015000100090000\
         001a000200010000000ebb000259b70016b60019b8000fb1000000000000",
    },
    Listing {
        name: "Mon",
        text: "class Mon java/lang/Object 0021\nmethod main ([Ljava/lang/String;)V 0009 2 1\n\
         new Mon\nmonitorexit\nreturn\nend\n",
        digits: "cafebabe0000003400080100034d6f6e0700010100106a6176612f6c616e672f4f626a65637407000301\
         00046d61696e010016285b4c6a6176612f6c616e672f537472696e673b2956010004436f646500210002\
         000400000000000100090005000600010007000000110002000100000005bb0002c3b1000000000000",
    },
    Listing {
        name: "Slf",
        text: "class Slf java/lang/Thread 0021\nmethod <init> ()V 0001 1 1\naload 0\n\
         invokespecial java/lang/Thread <init> ()V\nreturn\nend\nmethod run ()V 0001 1 1\n\
         aload 0\ninvokevirtual Slf join ()V\nreturn\nend\n\
         method main ([Ljava/lang/String;)V 0009 2 1\nnew Slf\ndup\n\
         invokespecial Slf <init> ()V\ninvokevirtual Slf start ()V\nreturn\nend\n",
        digits: "cafebabe000000340014010003536c660700010100106a6176612f6c616e672f54687265616407000301\
         00063c696e69743e010003282956010004436f64650c000500060a0004000801000372756e0100046a6f\
         696e0c000b00060a0002000c0100046d61696e010016285b4c6a6176612f6c616e672f537472696e673b\
         29560a0002000801000573746172740c001100060a000200120021000200040000000000030001000500\
         06000100070000001200010001000000061900b70009b1000000000001000a0006000100070000001200\
         010001000000061900b6000db1000000000009000e000f0001000700000017000200010000000bbb0002\
         59b70010b60013b1000000000000",
    },
];

#[test]
fn makes_threads(rt: HostRuntime) -> Result<(), Fail> {
    make_all(&rt, rt.alloc(), &THREADS)?;
    Ok(())
}

/// What is left: an array of arrays, an error, and a superclass that is not there.
static OTHERS: [Listing; 3] = [
    Listing {
        name: "Mul",
        text: "class Mul java/lang/Object 0021\nmethod main ([Ljava/lang/String;)V 0009 2 1\n\
         iconst_2\niconst_1\nmultianewarray [[I 2\npop\nreturn\nend\n",
        digits: "cafebabe00000034000a0100034d756c0700010100106a6176612f6c616e672f4f626a65637407000301\
         00046d61696e010016285b4c6a6176612f6c616e672f537472696e673b2956010004436f64650100035b\
         5b49070008002100020004000000000001000900050006000100070000001400020001000000080504c5\
         00090257b1000000000000",
    },
    Listing {
        name: "Sev",
        text: "class Sev java/lang/Object 0021\nmethod main ([Ljava/lang/String;)V 0009 1 1\n\
         new Sev\nathrow\nend\n",
        digits: "cafebabe0000003400080100035365760700010100106a6176612f6c616e672f4f626a65637407000301\
         00046d61696e010016285b4c6a6176612f6c616e672f537472696e673b2956010004436f646500210002\
         000400000000000100090005000600010007000000100001000100000004bb0002bf000000000000",
    },
    Listing {
        name: "Sub",
        text: "class Sub Gone 0021\nmethod main ([Ljava/lang/String;)V 0009 1 1\nreturn\nend\n",
        digits: "cafebabe000000340008010003537562070001010004476f6e650700030100046d61696e010016285b4c\
         6a6176612f6c616e672f537472696e673b2956010004436f646500210002000400000000000100090005\
         0006000100070000000d0001000100000001b1000000000000",
    },
];

#[test]
fn makes_others(rt: HostRuntime) -> Result<(), Fail> {
    make_all(&rt, rt.alloc(), &OTHERS)?;
    Ok(())
}

// The example of docs/listings.md.
#[test]
fn reads_the_example(rt: HostRuntime) -> Result<(), Fail> {
    let text = "# two objects that refer to each other, and a third that dies at once\n\
         class Pair java/lang/Object 0021\nfield next LPair; 0000\n\
         field count I 0008 int 3\n\nmethod main ([Ljava/lang/String;)V 0009 3 2\n  \
         new Pair\n  astore 1\n  new Pair\n  dup\n  aload 1\n  \
         putfield Pair next LPair;\n  aload 1\n  swap\n  putfield Pair next LPair;\n\
         from:\n  new Pair\nto:\n  ifnonnull done\n  goto from\ndone:\n  return\n\
         handler:\n  athrow\n  catch from to handler java/lang/RuntimeException\nend\n\
         method idle ()V 0109\n";
    let made = assemble(rt.alloc(), text.as_bytes())?;
    let class = read_class(rt.alloc(), made.as_slice())?;
    let name = class.pool.class_name(class.this_class);
    assert_eq!(rt; name, Some("Pair".as_bytes()));
    assert_eq!(rt; class.access_flags, 0x21);
    assert_eq!(rt; class.fields.len(), 2);
    assert_eq!(rt; class.methods.len(), 2);
    Ok(())
}
