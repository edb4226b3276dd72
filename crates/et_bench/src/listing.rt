//! The listing of `bench`.
ghost use Rattle.std.specs.Prelude.{◌≡◌, ◌≤◌, ◌<◌, ◌^◌, ◌++◌, OnOk, IfOk};
ghost use Rattle.std.specs.Fmt.{decimal};
ghost use Rattle.et_bench.specs.Listing.{bench_listing};

use et_base::NoMemory;
use itoa::Buffer;
use std::alloc::Global;

/// The fields, and `pick` up to the number of cells: the next number of a linear congruence in `x`, and of its upper 31
/// bits the remainder by that number.
const PICK: &str = "\
class Bench java/lang/Object 0021
field next LBench; 0000
field weak Ljava/lang/ref/WeakReference; 0008
field x J 0008
method pick ()I 0009 4 0
getstatic Bench x J
ldc2_w 6364136223846793005
lmul
ldc2_w 1442695040888963407
ladd
dup2
putstatic Bench x J
bipush 33
lushr
ldc2_w ";

/// .. and `main` up to the first number.
const MAIN: &str = "
lrem
l2i
ireturn
end
method main ([Ljava/lang/String;)V 0009 5 5
ldc2_w ";

/// .. up to the length of the array of cells.
const ARRAY: &str = "
putstatic Bench x J
ldc int ";

/// .. in which each cell gets an object,
const FILL: &str = "
anewarray Bench
astore 1
iconst_0
istore 2
fill:
iload 2
ldc int ";

/// .. and then the rounds begin, up to their number.
const ROUNDS: &str = "
if_icmpge work
aload 1
iload 2
new Bench
aastore
iinc 2 1
goto fill
work:
iconst_0
istore 2
loop:
iload 2
ldc int ";

/// A round: a new object takes the place of another, which a cell may have held; each sixteenth is referred to weakly,
/// and what was so before comes back to a cell; and each sixty-fourth throws.
const ROUND: &str = "
if_icmpge done
invokestatic Bench pick ()I
istore 3
new Bench
astore 4
aload 4
aload 1
invokestatic Bench pick ()I
aaload
dup
aconst_null
putfield Bench next LBench;
putfield Bench next LBench;
aload 1
iload 3
aload 4
aastore
iload 2
bipush 15
iand
ifne plain
getstatic Bench weak Ljava/lang/ref/WeakReference;
dup
ifnull first
invokevirtual java/lang/ref/WeakReference get ()Ljava/lang/Object;
checkcast Bench
dup
ifnull first
aload 1
swap
iload 3
swap
aastore
goto renew
first:
pop
renew:
new java/lang/ref/WeakReference
dup
aload 4
invokespecial java/lang/ref/WeakReference <init> (Ljava/lang/Object;)V
putstatic Bench weak Ljava/lang/ref/WeakReference;
plain:
iload 2
bipush 63
iand
a:
iconst_1
swap
idiv
pop
b:
goto next
h:
pop
next:
iinc 2 1
goto loop
done:
return
catch a b h java/lang/ArithmeticException
end
";

/// Puts a text and a number behind it.
fn put(text: &mut Vec<u8>, words: &str, number: u64) -> Result<(), NoMemory>
    ensures { OnOk result (text.new.items ≡ text.old.items ++ (words.now ++ decimal number)) }
{
    let mut digits = Buffer::new();
    text.extend_from_slice(words.as_bytes())?;
    text.extend_from_slice(digits.format(number).as_bytes())?;
    Ok(())
}

/// The listing of a program that makes an array of so many cells and does so many rounds on it, from this first number of
/// its choices on.
pub fn bench_listing(
    alloc: Global,
    number: u64,
    cells: u32,
    rounds: u32,
) -> Result<Vec<u8>, NoMemory>
    requires number { number < 2 ^ 63 }
    requires cells { (1 ≤ cells) × (cells ≤ 50000) }
    requires rounds { rounds ≤ 40000 }
    ensures { IfOk result (λ text. text.items ≡ bench_listing number cells rounds) }
{
    let cells = u64::from(cells);
    let mut text = Vec::new(alloc);
    put(&mut text, PICK, cells)?;
    put(&mut text, MAIN, number)?;
    put(&mut text, ARRAY, cells)?;
    put(&mut text, FILL, cells)?;
    put(&mut text, ROUNDS, u64::from(rounds))?;
    text.extend_from_slice(ROUND.as_bytes())?;
    Ok(text)
}
