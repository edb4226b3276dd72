//! How many objects are live, of each class and in all.
ghost use Rattle.std.specs.Prelude.{◌≡◌, ◌+◌, ◌<◌, ◌^◌, length, replicate, All};
ghost use Rattle.std.specs.List.{sum_by};
ghost use Rattle.et_snapshot.specs.Heap.{objects_of, size_of, no_total, HasClass, IsTotal, AreTotals};

use crate::objects::Entry;

/// A number of objects and their bytes.
#[derive(Clone, Copy, Debug, PartialEq, Eq)]
pub struct Total {
    pub count: u64,
    pub bytes: u64,
}

impl Total {
    pub const NONE: Total = Total { count: 0, bytes: 0 };

    fn add(&mut self, bytes: u64)
        requires count { self.old.count + 1 < 2 ^ 64 }
        requires bytes { self.old.bytes + bytes < 2 ^ 64 }
        ensures count { self.new.count ≡ self.old.count + 1 }
        ensures bytes { self.new.bytes ≡ self.old.bytes + bytes }
    {
        self.count += 1;
        self.bytes += bytes;
    }
}

/// Counts the objects by their classes, of which the totals are empty. The answer is the total of them all.
pub fn count_objects(objects: &[Entry], totals: &mut [Total]) -> Total
    requires empty { totals.old ≡ replicate (length totals.old) no_total }
    requires classes { All (HasClass (length totals.old)) (objects_of objects.now) }
    requires fits { sum_by size_of (objects_of objects.now) < 2 ^ 64 }
    ensures all { IsTotal result (objects_of objects.now) }
    ensures classes { AreTotals totals.new (objects_of objects.now) }
{
    let mut all = Total::NONE;
    for entry in objects {
        if let Some(seen) = &entry.seen {
            totals[seen.class as usize - 1].add(seen.size);
            all.add(seen.size);
        }
    }
    all
}
