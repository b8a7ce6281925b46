//! The channels on which two threads may meet, with how many offers can stand first on each, and their sum.

ghost use Rattle.std.specs.{Prelude.{◌≡◌, ◌≢◌, ◌≤◌, ◌<◌, ◌==◌, ◌^◌, ◌%◌, ℕ, [], true, false, length, slice_get, Some, OnOk}, List.{IsDistinct, sum_by}};
ghost use Rattle.cml_index.specs.HeadCounts as spec;

use crate::numbers::Numbers;
use std::alloc::{AllocError, Global};
use std::marker::Model;

// Some of the channels, each with a count. To put one in, to count it anew or to take it out takes no memory, and looks at no other.
#[derive(Drop)]
pub(crate) struct HeadCounts {
    channels: Numbers,
    // The count of each number; 0 for one that is not in.
    counts: Vec<usize>,
    // The sum of all counts, modulo 2^64.
    total: usize,
}

impl Model for HeadCounts {
    ghost use Rattle.std.specs.Prelude.{◌≤◌, length};
    ghost use Rattle.cml_index.specs.HeadCounts.{PlainCounts, AreCounts, counts_code};

    ghost Value = { PlainCounts };

    ghost coded = { counts_code };

    ghost view = { λ x. record { items = x.channels.items; size = x.channels.size; counts = x.counts.items } };

    ghost invariant = { λ x. AreCounts x.channels x.counts.items x.total };
}

impl HeadCounts {
    // No channel is in, and none has a place.
    pub(crate) fn new(alloc: Global) -> HeadCounts
        ensures { result.items ≡ [] }
    {
        HeadCounts {
            channels: Numbers::new(alloc),
            counts: Vec::new(alloc),
            total: 0,
        }
    }

    // How many channels are in. None is twice.
    pub(crate) fn len(&self) -> usize
        ensures count { result ≡ length self.now.items }
        ensures once { IsDistinct (λ n m. n == m) self.now.items }
        ensures small { result ≤ 4294967296 }
    {
        // No effect: named here so that the prover knows what holds of it.
        let _total = self.total;
        self.channels.len()
    }

    // The channel at this place among those that are in.
    pub(crate) fn at(&self, i: usize) -> u32
        requires { i < length self.now.items }
        ensures { slice_get self.now.items i ≡ Some result }
    {
        // No effect: named here so that the prover knows what holds of it.
        let _total = self.total;
        self.channels.at(i)
    }

    // Whether the channel is in.
    pub(crate) fn has(&self, number: u32) -> bool
        ensures value { result ≡ spec.has_count self.now number }
        ensures placed { result ≡ true → number < self.now.size }
    {
        // No effect: named here so that the prover knows what holds of it.
        let _total = self.total;
        self.channels.has(number)
    }

    // Gives the channel a place, and each one below it. Mostly it has one.
    #[inline(always)]
    pub(crate) fn make(&mut self, number: u32) -> Result<(), AllocError>
        ensures same { self.new.items ≡ self.old.items }
        ensures counts { (m : ℕ) → spec.head_count_of self.new m ≡ spec.head_count_of self.old m }
        ensures grown { self.old.size ≤ self.new.size }
        ensures there { OnOk result (number < self.new.size) }
    {
        if self.counts.len() <= number as usize {
            return self.grow(number);
        }
        self.channels.make(number)
    }

    // Gives the channel a place, and each one below it.
    #[inline(never)]
    fn grow(&mut self, number: u32) -> Result<(), AllocError>
        ensures same { self.new.items ≡ self.old.items }
        ensures counts { (m : ℕ) → spec.head_count_of self.new m ≡ spec.head_count_of self.old m }
        ensures grown { self.old.size ≤ self.new.size }
        ensures there { OnOk result (number < self.new.size) }
    {
        lengthen(&mut self.counts, number as usize)?;
        self.channels.make(number)
    }

    // Puts the channel in with this count, or counts it anew. It has a place.
    pub(crate) fn put(&mut self, number: u32, count: usize)
        requires { number < self.old.size }
        ensures here { spec.has_count self.new number ≡ true }
        ensures count { spec.head_count_of self.new number ≡ count }
        ensures elsewhere { (m : ℕ) → m ≢ number → spec.has_count self.new m ≡ spec.has_count self.old m }
        ensures beside { (m : ℕ) → m ≢ number → spec.head_count_of self.new m ≡ spec.head_count_of self.old m }
        ensures size { self.new.size ≡ self.old.size }
    {
        self.total = set_count(&mut self.counts, number as usize, count, self.total);
        self.channels.put(number);
    }

    // Takes the channel out.
    pub(crate) fn cut(&mut self, number: u32)
        ensures here { spec.has_count self.new number ≡ false }
        ensures elsewhere { (m : ℕ) → m ≢ number → spec.has_count self.new m ≡ spec.has_count self.old m }
        ensures beside { (m : ℕ) → m ≢ number → spec.head_count_of self.new m ≡ spec.head_count_of self.old m }
        ensures size { self.new.size ≡ self.old.size }
    {
        if self.channels.has(number) {
            self.total = set_count(&mut self.counts, number as usize, 0, self.total);
            self.channels.cut(number);
        }
    }

    // The sum of the counts.
    pub(crate) fn sum(&self) -> usize
        requires { sum_by (spec.head_count_of self.now) self.now.items < 2 ^ 64 }
        ensures { result ≡ sum_by (spec.head_count_of self.now) self.now.items }
    {
        // No effect: named here so that the prover knows what holds of it.
        let _len = self.channels.len();
        self.total
    }
}

// Makes the list long enough for this place. The counts that are added are 0.
fn lengthen(counts: &mut Vec<usize>, place: usize) -> Result<(), AllocError>
    ensures same { (m : ℕ) → spec.count_in counts.new.items m ≡ spec.count_in counts.old.items m }
    ensures grown { length counts.old.items ≤ length counts.new.items }
    ensures sum { spec.all_counts counts.new.items ≡ spec.all_counts counts.old.items }
    ensures there { OnOk result (place < length counts.new.items) }
{
    while counts.len() <= place {
        counts.push(0)?;
    }
    Ok(())
}

// Sets the count at this place. `sum` is the sum of all counts before; the sum after is returned, modulo 2^64 as that one is.
fn set_count(counts: &mut Vec<usize>, place: usize, count: usize, sum: usize) -> usize
    requires within { place < length counts.old.items }
    requires sum { sum ≡ spec.all_counts counts.old.items % 2 ^ 64 }
    ensures here { spec.count_in counts.new.items place ≡ count }
    ensures beside { (m : ℕ) → m ≢ place → spec.count_in counts.new.items m ≡ spec.count_in counts.old.items m }
    ensures len { length counts.new.items ≡ length counts.old.items }
    ensures sum { result ≡ spec.all_counts counts.new.items % 2 ^ 64 }
{
    let was = counts[place];
    counts[place] = count;
    sum.wrapping_sub(was).wrapping_add(count)
}
