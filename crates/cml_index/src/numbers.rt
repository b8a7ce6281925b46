//! A set of numbers, each with its place in the list of them.

ghost use Rattle.std.specs.Prelude.{◌≡◌, ◌≢◌, ◌≤◌, ◌<◌, ◌+◌, ◌-◌, ◌==◌, ℕ, [], true, false, length, slice_get, slice_set, slice_index, Some, OnOk, vec_len};
ghost use Rattle.std.specs.List.{IsDistinct};
ghost use Rattle.cml_index.specs.Numbers as spec;

use std::alloc::{AllocError, Global};
use std::marker::Model;

// Some of the numbers below a bound. To put one in or to take one out takes no memory, and looks at no other.
#[derive(Drop)]
pub(crate) struct Numbers {
    // All numbers below the bound: first those that are in.
    order: Vec<u32>,
    // Where each number stands there.
    places: Vec<u32>,
    // How many are in.
    count: usize,
}

impl Model for Numbers {
    ghost use Rattle.std.specs.Prelude.{◌≤◌, vec_len, take, length};
    ghost use Rattle.cml_index.specs.Numbers.{PlainNumbers, ArePlaced, numbers_code};

    ghost Value = { PlainNumbers };

    ghost coded = { numbers_code };

    ghost view = { λ x. record { items = take x.count x.order.items; size = length x.order.items } };

    ghost invariant = { λ x. ArePlaced x.order.items x.places.items × (x.count ≤ length x.order.items) };
}

impl Numbers {
    // No number is in, and none has a place.
    pub(crate) fn new(alloc: Global) -> Numbers
        ensures items { result.items ≡ [] }
        ensures size { result.size ≡ 0 }
    {
        Numbers {
            order: Vec::new(alloc),
            places: Vec::new(alloc),
            count: 0,
        }
    }

    // How many numbers are in. None is twice.
    pub(crate) fn len(&self) -> usize
        ensures count { result ≡ length self.now.items }
        ensures once { IsDistinct (λ n m. n == m) self.now.items }
        ensures small { result ≤ 4294967296 }
    {
        self.count
    }

    // The number at this place among those that are in.
    pub(crate) fn at(&self, i: usize) -> u32
        requires { i < length self.now.items }
        ensures { slice_get self.now.items i ≡ Some result }
    {
        // No effect: named here so that the prover knows what holds of it.
        let _count = self.count;
        self.order[i]
    }

    // Whether the number is in.
    pub(crate) fn has(&self, number: u32) -> bool
        ensures value { result ≡ spec.has self.now number }
        ensures placed { result ≡ true → number < self.now.size }
    {
        if number as usize >= self.places.len() {
            return false;
        }
        (self.places[number as usize] as usize) < self.count
    }

    // Gives the number a place, and each one below it. Mostly it has one.
    #[inline(always)]
    pub(crate) fn make(&mut self, number: u32) -> Result<(), AllocError>
        ensures same { self.new.items ≡ self.old.items }
        ensures grown { self.old.size ≤ self.new.size }
        ensures most { self.new.size ≤ self.old.size + (number + 1 - self.old.size) }
        ensures there { OnOk result (number < self.new.size) }
    {
        if self.order.len() <= number as usize {
            return self.grow(number);
        }
        Ok(())
    }

    // Gives the number a place, and each one below it.
    #[inline(never)]
    fn grow(&mut self, number: u32) -> Result<(), AllocError>
        ensures same { self.new.items ≡ self.old.items }
        ensures grown { self.old.size ≤ self.new.size }
        ensures most { self.new.size ≤ self.old.size + (number + 1 - self.old.size) }
        ensures there { OnOk result (number < self.new.size) }
    {
        while self.order.len() <= number as usize {
            self.more()?;
        }
        Ok(())
    }

    // Gives one more number a place.
    fn more(&mut self) -> Result<(), AllocError>
        requires { self.old.size < 4294967296 }
        ensures same { self.new.items ≡ self.old.items }
        ensures grown { self.old.size ≤ self.new.size }
        ensures most { self.new.size ≤ self.old.size + 1 }
        ensures there { OnOk result (self.old.size < self.new.size) }
    {
        self.places.reserve(1)?;
        let next = self.order.len() as u32;
        self.order.push(next)?;
        self.places.push_reserved(next);
        Ok(())
    }

    // Puts the number in, which has a place.
    pub(crate) fn put(&mut self, number: u32)
        requires { number < self.old.size }
        ensures here { spec.has self.new number ≡ true }
        ensures elsewhere { (m : ℕ) → m ≢ number → spec.has self.new m ≡ spec.has self.old m }
        ensures size { self.new.size ≡ self.old.size }
    {
        let place = self.places[number as usize] as usize;
        if place >= self.count {
            exchange(&mut self.order, &mut self.places, place, self.count);
            self.count += 1;
        }
    }

    // Takes the number out.
    pub(crate) fn cut(&mut self, number: u32)
        ensures here { spec.has self.new number ≡ false }
        ensures elsewhere { (m : ℕ) → m ≢ number → spec.has self.new m ≡ spec.has self.old m }
        ensures size { self.new.size ≡ self.old.size }
    {
        if number as usize >= self.places.len() {
            return;
        }
        let place = self.places[number as usize] as usize;
        if place < self.count {
            self.count -= 1;
            exchange(&mut self.order, &mut self.places, place, self.count);
        }
    }
}

// The numbers at the two places exchange their places.
fn exchange(order: &mut Vec<u32>, places: &mut Vec<u32>, a: usize, b: usize)
    requires placed { spec.ArePlaced order.old.items places.old.items }
    requires first { a < length order.old.items }
    requires second { b < length order.old.items }
    ensures placed { spec.ArePlaced order.new.items places.new.items }
    ensures order { order.new.items ≡ slice_set
        (slice_set order.old.items a (slice_index order.old.items b)) b
        (slice_index order.old.items a) }
{
    let x = order[a];
    let y = order[b];
    order[a] = y;
    order[b] = x;
    places[y as usize] = a as u32;
    places[x as usize] = b as u32;
}
