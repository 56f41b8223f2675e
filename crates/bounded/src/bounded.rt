// A list of at most `N` items.
ghost use Rattle.std.specs.Prelude.{◌≡◌, ⊤, ◌≤◌, ◌↔◌, [], length, IsTrue};
ghost use Rattle.std.specs.Fn.{FnOnceReturnsAtMut, FnOnceTakesAtMut};

use std::alloc::AllocError;

// The first `count` of the slots hold the items; what stands behind them means nothing. It is an array and a count, since
// nothing may be allocated and a list has to be `Copy`, as the kit's vectors in place are not.
pub struct Bounded<T, const N: usize> {
    slots: [T; N],
    count: usize,
    ghost whole: { length slots ≡ N },
    ghost few: { count ≤ N },
}

// By hand, since `Clone` cannot be derived over an item of any type for a struct with ghost fields.
impl<T: Copy, const N: usize> Clone for Bounded<T, N> {
    ghost is_clone = { λ b c. c ≡ b };

    ghost is_infallible = { λ _. ⊤ };

    fn clone(&self) -> Result<Bounded<T, N>, AllocError> {
        Ok(*self)
    }
}

impl<T: Copy, const N: usize> Copy for Bounded<T, N> {}

// Why an item was not put into a list: it has `N` already.
#[derive(Clone, Copy, PartialEq, Eq, Debug)]
pub struct Full;

impl<T: Copy, const N: usize> Bounded<T, N> {
    ghost use Rattle.bounded.specs.Items.{items_of, Pushed};

    // No item; `unused` fills the slots.
    pub fn new(unused: T) -> Bounded<T, N>
        ensures { items_of result ≡ [] }
    {
        Bounded {
            slots: [unused; N],
            count: 0,
        }
    }

    pub fn is_full(&self) -> bool
        ensures { IsTrue result ↔ (length (items_of self.now) ≡ N) }
    {
        self.count == N
    }

    // Puts an item last, or refuses it where there are `N` already.
    pub fn push(&mut self, item: T) -> Result<(), Full>
        ensures { Pushed self.old item self.new result }
    {
        if self.is_full() {
            return Err(Full);
        }
        self.slots[self.count] = item;
        self.count += 1;
        Ok(())
    }

    // The items, in the order in which they were put.
    pub fn items(&self) -> &[T]
        ensures items { result.now ≡ items_of self.now }
        ensures few { length result.now ≤ N }
    {
        &self.slots[..self.count]
    }

    // Has the items changed in place by a function that can be called on them.
    pub fn change<R, F: FnOnce(&mut [T]) -> R>(&mut self, f: F) -> R
        requires { FnOnceTakesAtMut F.FnOnce f (items_of self.old) }
        ensures { FnOnceReturnsAtMut F.FnOnce f (items_of self.old) result (items_of self.new) }
    {
        f(&mut self.slots[..self.count])
    }
}
