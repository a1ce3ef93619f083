//! The last values of a parameter, with how far apart they lie at hand.

ghost use Rattle.std.specs.Prelude.{◌≡◌, ◌↔◌, ◌<◌, ◌≤◌, ◌++◌, ◌∷◌, ◌==◌, ℤ, List, [], IfOk, Some, None, IsTrue, false, int_lt, length, slice_get, if◌then◌else◌};
ghost use Rattle.std.specs.Option.{option_map_or};
ghost use Rattle.circular_buffer.specs.Buffer.{buffer, keep_last, last_item};
ghost use Rattle.fdr_exceed.specs.Exceedances.{highest, spread};
ghost use Rattle.fdr_exceed.specs.Windows.{IsWatched, unsurpassed};

use circular_buffer::HeapCircularBuffer;
use fdr_table::NoMemory;
use std::alloc::Global;
use std::marker::Model;

/// The last of some values, with the greatest of them at hand.
#[derive(Drop)]
pub(crate) struct Greatest {
    values: HeapCircularBuffer<i64>,
    // Those of the values that no later one is over.
    falling: HeapCircularBuffer<i64>,
}

impl Model for Greatest {
    ghost use Rattle.std.specs.Prelude.{ℤ};
    ghost use Rattle.circular_buffer.specs.Buffer.{Buffer};

    ghost Value = { Buffer ℤ };

    ghost use Rattle.fdr_exceed.specs.Windows.{IsGreatest};

    ghost view = { λ g. g.values };

    ghost invariant = { λ g. IsGreatest g.values g.falling };
}

impl Greatest {
    /// Room for so many values. It takes all its memory here.
    fn new(alloc: Global, count: u16) -> Result<Greatest, NoMemory>
        requires { 1 ≤ count }
        ensures { IfOk result (λ g. g ≡ buffer [] count) }
    {
        let capacity = usize::from(count);
        Ok(Greatest {
            values: HeapCircularBuffer::with_capacity(alloc, capacity)?,
            falling: HeapCircularBuffer::with_capacity(alloc, capacity)?,
        })
    }

    /// Takes the next value.
    fn push(&mut self, value: i64)
        requires { IsWatched value }
        ensures { self.new ≡ buffer (keep_last self.old.capacity (self.old.items ++ value ∷ [])) self.old.capacity }
    {
        let first = self.values.push_back(value);
        leave(&mut self.falling, first);
        enter(&mut self.falling, value);
    }

    /// Whether there is no room for a further value.
    fn is_full(&self) -> bool
        ensures { result ≡ (length self.now.items == self.now.capacity) }
    {
        self.values.is_full()
    }

    /// The greatest of the values.
    fn greatest(&self) -> i64
        ensures greatest { 1 ≤ length self.now.items → result ≡ highest self.now.items }
        ensures watched { IsWatched result }
    {
        self.falling.front().copied().unwrap_or(0)
    }

    /// Forgets all values.
    fn clear(&mut self)
        ensures { self.new ≡ buffer [] self.old.capacity }
    {
        self.values.clear();
        self.falling.clear();
    }
}

/// The first of the values leaves, where there is one that does.
fn leave(falling: &mut HeapCircularBuffer<i64>, first: Option<i64>)
    ensures none { first ≡ None → falling.new.items ≡ falling.old.items }
    ensures first { (x : ℤ) (rest : List ℤ) → first ≡ Some x → falling.old.items ≡ unsurpassed (x ∷ rest) → falling.new.items ≡ unsurpassed rest }
    ensures room { falling.new.capacity ≡ falling.old.capacity }
{
    let Some(first) = first else {
        return;
    };
    if is_first(falling, first) {
        falling.pop_front();
    }
}

/// Whether the first value is this one.
fn is_first(falling: &HeapCircularBuffer<i64>, value: i64) -> bool
    ensures { IsTrue result ↔ (slice_get falling.now.items 0 ≡ Some value) }
{
    match falling.front() {
        Some(first) => *first == value,
        None => false,
    }
}

/// A value comes after all others.
fn enter(falling: &mut HeapCircularBuffer<i64>, value: i64)
    requires room { length falling.old.items < falling.old.capacity }
    ensures entered { (values : List ℤ) → falling.old.items ≡ unsurpassed values → falling.new.items ≡ unsurpassed (values ++ value ∷ []) }
    ensures room { falling.new.capacity ≡ falling.old.capacity }
{
    drop_under(falling, value);
    falling.push_back(value);
}

/// Drops the last values as long as they are under this one.
fn drop_under(falling: &mut HeapCircularBuffer<i64>, value: i64)
    ensures entered { (values : List ℤ) → falling.old.items ≡ unsurpassed values → falling.new.items ++ value ∷ [] ≡ unsurpassed (values ++ value ∷ []) }
    ensures fewer { length falling.new.items ≤ length falling.old.items }
    ensures room { falling.new.capacity ≡ falling.old.capacity }
{
    while is_last_under(falling, value) {
        falling.pop_back();
    }
}

/// Whether the last value is under this one.
fn is_last_under(falling: &HeapCircularBuffer<i64>, value: i64) -> bool
    ensures { result ≡ option_map_or (λ last. int_lt last value) (last_item falling.now.items) false }
{
    match falling.back() {
        Some(last) => *last < value,
        None => false,
    }
}

/// The last values of a parameter, as many as a rule's count says.
#[derive(Drop)]
pub(crate) struct Window {
    high: Greatest,
    // Of the values with the other sign.
    low: Greatest,
}

impl Model for Window {
    ghost use Rattle.std.specs.Prelude.{ℤ};
    ghost use Rattle.circular_buffer.specs.Buffer.{Buffer};

    ghost Value = { Buffer ℤ };

    ghost use Rattle.fdr_exceed.specs.Windows.{IsWindow};

    ghost view = { λ w. w.high };

    ghost invariant = { λ w. IsWindow w.high w.low };
}

impl Window {
    /// A window of so many values. It takes all its memory here.
    pub(crate) fn new(alloc: Global, count: u16) -> Result<Window, NoMemory>
        requires { 1 ≤ count }
        ensures { IfOk result (λ w. w ≡ buffer [] count) }
    {
        Ok(Window {
            high: Greatest::new(alloc, count)?,
            low: Greatest::new(alloc, count)?,
        })
    }

    /// Takes the next value.
    pub(crate) fn push(&mut self, value: i64)
        requires { IsWatched value }
        ensures { self.new ≡ buffer (keep_last self.old.capacity (self.old.items ++ value ∷ [])) self.old.capacity }
    {
        self.high.push(value);
        self.low.push(-value);
    }

    /// How far apart the values lie, where there are as many as the window has room for.
    pub(crate) fn spread(&self) -> Option<i64>
        ensures { result ≡ (if length self.now.items == self.now.capacity then Some (spread self.now.items) else None) }
    {
        if self.high.is_full() {
            Some(self.high.greatest() + self.low.greatest())
        } else {
            None
        }
    }

    /// Forgets all values.
    pub(crate) fn clear(&mut self)
        ensures { self.new ≡ buffer [] self.old.capacity }
    {
        self.high.clear();
        self.low.clear();
    }
}
