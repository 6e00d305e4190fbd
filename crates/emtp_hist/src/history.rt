ghost use Rattle.std.specs.Prelude.{◌≡◌, ℤ, ◌<◌, ◌≤◌, List, [], ◌∷◌, pos, IfOk, slice_index_or};
ghost use Rattle.emtp_hist.specs.History.{value_before};
ghost use Rattle.emtp_hist.specs.held.History.{Past, Remembers};

use circular_buffer::HeapCircularBuffer;
use std::alloc::{AllocError, Global};
use std::marker::Model;

/// The last values of one quantity, one value a step, in the unit of that quantity.
#[derive(Debug, Drop)]
pub struct History {
    newest_first: HeapCircularBuffer<i64>,
}

impl Model for History {
    ghost Value = { Past };

    ghost view = { λ h. record { depth = h.newest_first.capacity; values = h.newest_first.items } };
}

impl History {
    /// A history without pushes that keeps the last `depth` values.
    ///
    /// Only the want of memory is an error.
    pub fn open(alloc: Global, depth: usize) -> Result<History, AllocError>
        requires { 1 ≤ depth }
        ensures depth { IfOk result (λ h. h.depth ≡ depth) }
        ensures pushes { IfOk result (λ h. Remembers h []) }
    {
        Ok(History {
            newest_first: HeapCircularBuffer::with_capacity(alloc, depth)?,
        })
    }

    /// Makes `value` the newest one. Where the history is full, it forgets the oldest. It takes no memory: the ring keeps its
    /// capacity, which is the depth.
    pub fn push(&mut self, value: i64)
        ensures depth { self.new.depth ≡ self.old.depth }
        ensures pushes { (pushes : List ℤ) → Remembers self.old pushes → Remembers self.new (value ∷ pushes) }
    {
        self.newest_first.push_front(value);
    }

    /// The value that was pushed `k` pushes before the last one, and 0 where there is none.
    pub fn back(&self, k: usize) -> i64
        requires { k < self.now.depth }
        ensures { (pushes : List ℤ) → Remembers self.now pushes → result ≡ value_before pushes k }
    {
        value_at(&self.newest_first, k)
    }
}

/// The value at a place of the ring, and 0 past its last one.
fn value_at(newest_first: &HeapCircularBuffer<i64>, place: usize) -> i64
    ensures { result ≡ slice_index_or newest_first.now.items place (pos 0) }
{
    match newest_first.get(place) {
        Some(value) => *value,
        None => 0,
    }
}
