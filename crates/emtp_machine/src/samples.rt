// The samples of a record.
ghost use Rattle.std.specs.Prelude.{◌≡◌, ◌+◌, ◌*◌, ◌^◌, ◌<◌, ◌≤◌, ◌++◌, [], ◌∷◌, length, pos, slice_index_or, unsigned_abs, IfOk, vec_capacity};
ghost use Rattle.std.specs.Vec.{SameBlock};
ghost use Rattle.emtp_machine.specs.Samples.{greatest, sum_of, total_of, value_at};
ghost use Rattle.emtp_machine.specs.held.Samples.{Sampled, IsReserved, rows_of};

use std::alloc::{AllocError, Global};
use std::marker::Model;

/// The values of the channels at each sample of a run, in the order of the case's channels: nV, nA or 1e-9
/// of a unit, and 0 or 1 of a status. Contracts see it as one list a sample.
#[derive(Drop)]
pub struct Samples {
    channels: usize,
    room: u32,
    count: u32,
    values: Vec<i64>,
}

impl Model for Samples {
    ghost Value = { Sampled };

    ghost view = { λ s. record {
      rows = rows_of s.channels s.count s.values.items;
      channels = s.channels;
      room = s.room;
      capacity = vec_capacity s.values;
    } };

    ghost invariant = { λ s. IsReserved s.channels s.room s.count (length s.values.items) (vec_capacity s.values) };
}

impl Samples {
    /// No samples yet, and room for `room` of them, each with a value for each of `channels`.
    pub fn open(alloc: Global, channels: usize, room: u32) -> Result<Samples, AllocError>
        requires { room * channels < 2 ^ 64 }
        ensures { IfOk result (λ s. s ≡ record { rows = []; channels = channels; room = room; capacity = room * channels }) }
    {
        Ok(Samples {
            channels,
            room,
            count: 0,
            values: Vec::with_capacity(alloc, room as usize * channels)?,
        })
    }

    /// The number of samples.
    pub fn count(&self) -> u32
        ensures value { result ≡ length self.now.rows }
        ensures room { result ≤ self.now.room }
        ensures small { self.now.room * self.now.channels < 2 ^ 64 }
    {
        self.count
    }

    /// The value of a channel, counted from 0, in a sample, counted from 0.
    pub fn value(&self, sample: u32, channel: usize) -> i64
        requires sample { sample < length self.now.rows }
        requires channel { channel < self.now.channels }
        ensures { result ≡ value_at self.now.rows sample channel }
    {
        value_in(
            self.values.as_slice(),
            sample as usize * self.channels + channel,
        )
    }

    /// How many values each sample has.
    pub fn channels(&self) -> usize
        ensures value { result ≡ self.now.channels }
        ensures small { self.now.room * result < 2 ^ 64 }
    {
        self.channels
    }

    /// The greatest magnitude of a channel in all samples; 0 where there is none.
    pub fn greatest(&self, channel: usize) -> u64
        requires { channel < self.now.channels }
        ensures value { result ≡ greatest self.now.rows channel (length self.now.rows) }
        ensures bound { result ≤ 2 ^ 63 }
    {
        let mut greatest = 0;
        for sample in 0..self.count() {
            greatest = greatest.max(self.value(sample, channel).unsigned_abs());
        }
        greatest
    }

    /// The sum of all values of all samples.
    pub fn total(&self) -> i128
        ensures { result ≡ total_of self.now.rows self.now.channels (length self.now.rows) }
    {
        let mut total = 0;
        for sample in 0..self.count() {
            total += self.sum(sample);
        }
        total
    }

    /// The sum of the values of a sample.
    fn sum(&self, sample: u32) -> i128
        requires { sample < length self.now.rows }
        ensures value { result ≡ sum_of self.now.rows sample self.now.channels }
        ensures bound { unsigned_abs result ≤ self.now.channels * 2 ^ 63 }
    {
        let mut sum = 0;
        for channel in 0..self.channels() {
            sum += i128::from(self.value(sample, channel));
        }
        sum
    }

    /// Takes the values of one more sample, for which there is room. It takes no memory: the block of its values stays.
    pub fn push(&mut self, values: &[i64])
        requires width { length values.now ≡ self.old.channels }
        requires room { length self.old.rows < self.old.room }
        ensures { self.new ≡ record self.old { rows = self.old.rows ++ values.now ∷ [] } }
    {
        put_behind(&mut self.values, values);
        self.count += 1;
    }
}

fn value_in(values: &[i64], at: usize) -> i64
    requires { at < length values.now }
    ensures { result ≡ slice_index_or values.now at (pos 0) }
{
    values[at]
}

// Puts values at the end, where they have room: in the same block, of the same capacity.
fn put_behind(all: &mut Vec<i64>, values: &[i64])
    requires { length all.old.items + length values.now ≤ vec_capacity all.old }
    ensures items { all.new.items ≡ all.old.items ++ values.now }
    ensures block { SameBlock all.old all.new }
{
    for value in values {
        let _ = all.insert(all.len(), *value);
    }
}
