//! A cabinet in memory.
ghost use Rattle.std.specs.Prelude.{◌≡◌, ◌≢◌, ◌+◌, ◌<◌, ◌≤◌, ◌||◌, [], Some, None, length, take, is_err, is_none, OnOk, OnErr, IfOk, IfSome, AllPairs, string_bytes, option_map};
ghost use Rattle.std.specs.Option.{option_copied};
ghost use Rattle.emtp_io.specs.held.Buffer.{created_of};
ghost use Rattle.emtp_io.specs.Cabinet.{output, with_output, appended, put_back, one_more, IsAtEnd, HasCause, HasRoom};
ghost use Rattle.emtp_io.specs.held.Cabinet.{no_outputs, with_turn};
ghost use Rattle.emtp_io.specs.held.Calls.{counted};
ghost use Rattle.emtp_io.specs.held.Files.{file_named, unread_of};
ghost use Rattle.emtp_io.specs.held.Memory.{Memory, memory_state, open_fails, read_fails, read_count, create_fails, spare_in, is_full_for, write_fails, write_count};

use crate::buffer::OutputBuffer;
use crate::calls::{Calls, Failing, Op};
use crate::count::raise;
use crate::files::{copy_front, find, rest_of};
use crate::turns::Turns;
use crate::{Cabinet, Failed, Output};
use std::alloc::{AllocError, Global};
use std::marker::Model;

/// A cabinet that keeps its files and outputs in memory, and tells them all. It takes no memory once it
/// is made.
///
/// A call fails exactly where it is told to, where the file isn't there, where no room is left for the
/// name or for a byte of a piece that isn't empty, before a file was opened, or where the output wasn't
/// created. The two counts of faults and the four of calls stay at 2 ^ 64 - 1 once they have reached it.
#[derive(Drop)]
pub struct MemoryCabinet {
    files: Vec<(String, Vec<u8>)>,
    fails: Vec<Failing>,
    piece: usize,
    room: usize,
    opened: Option<usize>,
    position: usize,
    cfg: OutputBuffer,
    dat: OutputBuffer,
    note: OutputBuffer,
    summary: OutputBuffer,
    calls: Calls,
    turns: Turns,
    faults_in: u64,
    faults_out: u64,
}

impl Model for MemoryCabinet {
    ghost Value = { Memory };

    ghost view = { λ m. record {
      files = m.files.items;
      fails = m.fails.items;
      piece = m.piece;
      room = m.room;
      unread = unread_of m.files.items m.opened m.position;
      outputs = record {
        cfg = created_of m.cfg;
        dat = created_of m.dat;
        note = created_of m.note;
        summary = created_of m.summary;
      };
      calls = m.calls;
      turns = m.turns;
      faults_in = m.faults_in;
      faults_out = m.faults_out;
    } };

    ghost invariant = { λ m. (0 < m.piece)
        × (m.cfg.room ≡ m.room) × (m.dat.room ≡ m.room)
        × (m.note.room ≡ m.room) × (m.summary.room ≡ m.room) };
}

impl MemoryCabinet {
    /// A cabinet of these files, in which the calls listed in `fails` fail. It reads and writes at most
    /// `piece` bytes in a call, and has room for `room` bytes in each output and in the name of each.
    pub fn new(
        alloc: Global,
        files: Vec<(String, Vec<u8>)>,
        fails: Vec<Failing>,
        piece: usize,
        room: usize,
    ) -> Result<MemoryCabinet, AllocError>
        requires some_piece { 0 < piece }
        requires names_differ { AllPairs (λ a b. string_bytes a.0 ≢ string_bytes b.0) files.items }
        ensures { IfOk result (λ m. m ≡ record {
          files = files.items;
          fails = fails.items;
          piece = piece;
          room = room;
          unread = None;
          outputs = no_outputs;
          calls = record { opens = 0; reads = 0; creates = 0; writes = 0 };
          turns = record { cfg = 0; dat = 0; note = 0; summary = 0 };
          faults_in = 0;
          faults_out = 0;
        }) }
    {
        Ok(MemoryCabinet {
            files,
            fails,
            piece,
            room,
            opened: None,
            position: 0,
            cfg: OutputBuffer::new(alloc, room)?,
            dat: OutputBuffer::new(alloc, room)?,
            note: OutputBuffer::new(alloc, room)?,
            summary: OutputBuffer::new(alloc, room)?,
            calls: Calls {
                opens: 0,
                reads: 0,
                creates: 0,
                writes: 0,
            },
            turns: Turns::none(),
            faults_in: 0,
            faults_out: 0,
        })
    }

    /// The bytes written to an output, where it was created.
    pub fn written(&self, out: Output) -> Option<&[u8]>
        ensures { option_copied result ≡ option_map (λ e. e.bytes) (output self.now.outputs out) }
    {
        match out {
            Output::Cfg => self.cfg.written(),
            Output::Dat => self.dat.written(),
            Output::Note => self.note.written(),
            Output::Summary => self.summary.written(),
        }
    }

    /// The name of an output, where it was created.
    pub fn name(&self, out: Output) -> Option<&str>
        ensures { option_copied result ≡ option_map (λ e. e.name) (output self.now.outputs out) }
    {
        match out {
            Output::Cfg => self.cfg.name(),
            Output::Dat => self.dat.name(),
            Output::Note => self.note.name(),
            Output::Summary => self.summary.name(),
        }
    }

    /// Makes an output empty under this name, for which there is room.
    fn make_empty(&mut self, out: Output, name: &str)
        requires { length name.now ≤ self.old.room }
        ensures { self.new ≡ record self.old {
          outputs = with_output self.old.outputs out (Some (record { name = name.now; bytes = [] }));
        } }
    {
        match out {
            Output::Cfg => self.cfg.create(name),
            Output::Dat => self.dat.create(name),
            Output::Note => self.note.create(name),
            Output::Summary => self.summary.create(name),
        }
    }

    /// How many more bytes have room in an output, where it was created.
    fn spare(&self, out: Output) -> Option<usize>
        ensures { result ≡ spare_in self.now out }
    {
        match out {
            Output::Cfg => self.cfg.spare(),
            Output::Dat => self.dat.spare(),
            Output::Note => self.note.spare(),
            Output::Summary => self.summary.spare(),
        }
    }

    /// How many of so many bytes a write takes, where it isn't told to fail.
    fn allowance(&self, out: Output, len: usize) -> Option<usize>
        ensures fits { IfSome result (λ n. HasRoom (output self.now.outputs out) n self.now.room) }
        ensures bound { IfSome result (λ n. n ≤ len) }
        ensures some { IfSome result (λ n. 0 < len → 0 < n) }
        ensures exact { is_none result ≡ is_full_for (spare_in self.now out) len }
        ensures count { IfSome result (λ n. Some n ≡ write_count self.now out len) }
    {
        let count = self.spare(out)?.min(len).min(self.piece);
        if count > 0 || len == 0 {
            Some(count)
        } else {
            None
        }
    }

    /// Appends a piece, for which there is room, to an output.
    fn append(&mut self, out: Output, piece: &[u8])
        requires { HasRoom (output self.old.outputs out) (length piece.now) self.old.room }
        ensures { self.new ≡ record self.old { outputs = appended self.old.outputs out piece.now } }
    {
        match out {
            Output::Cfg => self.cfg.append(piece),
            Output::Dat => self.dat.append(piece),
            Output::Note => self.note.append(piece),
            Output::Summary => self.summary.append(piece),
        }
    }
}

impl Cabinet for MemoryCabinet {
    ghost state = { memory_state };

    fn open(&mut self, name: &str) -> Result<(), Failed>
        ensures exact { is_err result ≡ open_fails self.old name.now }
        ensures cause { HasCause self.old.faults_in self.new.faults_in result }
        ensures ok { OnOk result (self.new ≡ record self.old {
          unread = file_named self.old.files name.now;
          calls = counted self.old.calls Op.Open;
        }) }
        ensures err { OnErr result (self.new ≡ record self.old {
          calls = counted self.old.calls Op.Open;
          faults_in = one_more self.old.faults_in;
        }) }
    {
        let told = self.calls.next_fails(Op::Open, &self.fails);
        match find(&self.files, name) {
            Some(at) if !told => {
                self.opened = Some(at);
                self.position = 0;
                Ok(())
            }
            _ => {
                raise(&mut self.faults_in);
                Err(Failed)
            }
        }
    }

    fn read(&mut self, buf: &mut [u8]) -> Result<usize, Failed>
        ensures exact { is_err result ≡ read_fails self.old }
        ensures cause { HasCause self.old.faults_in self.new.faults_in result }
        ensures count { IfOk result (λ n. Some n ≡ read_count self.old (length buf.new)) }
        ensures bound { IfOk result (λ n. n ≤ length buf.new) }
        ensures bytes { IfOk result (λ n. self.old.unread ≡ put_back (take n buf.new) self.new.unread) }
        ensures end { IfOk result (λ n. n ≡ 0 → 0 < length buf.new → IsAtEnd self.new.unread) }
        ensures ok { OnOk result (self.new ≡ record self.old {
          unread = self.new.unread;
          calls = counted self.old.calls Op.Read;
        }) }
        ensures err { OnErr result (self.new ≡ record self.old {
          calls = counted self.old.calls Op.Read;
          faults_in = one_more self.old.faults_in;
        }) }
    {
        let told = self.calls.next_fails(Op::Read, &self.fails);
        match rest_of(&self.files, self.opened, self.position) {
            Some(rest) if !told => {
                let count = copy_front(buf, rest, self.piece);
                self.position += count;
                Ok(count)
            }
            _ => {
                raise(&mut self.faults_in);
                Err(Failed)
            }
        }
    }

    fn create(&mut self, out: Output, name: &str) -> Result<(), Failed>
        ensures exact { is_err result ≡ create_fails self.old name.now }
        ensures cause { HasCause self.old.faults_out self.new.faults_out result }
        ensures ok { OnOk result (self.new ≡ record self.old {
          outputs = with_output self.old.outputs out (Some (record { name = name.now; bytes = [] }));
          calls = counted self.old.calls Op.Create;
          turns = with_turn self.old.turns out (one_more self.old.calls.creates);
        }) }
        ensures err { OnErr result (self.new ≡ record self.old {
          calls = counted self.old.calls Op.Create;
          faults_out = one_more self.old.faults_out;
        }) }
    {
        let told = self.calls.next_fails(Op::Create, &self.fails);
        if told || name.len() > self.room {
            raise(&mut self.faults_out);
            return Err(Failed);
        }
        self.make_empty(out, name);
        self.turns.put(out, self.calls.creates);
        Ok(())
    }

    fn write(&mut self, out: Output, piece: &[u8]) -> Result<usize, Failed>
        ensures exact { is_err result ≡ write_fails self.old out (length piece.now) }
        ensures cause { HasCause self.old.faults_out self.new.faults_out result }
        ensures count { IfOk result (λ n. Some n ≡ write_count self.old out (length piece.now)) }
        ensures bound { IfOk result (λ n. n ≤ length piece.now) }
        ensures some { IfOk result (λ n. 0 < length piece.now → 0 < n) }
        ensures ok { IfOk result (λ n. self.new ≡ record self.old {
          outputs = appended self.old.outputs out (take n piece.now);
          calls = counted self.old.calls Op.Write;
        }) }
        ensures err { OnErr result (self.new ≡ record self.old {
          calls = counted self.old.calls Op.Write;
          faults_out = one_more self.old.faults_out;
        }) }
    {
        let told = self.calls.next_fails(Op::Write, &self.fails);
        match self.allowance(out, piece.len()) {
            Some(count) if !told => {
                self.append(out, &piece[..count]);
                Ok(count)
            }
            _ => {
                raise(&mut self.faults_out);
                Err(Failed)
            }
        }
    }
}
