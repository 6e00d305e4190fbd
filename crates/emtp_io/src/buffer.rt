//! One output in memory.
ghost use Rattle.std.specs.Prelude.{◌≡◌, ◌↔◌, ◌+◌, ◌≤◌, [], Some, None, length, IsTrue, IfOk, option_map, string_capacity, vec_capacity};

use std::alloc::{AllocError, Global};

/// An output, with room for `room` bytes and a name of as many.
#[derive(Drop)]
pub struct OutputBuffer {
    /// How many bytes it has room for, and how many its name.
    pub room: usize,
    /// Whether it was created.
    pub created: bool,
    /// Its name, where it was created.
    pub name: String,
    /// The bytes written to it since it was created.
    pub bytes: Vec<u8>,
    ghost name_room: { room ≤ string_capacity name },
    ghost bytes_room: { room ≤ vec_capacity bytes },
    ghost within: { length bytes.items ≤ room },
}

impl OutputBuffer {
    ghost use Rattle.std.specs.Prelude.{◌≡◌, ◌↔◌, ◌+◌, ◌≤◌, [], Some, None, length, IsTrue, IfOk, option_map};
    ghost use Rattle.std.specs.Option.{option_copied};
    ghost use Rattle.emtp_io.specs.Cabinet.{with_bytes, HasRoom};
    ghost use Rattle.emtp_io.specs.held.Buffer.{created_of, spare_of};

    /// An output that is not yet created, with its room reserved.
    pub fn new(alloc: Global, room: usize) -> Result<OutputBuffer, AllocError>
        ensures none { IfOk result (λ b. created_of b ≡ None) }
        ensures room { IfOk result (λ b. b.room ≡ room) }
    {
        Ok(OutputBuffer {
            room,
            created: false,
            name: String::with_capacity(alloc, room)?,
            bytes: Vec::with_capacity(alloc, room)?,
        })
    }

    /// Makes it empty under this name, for which there is room.
    pub fn create(&mut self, name: &str)
        requires { length name.now ≤ self.old.room }
        ensures created { created_of self.new ≡ Some (record { name = name.now; bytes = [] }) }
        ensures room { self.new.room ≡ self.old.room }
    {
        self.name.clear();
        // The room was reserved, so that this can't fail.
        let _ = self.name.push_str(name);
        self.bytes.clear();
        self.created = true;
    }

    /// How many more bytes have room, where it was created.
    pub fn spare(&self) -> Option<usize>
        ensures { result ≡ spare_of (created_of self.now) self.now.room }
    {
        if self.created {
            Some(self.room - self.bytes.len())
        } else {
            None
        }
    }

    /// Appends a piece for which there is room.
    pub fn append(&mut self, piece: &[u8])
        requires { HasRoom (created_of self.old) (length piece.now) self.old.room }
        ensures grown { created_of self.new ≡ with_bytes (created_of self.old) piece.now }
        ensures room { self.new.room ≡ self.old.room }
    {
        // The room was reserved, so that this can't fail.
        let _ = self.bytes.extend_from_slice(piece);
    }

    /// The bytes written to it, where it was created.
    pub fn written(&self) -> Option<&[u8]>
        ensures { option_copied result ≡ option_map (λ e. e.bytes) (created_of self.now) }
    {
        if self.created {
            Some(&self.bytes)
        } else {
            None
        }
    }

    /// Its name, where it was created.
    pub fn name(&self) -> Option<&str>
        ensures { option_copied result ≡ option_map (λ e. e.name) (created_of self.now) }
    {
        if self.created { Some(&self.name) } else { None }
    }
}
