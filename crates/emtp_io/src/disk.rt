//! The real files of a runtime. A cabinet of these tells nothing of what they hold.
ghost use Rattle.std.specs.Prelude.{◌≡◌, ◌<◌, ◌≤◌, true, false, length, is_some, None, IfSome, IsTrue, IsSome, OnSome, OnOk, OnErr, IfOk};
ghost use Rattle.std.specs.Bool.{OnTrue, OnFalse};
ghost use Rattle.emtp_io.specs.Cabinet.{one_more, HasCause};
ghost use Rattle.emtp_io.specs.Disk.{Disk, counted, disk_state, is_created, with_created};

use crate::count::raise;
use crate::turns::Turns;
use crate::{Cabinet, Failed, Output};
use std::io::{ErrorKind, Read, Write};
use std::marker::Model;
use std::rt::Files;
use std::{fs, io};

/// The files of the runtime `rt`. Notes and summaries go to its standard output.
///
/// This is the trusted edge: no clause can say what a file or a terminal holds, so it is not calm and
/// tells nothing of content. What clauses see of it is whether a file is open, which outputs were
/// created and at which turn, and the counts.
///
/// A file that is made is open until the next output is created: of `Cfg` and `Dat` only the one created last can be written.
#[derive(Drop)]
pub struct DiskCabinet<R: Files + Print + Drop> {
    rt: R,
    input: Option<R::File>,
    cfg: FileOutput<R::File>,
    dat: FileOutput<R::File>,
    note_created: bool,
    summary_created: bool,
    faults_in: u64,
    faults_out: u64,
    opens: u64,
    creates: u64,
    turns: Turns,
}

impl<R: Files + Print + Drop> Model for DiskCabinet<R> {
    ghost Value = { Disk };

    ghost view = { λ d. record {
      is_open = is_some d.input;
      cfg = d.cfg.created;
      dat = d.dat.created;
      note = d.note_created;
      summary = d.summary_created;
      faults_in = d.faults_in;
      faults_out = d.faults_out;
      opens = d.opens;
      creates = d.creates;
      turns = d.turns;
    } };
}

impl<R: Files + Print + Drop> DiskCabinet<R> {
    /// A cabinet over this runtime, with no file opened and no output created.
    pub fn new(rt: R) -> DiskCabinet<R>
        ensures { result ≡ record {
          is_open = false;
          cfg = false;
          dat = false;
          note = false;
          summary = false;
          faults_in = 0;
          faults_out = 0;
          opens = 0;
          creates = 0;
          turns = record { cfg = 0; dat = 0; note = 0; summary = 0 };
        } }
    {
        DiskCabinet {
            rt,
            input: None,
            cfg: absent(),
            dat: absent(),
            note_created: false,
            summary_created: false,
            faults_in: 0,
            faults_out: 0,
            opens: 0,
            creates: 0,
            turns: Turns::none(),
        }
    }
}

/// An output that is a file.
#[derive(Drop)]
struct FileOutput<F: Drop> {
    /// The file, from its creation on until it is closed.
    file: Option<F>,
    /// Whether it was created.
    created: bool,
}

/// An output that wasn't created.
fn absent<F: Drop>() -> FileOutput<F>
    ensures { result.created ≡ false }
{
    FileOutput {
        file: None,
        created: false,
    }
}

/// Closes the file of an output.
///
/// An open one may have the descriptor of a standard output that was closed before the start: then a note would go to it. The
/// file that is read can't take one.
fn close<F: Drop>(output: &mut FileOutput<F>)
    ensures { output.new.created ≡ output.old.created }
{
    output.file = None;
}

/// Writes to the standard output, for an output that was created.
fn print_some<R: Print>(rt: &R, created: bool, piece: &[u8]) -> Option<usize>
    ensures created { OnSome result (IsTrue created) }
    ensures bound { IfSome result (λ n. n ≤ length piece.now) }
    ensures some { IfSome result (λ n. 0 < length piece.now → 0 < n) }
{
    if !created {
        return None;
    }
    write_some(&mut io::writer(rt), piece)
}

/// Reads once, and again where a signal interrupts it.
fn read_some<F: Read>(file: &mut F, buf: &mut [u8]) -> Option<usize>
    ensures { IfSome result (λ n. n ≤ length buf.new) }
{
    for _ in 0..u64::MAX {
        match file.read(buf) {
            Ok(count) => return Some(count),
            Err(error) if error.kind() == ErrorKind::Interrupted => {}
            Err(_) => return None,
        }
    }
    None
}

/// Writes once, and again where a signal interrupts it. A write that takes no byte of some is a failure.
fn write_some<F: Write>(file: &mut F, piece: &[u8]) -> Option<usize>
    ensures bound { IfSome result (λ n. n ≤ length piece.now) }
    ensures some { IfSome result (λ n. 0 < length piece.now → 0 < n) }
{
    for _ in 0..u64::MAX {
        match file.write(piece) {
            Ok(0) if !piece.is_empty() => return None,
            Ok(count) => return Some(count),
            Err(error) if error.kind() == ErrorKind::Interrupted => {}
            Err(_) => return None,
        }
    }
    None
}

/// Reads from a file that was opened.
fn read_from<F: Read>(file: &mut Option<F>, buf: &mut [u8]) -> Option<usize>
    ensures opened { OnSome result (IsSome file.old) }
    ensures same { is_some file.new ≡ is_some file.old }
    ensures bound { IfSome result (λ n. n ≤ length buf.new) }
{
    read_some(file.as_mut()?, buf)
}

/// Writes to the file of an output, where it was created and isn't closed.
fn write_to<F: Write + Drop>(output: &mut FileOutput<F>, piece: &[u8]) -> Option<usize>
    ensures created { OnSome result (IsTrue output.old.created) }
    ensures same { output.new.created ≡ output.old.created }
    ensures bound { IfSome result (λ n. n ≤ length piece.now) }
    ensures some { IfSome result (λ n. 0 < length piece.now → 0 < n) }
{
    if !output.created {
        return None;
    }
    write_some(output.file.as_mut()?, piece)
}

/// Makes a file empty, and opens it as that of an output.
fn create_file<R: Files>(rt: &R, name: &str, output: &mut FileOutput<R::File>) -> bool
    ensures created { OnTrue result (IsTrue output.new.created) }
    ensures open { OnTrue result (IsSome output.new.file) }
    ensures kept { OnFalse result (output.new ≡ output.old) }
{
    match fs::create(rt, name) {
        Ok(file) => {
            *output = FileOutput {
                file: Some(file),
                created: true,
            };
            true
        }
        Err(_) => false,
    }
}

impl<R: Files + Print + Drop> Cabinet for DiskCabinet<R> {
    ghost state = { disk_state };

    fn open(&mut self, name: &str) -> Result<(), Failed>
        ensures cause { HasCause self.old.faults_in self.new.faults_in result }
        ensures other { self.new.faults_out ≡ self.old.faults_out }
        ensures ok { OnOk result (self.new ≡ record self.old { is_open = true; opens = one_more self.old.opens }) }
        ensures err { OnErr result
            (self.new ≡ record self.old { faults_in = one_more self.old.faults_in; opens = one_more self.old.opens }) }
    {
        raise(&mut self.opens);
        match fs::open(&self.rt, name) {
            Ok(file) => {
                self.input = Some(file);
                Ok(())
            }
            Err(_) => {
                raise(&mut self.faults_in);
                Err(Failed)
            }
        }
    }

    fn read(&mut self, buf: &mut [u8]) -> Result<usize, Failed>
        ensures cause { HasCause self.old.faults_in self.new.faults_in result }
        ensures other { self.new.faults_out ≡ self.old.faults_out }
        ensures opened { OnOk result (IsTrue self.old.is_open) }
        ensures bound { IfOk result (λ n. n ≤ length buf.new) }
        ensures ok { OnOk result (self.new ≡ self.old) }
        ensures err { OnErr result
            (self.new ≡ record self.old { faults_in = one_more self.old.faults_in }) }
    {
        match read_from(&mut self.input, buf) {
            Some(count) => Ok(count),
            None => {
                raise(&mut self.faults_in);
                Err(Failed)
            }
        }
    }

    fn create(&mut self, out: Output, name: &str) -> Result<(), Failed>
        ensures cause { HasCause self.old.faults_out self.new.faults_out result }
        ensures other { self.new.faults_in ≡ self.old.faults_in }
        ensures ok { OnOk result (self.new ≡ with_created (counted self.old) out) }
        ensures err { OnErr result
            (self.new ≡ record (counted self.old) { faults_out = one_more self.old.faults_out }) }
    {
        raise(&mut self.creates);
        close(&mut self.cfg);
        close(&mut self.dat);
        let created = match out {
            Output::Cfg => create_file(&self.rt, name, &mut self.cfg),
            Output::Dat => create_file(&self.rt, name, &mut self.dat),
            Output::Note => {
                self.note_created = true;
                true
            }
            Output::Summary => {
                self.summary_created = true;
                true
            }
        };
        if created {
            self.turns.put(out, self.creates);
            Ok(())
        } else {
            raise(&mut self.faults_out);
            Err(Failed)
        }
    }

    fn write(&mut self, out: Output, piece: &[u8]) -> Result<usize, Failed>
        ensures cause { HasCause self.old.faults_out self.new.faults_out result }
        ensures other { self.new.faults_in ≡ self.old.faults_in }
        ensures created { OnOk result (IsTrue (is_created self.old out)) }
        ensures bound { IfOk result (λ n. n ≤ length piece.now) }
        ensures some { IfOk result (λ n. 0 < length piece.now → 0 < n) }
        ensures ok { OnOk result (self.new ≡ self.old) }
        ensures err { OnErr result
            (self.new ≡ record self.old { faults_out = one_more self.old.faults_out }) }
    {
        let count = match out {
            Output::Cfg => write_to(&mut self.cfg, piece),
            Output::Dat => write_to(&mut self.dat, piece),
            Output::Note => print_some(&self.rt, self.note_created, piece),
            Output::Summary => print_some(&self.rt, self.summary_created, piece),
        };
        match count {
            Some(count) => Ok(count),
            None => {
                raise(&mut self.faults_out);
                Err(Failed)
            }
        }
    }
}
