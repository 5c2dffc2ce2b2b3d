//! The calls of the system. Each has a relation that only the call gives, from what it is made of
//! to what it makes of that: so a contract that names them shows which calls were made, of what, in
//! which order, and that no other was.

ghost use Rattle.std.specs.Prelude.{List, ℕ, Option, String, OnErr, OnOk, IfOk, IfErr, take, ⊤};
ghost use Rattle.std.specs.IoError.{error_kind};
ghost use Rattle.std.specs.declared.io.ErrorKind.{ErrorKind as Kind};
ghost use Rattle.std.specs.Vec.Iter.{into_iter_items};
ghost use Rattle.std.specs.declared.alloc.Global.{Global};
ghost use Rattle.std.specs.Io.{ReadsAtMost, WritesAtMost};
ghost use Rattle.std.specs.Io.KnownBytes.{Keeps, ReadConsumes, WriteAppends};

use std::env::Args;
use std::io::{Read, Write};
use std::rt::{Env, Files};
use std::{env, fs, io};

/// The words of a command line.
pub trait CommandLine {
    /// The system gave these words, of which the first is the program's name.
    ghost gives: { Self → List (String Global) → Type 0 };

    /// The system gave no words, for a reason of that kind: as one of them is no text, or for want
    /// of memory.
    ghost refuses: { Self → Kind → Type 0 };

    /// Asks the system for the words.
    fn arguments(&self) -> io::Result<Args>
        ensures given { IfOk result (λ words. gives self.now (into_iter_items words)) }
        ensures refused { IfErr result (λ error. refuses self.now (error_kind error)) };
}

impl<R: Env + AllocGlobal> CommandLine for R {
    ghost gives = { λ _ _. ⊤ };

    ghost refuses = { λ _ _. ⊤ };

    fn arguments(&self) -> io::Result<Args> {
        env::args(self)
    }
}

/// Files that are opened by name.
pub trait FileStore {
    type File: Source + Drop;

    /// What an opening by that name, which gave this file, may make of the store. Nothing was read
    /// from the file yet.
    ghost opens: { Self → List ℕ → Self.File → Self → Type 0 };

    /// What an opening by that name that was refused may make of it.
    ghost refuses: { Self → List ℕ → Self → Type 0 };

    /// What the closing of a file, as it was then, may make of it.
    ghost closes: { Self → Self.File → Self → Type 0 };

    /// Opens the file of that name for reading.
    fn open(&mut self, name: &str) -> io::Result<Self::File>
        ensures opened { IfOk result (λ file. opens self.old name.now file self.new) }
        ensures refused { OnErr result (refuses self.old name.now self.new) };

    /// Closes a file.
    fn close(&mut self, file: Self::File)
        ensures closed { closes self.old file self.new };
}

impl<R: Files> FileStore for R {
    type File = R::File;

    ghost opens = { λ _ _ _ _. ⊤ };

    ghost refuses = { λ _ _ _. ⊤ };

    ghost closes = { λ _ _ _. ⊤ };

    fn open(&mut self, name: &str) -> io::Result<R::File> {
        fs::open(self, name)
    }

    fn close(&mut self, _file: R::File) {}
}

/// What bytes are read from.
pub trait Source {
    /// The bytes that are left, where they are known.
    ghost remaining: { Self → Option (List ℕ) };

    /// What a read that gave these bytes may make of the source.
    ghost reads: { Self → List ℕ → Self → Type 0 };

    /// What a read that failed may make of it.
    ghost fails: { Self → Self → Type 0 };

    /// Reads some bytes into the front of the chunk, and answers how many.
    fn read_some(&mut self, chunk: &mut [u8]) -> io::Result<usize>
        ensures bound { ReadsAtMost result chunk.new }
        ensures bytes { ReadConsumes (remaining self.old) (remaining self.new) result chunk.new }
        ensures read { IfOk result (λ count. reads self.old (take count chunk.new) self.new) }
        ensures failed { OnErr result (fails self.old self.new) };
}

impl<R: Read> Source for R {
    ghost remaining = { R.remaining };

    ghost reads = { λ _ _ _. ⊤ };

    ghost fails = { λ _ _. ⊤ };

    fn read_some(&mut self, chunk: &mut [u8]) -> io::Result<usize> {
        self.read(chunk)
    }
}

/// What bytes are written to.
pub trait Outlet {
    /// The bytes that it holds, where they are known.
    ghost contents: { Self → Option (List ℕ) };

    /// What a write of that piece, which took so many bytes of it, may make of the outlet.
    ghost writes: { Self → List ℕ → ℕ → Self → Type 0 };

    /// What a write of that piece that failed may make of it.
    ghost fails: { Self → List ℕ → Self → Type 0 };

    /// What a flush of all that was written may make of it.
    ghost flushes: { Self → Self → Type 0 };

    /// What a flush that failed may make of it.
    ghost fails_to_flush: { Self → Self → Type 0 };

    /// Writes some bytes of the front of the piece, and answers how many.
    fn write_some(&mut self, piece: &[u8]) -> io::Result<usize>
        ensures bound { WritesAtMost result piece.now }
        ensures bytes { WriteAppends (contents self.old) (contents self.new) result piece.now }
        ensures written { IfOk result (λ count. writes self.old piece.now count self.new) }
        ensures failed { OnErr result (fails self.old piece.now self.new) };

    /// Passes on all that was written.
    fn flush_all(&mut self) -> io::Result<()>
        ensures bytes { Keeps (contents self.old) (contents self.new) }
        ensures flushed { OnOk result (flushes self.old self.new) }
        ensures failed { OnErr result (fails_to_flush self.old self.new) };
}

impl<W: Write> Outlet for W {
    ghost contents = { W.contents };

    ghost writes = { λ _ _ _ _. ⊤ };

    ghost fails = { λ _ _ _. ⊤ };

    ghost flushes = { λ _ _. ⊤ };

    ghost fails_to_flush = { λ _ _. ⊤ };

    fn write_some(&mut self, piece: &[u8]) -> io::Result<usize> {
        self.write(piece)
    }

    fn flush_all(&mut self) -> io::Result<()> {
        self.flush()
    }
}
