//! Files of the host's file store, and its writers, over the calls of `system`. Nothing is told of
//! their bytes.

ghost use Rattle.std.specs.Prelude.{◌≡◌, ◌≢◌, ◌⊎◌, ℕ, ◌+◌, ◌^◌, ◌<◌, ◌≤◌, List, take, None, OnOk};
ghost use Rattle.std.specs.Prelude.{Err};
ghost use Rattle.std.specs.Io.KnownBytes.{Appends};
ghost use Rattle.si_io.specs.Host.{IsLoadOf, IsPutTo, IsRead, OutletCalls, StoreCalls};
ghost use Rattle.si_io.specs.Outside.{IsLoad, answer_of, one_more};

use crate::reading::read_all;
use crate::shelf::{LoadFault, Shelf};
use crate::sink::{PutFault, Sink};
use crate::system::{FileStore, Outlet};
use std::alloc::Global;

/// The files of a store. One count of faults serves for every name. What a load answers is what the
/// file of that name holds, or `Failed`; the file is opened once, and read once. No contract says
/// which bytes those are: that `fs::open` opens the file of the name that it is given is left to
/// trust.
#[derive(Drop)]
pub struct HostShelf<R> {
    store: R,
    faults: u64,
}

impl<R: FileStore> HostShelf<R> {
    /// The files that the store reaches.
    pub fn new(store: R) -> HostShelf<R>
        ensures store { result.store ≡ store }
        ensures faults { result.faults ≡ 0 }
    {
        HostShelf { store, faults: 0 }
    }
}

impl<R: FileStore> Shelf for HostShelf<R> {
    ghost content = { λ _ _. None };

    ghost faults = { λ s _. s.faults };

    ghost loads = { λ old name answer new. IsLoadOf (record {
      Opens = R.opens;
      Refuses = R.refuses;
      Closes = R.closes;
      Reads = R.File.reads;
      Fails = R.File.fails;
      remaining = R.File.remaining;
    }) name answer old.store new.store };

    fn load(&mut self, alloc: Global, name: &str, limit: u64) -> Result<Vec<u8>, LoadFault>
        requires { limit + 1 < 2 ^ 64 }
        ensures load { IsLoad None limit self.old.faults self.new.faults result }
        ensures file { (result ≡ Err LoadFault.Failed
            × R.refuses self.old.store name.now self.new.store)
            ⊎ IsRead (record {
              Opens = R.opens;
              Refuses = R.refuses;
              Closes = R.closes;
              Reads = R.File.reads;
              Fails = R.File.fails;
              remaining = R.File.remaining;
            }) name.now limit self.old.faults self.new.faults result self.old.store self.new.store }
        ensures taken { (taken : ℕ) → result ≡ Err (LoadFault.TooLong taken) → taken ≡ limit + 1 }
        ensures rises { result ≡ Err LoadFault.Failed → self.new.faults ≡ one_more self.old.faults }
        ensures later { self.old.faults ≤ self.new.faults }
        ensures without_fault { result ≢ Err LoadFault.Failed
            → (n : List ℕ) → self.new.faults ≡ self.old.faults }
        ensures loaded { IsLoadOf (record {
          Opens = R.opens;
          Refuses = R.refuses;
          Closes = R.closes;
          Reads = R.File.reads;
          Fails = R.File.fails;
          remaining = R.File.remaining;
        }) name.now (answer_of result) self.old.store self.new.store }
    {
        let Ok(mut file) = self.store.open(name) else {
            self.faults = self.faults.saturating_add(1);
            return Err(LoadFault::Failed);
        };
        let loaded = read_all(alloc, &mut file, limit, &mut self.faults);
        self.store.close(file);
        loaded
    }
}

/// A writer of the host. It never answers `NoMemory`. To a writer that tells the bytes that it
/// holds, a put that answers `Ok` appended the piece, and one that fails a prefix of it. After `Ok`
/// all was flushed; a write or a flush that failed is the last call, and so is a write of nothing.
#[derive(Drop)]
pub struct HostSink<W> {
    writer: W,
    faults: u64,
}

impl<W: Outlet> HostSink<W> {
    /// A sink that writes to the writer, and flushes after each piece. Nothing is written yet.
    pub fn new(writer: W) -> HostSink<W>
        ensures writer { result.writer ≡ writer }
        ensures faults { result.faults ≡ 0 }
    {
        HostSink { writer, faults: 0 }
    }
}

impl<W: Outlet> Sink for HostSink<W> {
    ghost bytes = { λ _. None };

    ghost faults = { λ s. s.faults };

    ghost puts = { λ old piece answer new. IsPutTo (record {
      Writes = W.writes;
      Fails = W.fails;
      Flushes = W.flushes;
      FailsToFlush = W.fails_to_flush;
    }) piece answer old.writer new.writer };

    fn put(&mut self, piece: &[u8]) -> Result<(), PutFault>
        ensures has_memory { result ≢ Err PutFault.NoMemory }
        ensures written { OnOk result
            (Appends (W.contents self.old.writer) (W.contents self.new.writer) piece.now) }
        ensures part { result ≡ Err PutFault.Failed → (k : ℕ)
            × Appends (W.contents self.old.writer) (W.contents self.new.writer) (take k piece.now) }
        ensures rises { result ≡ Err PutFault.Failed → self.new.faults ≡ one_more self.old.faults }
        ensures stays { result ≢ Err PutFault.Failed → self.new.faults ≡ self.old.faults }
        ensures later { self.old.faults ≤ self.new.faults }
        ensures taken { IsPutTo (record {
          Writes = W.writes;
          Fails = W.fails;
          Flushes = W.flushes;
          FailsToFlush = W.fails_to_flush;
        }) piece.now result self.old.writer self.new.writer }
    {
        let mut rest = piece;
        while !rest.is_empty() {
            match self.writer.write_some(rest) {
                Ok(count) if count > 0 => rest = rest.split_at(count).1,
                _ => {
                    self.faults = self.faults.saturating_add(1);
                    return Err(PutFault::Failed);
                }
            }
        }
        match self.writer.flush_all() {
            Ok(()) => Ok(()),
            Err(_) => {
                self.faults = self.faults.saturating_add(1);
                Err(PutFault::Failed)
            }
        }
    }
}
