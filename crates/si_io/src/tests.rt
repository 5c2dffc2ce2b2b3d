//! The forms in memory, reading, and the host's forms against small readers and writers and a real
//! file.

ghost use Rattle.std.specs.Prelude.{IfOk};
ghost use Rattle.si_io.specs.Memory.{AreDistinct};

use crate::host::{HostShelf, HostSink};
use crate::memory::{MemFile, MemShelf, MemSink, SinkFail, SureShelf, SureSink};
use crate::reading::read_all;
use crate::shelf::{LoadFault, Shelf};
use crate::sink::{PutFault, Sink};
use si_base::ids::NoMemory;
use si_base::limits::MAX_TEXT;
use si_base::text::{Name, Text};
use std::alloc::Global;
use std::io::{Read, Write};
use std::test::Fail;
use std::{fs, io};

fn one_file(alloc: Global) -> Result<Vec<MemFile>, NoMemory>
    ensures { IfOk result (λ files. AreDistinct files.items) }
{
    let name = Name::copy_of(alloc, b"wire.sg")?;
    let content = Text::copy_of(alloc, b"abc")?;
    Ok(vec![in alloc; MemFile { name, content }]?)
}

/// What was loaded, nothing where it failed, and the fault.
fn told(alloc: Global, loaded: Result<Vec<u8>, LoadFault>) -> (Vec<u8>, Option<LoadFault>) {
    match loaded {
        Ok(bytes) => (bytes, None),
        Err(fault) => (Vec::new(alloc), Some(fault)),
    }
}

#[test]
fn shelves_in_memory(rt: HostRuntime) -> Result<(), Fail> {
    let alloc = rt.alloc();
    let mut shelf = MemShelf::new(one_file(alloc)?, vec![in alloc; 1]?);
    let failed = Some(LoadFault::Failed);
    let long = Some(LoadFault::TooLong { taken: 3 });
    for (file, limit, content, fault) in [
        ("wire.sg", 3, "abc", None),
        ("wire.sg", 3, "", failed),
        ("other.sg", 3, "", failed),
        ("wire.sg", 2, "", long),
    ] {
        let (bytes, got) = told(alloc, shelf.load(alloc, file, limit));
        assert_eq!(rt; bytes.as_slice(), content.as_bytes());
        assert_eq!(rt; got, fault);
    }
    Ok(())
}

#[test]
fn sure_shelves_in_memory(rt: HostRuntime) -> Result<(), Fail> {
    let alloc = rt.alloc();
    let mut sure = SureShelf::new(one_file(alloc)?);
    for (file, content) in [("wire.sg", "abc"), ("other.sg", "")] {
        let bytes = sure.load(alloc, file, 3)?;
        assert_eq!(rt; bytes.as_slice(), content.as_bytes());
    }
    Ok(())
}

#[test]
fn sinks_in_memory(rt: HostRuntime) -> Result<(), Fail> {
    let alloc = rt.alloc();
    let mut sink = MemSink::new(alloc, vec![in alloc; SinkFail { call: 1, taken: 2 }]?);
    sink.put(b"ab")?;
    assert_eq!(rt; sink.put(b"cde").err(), Some(PutFault::Failed));
    sink.put(b"f")?;
    assert_eq!(rt; sink.bytes(), b"abcdf".as_slice());
    let mut sure = SureSink::new(alloc);
    sure.put(b"ab")?;
    sure.put(b"c")?;
    assert_eq!(rt; sure.bytes(), b"abc".as_slice());
    Ok(())
}

/// How a reader or a writer behaves: it takes at most `most` bytes a call, and its calls of these
/// numbers, from 1, fail.
#[derive(Clone, Copy)]
struct Habit {
    most: usize,
    failing_call: u8,
    failing_flush: u8,
}

/// One byte a call, and no faults.
const ONE_AT_A_TIME: Habit = Habit {
    most: 1,
    failing_call: 0,
    failing_flush: 0,
};

/// A reader of a text with a habit.
#[derive(Drop)]
struct SlowReader<'a> {
    text: &'a [u8],
    habit: Habit,
    calls: u8,
}

impl Read for SlowReader<'_> {
    fn read(&mut self, buf: &mut [u8]) -> io::Result<usize> {
        self.calls = self.calls.saturating_add(1);
        if self.calls == self.habit.failing_call {
            return Err(io::Error::from(io::ErrorKind::BrokenPipe));
        }
        let count = self.habit.most.min(self.text.len()).min(buf.len());
        let (front, rest) = self.text.split_at(count);
        buf[..count].copy_from_slice(front);
        self.text = rest;
        Ok(count)
    }
}

/// A writer with a habit, which keeps its bytes.
#[derive(Drop)]
struct SlowWriter {
    bytes: Vec<u8>,
    habit: Habit,
    calls: u8,
    flushes: u8,
}

impl Write for SlowWriter {
    fn write(&mut self, buf: &[u8]) -> io::Result<usize> {
        self.calls = self.calls.saturating_add(1);
        if self.calls == self.habit.failing_call {
            return Err(io::Error::from(io::ErrorKind::BrokenPipe));
        }
        let count = self.habit.most.min(buf.len());
        self.bytes.extend_from_slice(&buf[..count])?;
        Ok(count)
    }

    fn flush(&mut self) -> io::Result<()> {
        self.flushes = self.flushes.saturating_add(1);
        if self.flushes == self.habit.failing_flush {
            return Err(io::Error::from(io::ErrorKind::BrokenPipe));
        }
        Ok(())
    }
}

#[test]
fn reading_up_to_a_limit(rt: HostRuntime) -> Result<(), Fail> {
    let alloc = rt.alloc();
    let all = Habit {
        most: 9,
        ..ONE_AT_A_TIME
    };
    let fails_at_second = Habit {
        failing_call: 2,
        ..ONE_AT_A_TIME
    };
    let long = Some(LoadFault::TooLong { taken: 3 });
    let failed = Some(LoadFault::Failed);
    for (habit, limit, answer, fault, faults_after) in [
        (all, 5, "abcde", None, 0),
        (all, 9, "abcde", None, 0),
        (all, 2, "", long, 0),
        (ONE_AT_A_TIME, 5, "abcde", None, 0),
        (ONE_AT_A_TIME, 2, "", long, 0),
        (fails_at_second, 5, "", failed, 1),
    ] {
        let mut reader = SlowReader {
            text: b"abcde",
            habit,
            calls: 0,
        };
        let mut faults = 0;
        let (bytes, got) = told(alloc, read_all(alloc, &mut reader, limit, &mut faults));
        assert_eq!(rt; bytes.as_slice(), answer.as_bytes());
        assert_eq!(rt; got, fault);
        assert_eq!(rt; faults, faults_after);
    }
    Ok(())
}

#[test]
fn a_long_text_is_taken_no_further(rt: HostRuntime) -> Result<(), Fail> {
    let alloc = rt.alloc();
    let mut text: &[u8] = b"abcde";
    let mut faults = 0;
    let long = Some(LoadFault::TooLong { taken: 3 });
    assert_eq!(rt; read_all(alloc, &mut text, 2, &mut faults).err(), long);
    assert_eq!(rt; text, b"de".as_slice());
    assert_eq!(rt;
        read_all(alloc, &mut text, 2, &mut faults)?.as_slice(),
        b"de".as_slice()
    );
    Ok(())
}

#[test]
fn host_sinks_over_slow_writers(rt: HostRuntime) -> Result<(), Fail> {
    let alloc = rt.alloc();
    let nothing = Habit {
        most: 0,
        ..ONE_AT_A_TIME
    };
    let fails_at_second = Habit {
        failing_call: 2,
        ..ONE_AT_A_TIME
    };
    let fails_to_flush = Habit {
        failing_flush: 1,
        ..ONE_AT_A_TIME
    };
    let failed = Some(PutFault::Failed);
    for (habit, fault, written, flushes) in [
        (ONE_AT_A_TIME, None, "abc", 1),
        (nothing, failed, "", 0),
        (fails_at_second, failed, "a", 0),
        (fails_to_flush, failed, "abc", 1),
    ] {
        let mut writer = SlowWriter {
            bytes: Vec::new(alloc),
            habit,
            calls: 0,
            flushes: 0,
        };
        {
            let mut sink = HostSink::new(&mut writer);
            assert_eq!(rt; sink.put(b"abc").err(), fault);
        }
        assert_eq!(rt; writer.bytes.as_slice(), written.as_bytes());
        assert_eq!(rt; writer.flushes, flushes);
    }
    Ok(())
}

/// Writes a file of these pieces.
fn write_file(rt: &HostRuntime, name: &str, pieces: [&[u8]; 2]) -> Result<(), Fail> {
    let mut sink = HostSink::new(fs::create(rt, name)?);
    for piece in pieces {
        sink.put(piece)?;
    }
    Ok(())
}

#[test]
fn host_forms_on_files(rt: HostRuntime) -> Result<(), Fail> {
    let alloc = rt.alloc();
    let name = "si_io_host_forms.txt";
    let other = "si_io_other_file.txt";
    write_file(&rt, name, [b"01234", b"56789"])?;
    write_file(&rt, other, [b"ab", b"c"])?;
    let mut shelf = HostShelf::new(&rt);
    for (file, limit, content, fault) in [
        (name, 10, "0123456789", None),
        (other, 10, "abc", None),
        (name, 9, "", Some(LoadFault::TooLong { taken: 10 })),
        (name, 0, "", Some(LoadFault::TooLong { taken: 1 })),
        (name, 10, "0123456789", None),
        ("si_io_no_file.txt", 10, "", Some(LoadFault::Failed)),
    ] {
        let (bytes, got) = told(alloc, shelf.load(alloc, file, limit));
        assert_eq!(rt; bytes.as_slice(), content.as_bytes());
        assert_eq!(rt; got, fault);
    }
    fs::remove_file(&rt, name)?;
    fs::remove_file(&rt, other)?;
    Ok(())
}

#[test]
fn the_longest_text_is_loaded_and_no_longer_one(rt: HostRuntime) -> Result<(), Fail> {
    let name = "si_io_longest_text.txt";
    let long = Some(LoadFault::TooLong {
        taken: MAX_TEXT + 1,
    });
    for (len, loaded, fault) in [(MAX_TEXT, MAX_TEXT, None), (MAX_TEXT + 1, 0, long)] {
        write_letters(&rt, name, len)?;
        let (bytes, got) = told(
            rt.alloc(),
            HostShelf::new(&rt).load(rt.alloc(), name, MAX_TEXT),
        );
        assert_eq!(rt; bytes.len() as u64, loaded);
        assert!(rt; bytes.iter().all(|b| *b == b'x'));
        assert_eq!(rt; got, fault);
    }
    fs::remove_file(&rt, name)?;
    Ok(())
}

/// Writes a file of that many letters.
fn write_letters(rt: &HostRuntime, name: &str, len: u64) -> Result<(), Fail> {
    let letters = vec![in rt.alloc(); b'x'; len as usize]?;
    HostSink::new(fs::create(rt, name)?).put(&letters)?;
    Ok(())
}
