//! Loads and puts that fail.

use crate::tests::{C_ELEMENT, FOUR_CELLS, MAP, SYNTH, Texts, files, only, with_cells, words};
use si_io::memory::{MemShelf, MemSink, SinkFail};
use si_refusals::status::Status;
use si_tool::run::run;
use std::alloc::Global;
use std::process::Abort;
use std::test::Fail;

/// The calls that fail: the number of a load, and one put to the output and to the errors.
#[derive(Clone, Copy)]
struct Faults {
    load: u64,
    out: SinkFail,
    err: SinkFail,
}

/// No run comes to a call of this number.
const NEVER: u64 = u64::MAX;

const NO_PUT: SinkFail = SinkFail {
    call: NEVER,
    taken: 0,
};

const NO_FAULTS: Faults = Faults {
    load: NEVER,
    out: NO_PUT,
    err: NO_PUT,
};

/// The first put takes so many bytes, or all if there are fewer, and fails.
fn first_put(taken: u64) -> SinkFail {
    SinkFail { call: 0, taken }
}

/// Runs while calls fail, and compares the status and all that was put.
fn expect_while_failing(
    rt: &impl Abort,
    alloc: Global,
    command: &[&str],
    texts: Texts<'_>,
    faults: Faults,
    want: (Status, &[u8], &[u8]),
) -> Result<(), Fail> {
    let mut shelf = MemShelf::new(files(alloc, texts)?, vec![in alloc; faults.load]?);
    let mut out = MemSink::new(alloc, vec![in alloc; faults.out]?);
    let mut err = MemSink::new(alloc, vec![in alloc; faults.err]?);
    let command = words(alloc, command)?;
    let status = run(alloc, &command, &mut shelf, &mut out, &mut err);
    assert_eq!(rt; status, want.0);
    assert_eq!(rt; out.bytes(), want.1);
    assert_eq!(rt; err.bytes(), want.2);
    Ok(())
}

/// Runs while loads or puts fail, and expects a refusal with nothing on `out`.
fn expect_refusal(
    rt: &impl Abort,
    alloc: Global,
    faults: Faults,
    status: Status,
    line: &[u8],
) -> Result<(), Fail> {
    let texts = with_cells(C_ELEMENT, FOUR_CELLS);
    expect_while_failing(rt, alloc, &MAP, texts, faults, (status, b"", line))
}

#[test]
fn loads_that_fail(rt: HostRuntime) -> Result<(), Fail> {
    let alloc = rt.alloc();
    let mut faults = NO_FAULTS;
    faults.load = 1;
    expect_refusal(&rt, alloc, faults, Status::ReadFault, b"readfault c.net\n")?;
    faults.load = 0;
    expect_refusal(
        &rt,
        alloc,
        faults,
        Status::ReadFault,
        b"readfault graph.sg\n",
    )?;
    faults.err = first_put(0);
    expect_refusal(&rt, alloc, faults, Status::ReadFault, b"")
}

#[test]
fn puts_that_fail(rt: HostRuntime) -> Result<(), Fail> {
    let alloc = rt.alloc();
    let mut faults = NO_FAULTS;
    faults.out = first_put(0);
    expect_refusal(&rt, alloc, faults, Status::WriteFault, b"writefault\n")?;
    faults.out = first_put(10);
    let want = (
        Status::WriteFault,
        b".version 2".as_slice(),
        b"writefault\n".as_slice(),
    );
    expect_while_failing(&rt, alloc, &SYNTH, only(C_ELEMENT), faults, want)
}
