//! A whole input, timed.
ghost use Rattle.std.specs.Prelude.{◌≡◌, IfOk};
ghost use Rattle.index.specs.Verdict.{verdict};

use super::bench::{Bench, Scratch};
use super::input::Input;
use super::options::{Mode, Options};
use console::{Stop, run, write_out};
use index::{OpenRefusal, SealedIndex};
use postings::Postings;
use std::alloc::Global;
use std::io;
use std::io::{Read, Write};
use std::time::Clock;

// What the mode says of the queries.
fn put_all<P: Postings, C: Clock>(
    heap: Global,
    bench: &Bench<'_, P, C>,
    queries: &[Vec<u8>],
    out: &mut String,
) -> io::Result<()> {
    let mut scratch = Scratch::new(heap)?;
    match bench.options.mode {
        Mode::Count => bench.put_queries(&mut scratch, queries, out),
        Mode::Answer => bench.put_answers(&mut scratch, queries, out),
        Mode::Next => bench.put_names(&mut scratch, queries, out),
    }
}

// Writes what the mode says of the queries.
fn tell<P: Postings, C: Clock, W: Write>(
    heap: Global,
    bench: &Bench<'_, P, C>,
    queries: &[Vec<u8>],
    writer: &mut W,
) -> io::Result<()> {
    let mut out = String::new(heap);
    put_all(heap, bench, queries, &mut out)?;
    write_out(writer, out.as_bytes())
}

/// Enters the log of the input, and then says what its queries find over the whole log, with their times if these are wanted.
pub fn time_log<C: Clock, R: Read, W: Write>(
    heap: Global,
    clock: &C,
    options: Options,
    reader: &mut R,
    writer: &mut W,
) -> Result<(), Stop> {
    let mut input = Input::new(heap);
    run(heap, &mut input, reader, writer)?;
    let bench = Bench {
        store: &input.book,
        clock,
        options,
    };
    match tell(heap, &bench, &input.queries, writer) {
        Ok(()) => Ok(()),
        Err(why) => Err(Stop::Output(why)),
    }
}

// The same of the queries of the input over an opened index.
fn time_opened<C: Clock, R: Read, W: Write>(
    heap: Global,
    clock: &C,
    options: Options,
    index: &SealedIndex<'_>,
    reader: &mut R,
    writer: &mut W,
) -> Result<(), Stop> {
    let mut input = Input::new(heap);
    run(heap, &mut input, reader, writer)?;
    let bench = Bench {
        store: index,
        clock,
        options,
    };
    match tell(heap, &bench, &input.queries, writer) {
        Ok(()) => Ok(()),
        Err(why) => Err(Stop::Output(why)),
    }
}

/// Opens the index, and then says what the queries of the input find over it; or tells the first rule that the bytes break.
pub fn time_index<C: Clock, R: Read, W: Write>(
    heap: Global,
    clock: &C,
    options: Options,
    bytes: &[u8],
    reader: &mut R,
    writer: &mut W,
) -> Result<Result<(), OpenRefusal>, Stop>
    ensures opened { IfOk result (λ opened. opened ≡ verdict bytes.now) }
{
    let mut index = SealedIndex::new();
    if let Err(why) = index.open(bytes) {
        return Ok(Err(why));
    }
    time_opened(heap, clock, options, &index, reader, writer)?;
    Ok(Ok(()))
}
