//! Queries over a store of postings, run again and again by the clock.
ghost use Rattle.std.specs.Prelude.{◌≡◌, None, IfOk};

use super::options::Options;
use super::spelling::{Times, put_count, put_times};
use answering::Areas;
use extents::Extent;
use postings::Postings;
use search::{BLANK, WorkAreas, fetch};
use std::alloc::{AllocError, Global};
use std::io;
use std::time::{Clock, Instant};

/// How many runs make a sample, so that reading the clock weighs little.
const RUNS: u32 = 8;

/// How many slots of a name are fetched at most.
const AREA: usize = 8_192;

/// What is timed.
#[derive(Clone, Copy, Debug, PartialEq, Eq)]
enum Work<'a> {
    /// A search of the text.
    Search(&'a [u8]),
    /// The same with its answer spelled.
    Answer(&'a [u8]),
    /// The slots of all these names in order.
    Fetch(&'a [Vec<u8>]),
}

/// What runs need: areas for searches and for fetched slots, a text for answers that are thrown away, and the samples so far.
#[derive(Drop)]
pub struct Scratch {
    areas: Areas,
    work: WorkAreas,
    slots: Vec<Extent>,
    thrown: String,
    samples: Vec<u64>,
}

impl Scratch {
    /// Before the first run.
    pub fn new(heap: Global) -> Result<Scratch, AllocError> {
        Ok(Scratch {
            areas: Areas::new(heap)?,
            work: WorkAreas::new(heap, AREA)?,
            slots: vec![in heap; BLANK; AREA]?,
            thrown: String::new(heap),
            samples: Vec::new(heap),
        })
    }
}

/// A store that is asked, and the clock and the options by which that is timed.
#[derive(Drop)]
pub struct Bench<'a, P, C> {
    pub store: &'a P,
    pub clock: &'a C,
    pub options: Options,
}

impl<'a, P: Postings, C: Clock> Bench<'a, P, C> {
    // How many slots and calls it takes to fetch all slots of the names.
    fn fetch_all(&self, scratch: &mut Scratch, names: &[Vec<u8>]) -> (u64, u64) {
        let mut slots: u64 = 0;
        let mut calls: u64 = 0;
        for name in names {
            if let Ok(listing) = fetch(self.store, name, scratch.slots.as_mut_slice()) {
                slots = slots.saturating_add(listing.n as u64);
                calls = calls.saturating_add(listing.calls);
            }
        }
        (slots, calls)
    }

    // Does the work once.
    fn run(&self, scratch: &mut Scratch, work: Work<'_>) -> Result<(), AllocError> {
        match work {
            Work::Search(text) => {
                let _ = scratch.work.search(self.store, &[], text);
                Ok(())
            }
            Work::Answer(text) => {
                scratch.thrown.clear();
                scratch.areas.query(self.store, text, &mut scratch.thrown)
            }
            Work::Fetch(names) => {
                let _ = self.fetch_all(scratch, names);
                Ok(())
            }
        }
    }

    // The time of one run out of as many as make a sample, in ns.
    fn sample(&self, scratch: &mut Scratch, work: Work<'_>) -> io::Result<u64> {
        let start = Instant::now(self.clock)?;
        for _ in 0..RUNS {
            self.run(scratch, work)?;
        }
        let nanos = start.elapsed(self.clock)?.as_nanos();
        Ok(u64::try_from(nanos / RUNS as u128).unwrap_or(u64::MAX))
    }

    // The least and the median time of a run.
    fn measure(&self, scratch: &mut Scratch, work: Work<'_>) -> io::Result<Option<Times>> {
        scratch.samples.clear();
        for _ in 0..self.options.times {
            let nanos = self.sample(scratch, work)?;
            scratch.samples.push(nanos)?;
        }
        scratch.samples.sort_unstable();
        let middle = scratch.samples.len() / 2;
        match (scratch.samples.first(), scratch.samples.get(middle)) {
            (Some(least), Some(median)) => Ok(Some(Times {
                least: *least,
                median: *median,
            })),
            _ => Ok(None),
        }
    }

    // The same; none where no sample is wanted.
    fn times(&self, scratch: &mut Scratch, work: Work<'_>) -> io::Result<Option<Times>>
        ensures { self.now.options.times ≡ 0 → IfOk result (λ times. times ≡ None) }
    {
        if self.options.times == 0 {
            return Ok(None);
        }
        self.measure(scratch, work)
    }

    // A line for a query: its counts, and its times without and with its answer spelled.
    fn put_query(&self, scratch: &mut Scratch, text: &[u8], out: &mut String) -> io::Result<()> {
        put_count(out, scratch.work.search(self.store, &[], text))?;
        let searched = self.times(scratch, Work::Search(text))?;
        put_times(out, "search", searched)?;
        let answered = self.times(scratch, Work::Answer(text))?;
        put_times(out, "answer", answered)?;
        out.push('\n')?;
        Ok(())
    }

    /// A line for each query.
    pub fn put_queries(
        &self,
        scratch: &mut Scratch,
        queries: &[Vec<u8>],
        out: &mut String,
    ) -> io::Result<()> {
        for text in queries {
            self.put_query(scratch, text, out)?;
        }
        Ok(())
    }

    /// The answer to each query.
    pub fn put_answers(
        &self,
        scratch: &mut Scratch,
        queries: &[Vec<u8>],
        out: &mut String,
    ) -> io::Result<()> {
        for text in queries {
            scratch.areas.query(self.store, text, out)?;
        }
        Ok(())
    }

    /// A line for all names: how many slots they have, and the calls and the time to fetch them all.
    pub fn put_names(
        &self,
        scratch: &mut Scratch,
        names: &[Vec<u8>],
        out: &mut String,
    ) -> io::Result<()> {
        let (slots, calls) = self.fetch_all(scratch, names);
        write!(out, "slots {slots} calls {calls}")?;
        let fetched = self.times(scratch, Work::Fetch(names))?;
        put_times(out, "fetch", fetched)?;
        out.push('\n')?;
        Ok(())
    }
}
