//! Worked examples over the log of furnace 2: searches and the shift report, each result worked out by hand from the rules.
#![tactic(auto)]

#[cfg(test)]
mod furnace {
    use extents::Extent;
    use shift_logbook::Logbook;
    use std::process::Abort;
    use std::test::Fail;

    // What stands in an area before a call, so that one that is not cleared shows.
    pub const USED: Extent = Extent { start: 7, end: 9 };

    // The reversals (2,6), (8,11) and (14,18), with alarms in the first and the last, and a cut in the last. The log is 19 slots long.
    pub fn furnace_log(rt: &(impl Abort + AllocGlobal)) -> Result<Logbook, Fail> {
        let mut book = Logbook::new();
        assert!(rt; book.enter(b"[rev", 2).is_ok());
        assert!(rt; book.enter(b"alarm", 4).is_ok());
        assert!(rt; book.enter(b"rev]", 6).is_ok());
        assert!(rt; book.enter(b"[rev", 8).is_ok());
        assert!(rt; book.enter(b"rev]", 11).is_ok());
        assert!(rt; book.enter(b"alarm", 12).is_ok());
        assert!(rt; book.enter(b"[rev", 14).is_ok());
        assert!(rt; book.enter(b"cut", 15).is_ok());
        assert!(rt; book.enter(b"rev]", 18).is_ok());
        assert!(rt; book.enter(b"alarm", 18).is_ok());
        Ok(book)
    }

    // Every extent of the area is (0,0).
    pub fn cleared(rt: &impl Abort, area: &[Extent]) {
        for x in area {
            assert_eq!(rt; x.start, 0);
            assert_eq!(rt; x.end, 0);
        }
    }
}

#[cfg(test)]
mod reports {
    use super::furnace::{USED, cleared, furnace_log};
    use extents::Extent;
    use report::report;
    use shift_logbook::Logbook;
    use std::process::Abort;
    use std::test::Fail;

    // The report is refused with the number, and leaves both areas cleared.
    fn refused(
        rt: &impl Abort,
        book: &Logbook,
        stack: &mut [Extent],
        scratch: &mut [Extent],
        number: u8,
    ) {
        match report(book, stack, scratch) {
            Ok(_) => assert!(rt; false),
            Err(fault) => assert_eq!(rt; fault.number(), number),
        }
        cleared(rt, stack);
        cleared(rt, scratch);
    }

    #[test]
    fn one_quiet_reversal(rt: HostRuntime) -> Result<(), Fail> {
        let book = furnace_log(&rt)?;
        let mut stack = [USED; 10];
        let mut scratch = [USED; 1];
        let found = report(&book, &mut stack, &mut scratch)
            .ok()
            .ok_or("refused")?;
        assert_eq!(rt; found.n, 1);
        assert_eq!(rt; found.calls, 30);
        assert_eq!(rt; stack[0].start, 8);
        assert_eq!(rt; stack[0].end, 11);
        cleared(&rt, &stack[1..]);
        cleared(&rt, &scratch);
        Ok(())
    }

    #[test]
    fn nothing_logged(rt: HostRuntime) -> Result<(), Fail> {
        let book = Logbook::new();
        let mut stack = [USED; 1];
        let mut scratch = [USED; 1];
        let found = report(&book, &mut stack, &mut scratch)
            .ok()
            .ok_or("refused")?;
        assert_eq!(rt; found.n, 0);
        assert_eq!(rt; found.calls, 5);
        cleared(&rt, &stack);
        cleared(&rt, &scratch);
        Ok(())
    }

    #[test]
    fn refused_at_the_edge(rt: HostRuntime) -> Result<(), Fail> {
        let book = furnace_log(&rt)?;
        let mut short = [USED; 9];
        let mut stack = [USED; 10];
        let mut scratch = [USED; 1];
        let mut none = [USED; 0];
        refused(&rt, &book, &mut short, &mut scratch, 22);
        refused(&rt, &book, &mut stack, &mut none, 21);
        refused(&rt, &book, &mut short, &mut none, 22);
        Ok(())
    }
}

#[cfg(test)]
mod searches {
    use super::furnace::{USED, cleared, furnace_log};
    use extents::Extent;
    use search::search;
    use shift_logbook::Logbook;
    use std::process::Abort;
    use std::test::Fail;

    // A search of a logbook.
    #[derive(Clone, Copy)]
    struct Search<'a> {
        book: &'a Logbook,
        trace: &'a [i32],
        text: &'a [u8],
    }

    // At 1,590 degrees and above are slots 1 to 4 and slot 6.
    const TRACE: [i32; 7] = [15880, 15900, 15905, 15905, 15900, 15899, 15900];

    // The search answers these extents, after so many calls; they stand in the stack area, and the rest of both areas is cleared.
    fn finds(
        rt: &impl Abort,
        asked: Search<'_>,
        stack: &mut [Extent],
        scratch: &mut [Extent],
        extents: &[(u32, u32)],
        calls: u64,
    ) {
        match search(asked.book, asked.trace, asked.text, stack, scratch) {
            Ok(listing) => {
                assert_eq!(rt; listing.n, extents.len());
                assert_eq!(rt; listing.calls, calls);
            }
            Err(_) => assert!(rt; false),
        }
        for (i, x) in stack.iter().enumerate() {
            let (start, end) = extents.get(i).copied().unwrap_or((0, 0));
            assert_eq!(rt; x.start, start);
            assert_eq!(rt; x.end, end);
        }
        cleared(rt, scratch);
    }

    // The search is refused with the number and the place, and leaves both areas cleared.
    fn refused(
        rt: &impl Abort,
        asked: Search<'_>,
        stack: &mut [Extent],
        scratch: &mut [Extent],
        number: u8,
        place: usize,
    ) {
        match search(asked.book, asked.trace, asked.text, stack, scratch) {
            Ok(_) => assert!(rt; false),
            Err(fault) => {
                assert_eq!(rt; fault.number(), number);
                assert_eq!(rt; fault.place(), place);
            }
        }
        cleared(rt, stack);
        cleared(rt, scratch);
    }

    // `@1590` alone is listed: a first start for each of the two runs, and one that finds none. In brackets the place is still its own.
    #[test]
    fn runs_alone(rt: HostRuntime) -> Result<(), Fail> {
        let book = furnace_log(&rt)?;
        let trace = [15880, 15900, 15905, 15899, -1, 15900];
        let alone = Search {
            book: &book,
            trace: &trace,
            text: b"@1590",
        };
        finds(
            &rt,
            alone,
            &mut [USED; 3],
            &mut [USED; 2],
            &[(1, 2), (5, 5)],
            3,
        );
        finds(
            &rt,
            alone,
            &mut [USED; 2],
            &mut [USED; 2],
            &[(1, 2), (5, 5)],
            3,
        );
        refused(&rt, alone, &mut [USED; 2], &mut [USED; 1], 21, 0);
        refused(&rt, alone, &mut [USED; 1], &mut [USED; 2], 22, 0);
        refused(&rt, alone, &mut [USED; 0], &mut [USED; 0], 21, 0);
        let bracketed = Search {
            text: b"(@1590)",
            ..alone
        };
        finds(
            &rt,
            bracketed,
            &mut [USED; 2],
            &mut [USED; 2],
            &[(1, 2), (5, 5)],
            3,
        );
        refused(&rt, bracketed, &mut [USED; 2], &mut [USED; 1], 21, 1);
        refused(&rt, bracketed, &mut [USED; 1], &mut [USED; 2], 22, 1);
        Ok(())
    }

    // Below 0 a sample is a failed probe, and lies in no run, not even at 0 degrees.
    #[test]
    fn failed_probes(rt: HostRuntime) -> Result<(), Fail> {
        let book = furnace_log(&rt)?;
        let trace = [-1, 0, 5, -1];
        let asked = Search {
            book: &book,
            trace: &trace,
            text: b"@0",
        };
        finds(&rt, asked, &mut [USED; 1], &mut [USED; 1], &[(1, 2)], 2);
        Ok(())
    }

    // `alarm` is fetched at 4, 12 and 18, in 4 calls, and needs room for 3 extents. Of the listing, the first start at 0 takes 2 calls: alarm
    // (4,4), and the first run that ends at or after 4, (1,4), which begins at or before 4. The first start at 5 takes 2 calls: alarm (12,12),
    // and no run ends at or after 12.
    #[test]
    fn runs_on_the_right(rt: HostRuntime) -> Result<(), Fail> {
        let book = furnace_log(&rt)?;
        let asked = Search {
            book: &book,
            trace: &TRACE,
            text: b"alarm < @1590",
        };
        finds(&rt, asked, &mut [USED; 3], &mut [USED; 1], &[(4, 4)], 8);
        refused(&rt, asked, &mut [USED; 3], &mut [USED; 0], 21, 6);
        refused(&rt, asked, &mut [USED; 2], &mut [USED; 1], 22, 0);
        refused(&rt, asked, &mut [USED; 0], &mut [USED; 0], 22, 0);
        Ok(())
    }

    // Nothing is fetched. The first start at 0 takes 4 calls: window (0,1), run (1,4), which begins after 0, so the window from 1 on, (1,2), and
    // again run (1,4). Those at 2 and 3 take 2 each. The one at 4 takes 4: window (4,5), run (6,6), window (6,7), and no run that ends so late.
    #[test]
    fn windows_in_runs(rt: HostRuntime) -> Result<(), Fail> {
        let book = furnace_log(&rt)?;
        let asked = Search {
            book: &book,
            trace: &TRACE,
            text: b"#2 < @1590",
        };
        let found = [(1, 2), (2, 3), (3, 4)];
        finds(&rt, asked, &mut [USED; 3], &mut [USED; 3], &found, 12);
        finds(&rt, asked, &mut [USED; 4], &mut [USED; 5], &found, 12);
        refused(&rt, asked, &mut [USED; 3], &mut [USED; 2], 21, 3);
        refused(&rt, asked, &mut [USED; 2], &mut [USED; 3], 22, 3);
        Ok(())
    }

    // A trace may be as long as the log, 19 samples, and no longer. A text at fault is refused first; the areas come after the trace.
    #[test]
    fn trace_as_long_as_the_log(rt: HostRuntime) -> Result<(), Fail> {
        let book = furnace_log(&rt)?;
        let whole = Search {
            book: &book,
            trace: &[15900; 19],
            text: b"@1590",
        };
        finds(&rt, whole, &mut [USED; 1], &mut [USED; 1], &[(0, 18)], 2);
        let longer = Search {
            trace: &[15900; 20],
            ..whole
        };
        refused(&rt, longer, &mut [USED; 1], &mut [USED; 1], 20, 0);
        refused(&rt, longer, &mut [USED; 0], &mut [USED; 0], 20, 0);
        let unused = Search {
            text: b"alarm",
            ..longer
        };
        refused(&rt, unused, &mut [USED; 3], &mut [USED; 0], 20, 0);
        let at_fault = Search {
            text: b"alarm )",
            ..longer
        };
        refused(&rt, at_fault, &mut [USED; 3], &mut [USED; 3], 17, 6);
        Ok(())
    }

    // A name's fetch is no listing, so it needs no scratch area: `alarm` takes 4 calls, `cut` 2, and `stone`, which was never entered, 1.
    #[test]
    fn names_alone(rt: HostRuntime) -> Result<(), Fail> {
        let book = furnace_log(&rt)?;
        let alarm = Search {
            book: &book,
            trace: &[],
            text: b"alarm",
        };
        let found = [(4, 4), (12, 12), (18, 18)];
        finds(&rt, alarm, &mut [USED; 3], &mut [USED; 0], &found, 4);
        finds(&rt, alarm, &mut [USED; 4], &mut [USED; 1], &found, 4);
        refused(&rt, alarm, &mut [USED; 2], &mut [USED; 3], 22, 0);
        let cut = Search {
            text: b"cut",
            ..alarm
        };
        finds(&rt, cut, &mut [USED; 1], &mut [USED; 0], &[(15, 15)], 2);
        refused(&rt, cut, &mut [USED; 0], &mut [USED; 1], 22, 0);
        let stone = Search {
            text: b"stone",
            ..alarm
        };
        finds(&rt, stone, &mut [USED; 0], &mut [USED; 0], &[], 1);
        Ok(())
    }

    // `#19` alone is listed, in 2 calls, and needs one place in each area; `#20` is longer than the log, and needs none.
    #[test]
    fn windows_alone(rt: HostRuntime) -> Result<(), Fail> {
        let book = furnace_log(&rt)?;
        let whole = Search {
            book: &book,
            trace: &[],
            text: b"#19",
        };
        finds(&rt, whole, &mut [USED; 1], &mut [USED; 1], &[(0, 18)], 2);
        refused(&rt, whole, &mut [USED; 1], &mut [USED; 0], 21, 0);
        refused(&rt, whole, &mut [USED; 0], &mut [USED; 1], 22, 0);
        let longer = Search {
            text: b"#20",
            ..whole
        };
        finds(&rt, longer, &mut [USED; 0], &mut [USED; 0], &[], 1);
        Ok(())
    }

    // `alarm` and `cut` take 6 calls and need room for 3 and then 4 extents. `alarm & cut` lists (12,15) and (15,18) in 4 + 4 + 2 calls, so it
    // needs a scratch area of 2, and leaves 2 extents. `#5 > ..` lists its 3 extents in 4 + 2 + 4 + 1 calls, and needs 3 places in each area.
    #[test]
    fn nested(rt: HostRuntime) -> Result<(), Fail> {
        let book = furnace_log(&rt)?;
        let asked = Search {
            book: &book,
            trace: &[],
            text: b"#5 > (alarm & cut)",
        };
        let found = [(11, 15), (12, 16), (14, 18)];
        finds(&rt, asked, &mut [USED; 4], &mut [USED; 3], &found, 27);
        refused(&rt, asked, &mut [USED; 4], &mut [USED; 2], 21, 3);
        refused(&rt, asked, &mut [USED; 4], &mut [USED; 1], 21, 12);
        refused(&rt, asked, &mut [USED; 3], &mut [USED; 3], 22, 14);
        refused(&rt, asked, &mut [USED; 2], &mut [USED; 3], 22, 6);
        refused(&rt, asked, &mut [USED; 1], &mut [USED; 1], 22, 6);
        Ok(())
    }

    // A list may need more room than its operands did. `cut` takes 2 calls and one place. The first start at 0 takes 4 calls: window (0,4), cut
    // (15,15), which ends after 4, so the window that ends at 15, (11,15), and again the cut. Those at 12, 13 and 14 take 2 each, and at 15 no
    // window starts: 1 call.
    #[test]
    fn longer_than_its_operands(rt: HostRuntime) -> Result<(), Fail> {
        let book = furnace_log(&rt)?;
        let asked = Search {
            book: &book,
            trace: &[],
            text: b"#5 > cut",
        };
        let found = [(11, 15), (12, 16), (13, 17), (14, 18)];
        finds(&rt, asked, &mut [USED; 4], &mut [USED; 4], &found, 13);
        refused(&rt, asked, &mut [USED; 4], &mut [USED; 3], 21, 3);
        refused(&rt, asked, &mut [USED; 3], &mut [USED; 4], 22, 3);
        refused(&rt, asked, &mut [USED; 3], &mut [USED; 3], 21, 3);
        refused(&rt, asked, &mut [USED; 0], &mut [USED; 4], 22, 5);
        Ok(())
    }
}
