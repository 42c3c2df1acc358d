//! Worked examples of sources and operators, with results by hand.
#![tactic(auto)]

#[cfg(test)]
mod tests {
    use combination::{BothOf, FollowedBy, OneOf};
    use containment::{ContainedIn, NotContaining};
    use extents::{Access, Extent, Operator, Source, StoredList, TraceRuns, Windows};
    use operators::{evaluate, list_into, list_operator};
    use std::process::Abort;
    use std::test::Fail;

    // The extent of one slot.
    fn point(slot: u32) -> Extent {
        Extent {
            start: slot,
            end: slot,
        }
    }

    // Lists a source, and compares its extents and the calls.
    fn expect<S: Source>(
        rt: &impl Abort,
        source: &S,
        wanted: &[(u32, u32)],
        calls: u64,
    ) -> Result<(), Fail> {
        let mut out = [point(0); 8];
        let listing = list_into(source, &mut out)
            .ok()
            .ok_or("longer than the area")?;
        assert_eq!(rt; listing.calls, calls);
        same(rt, &out, listing.n, wanted);
        Ok(())
    }

    // Lists an operator, and compares its extents and the calls.
    fn expect_operator<A: Source, B: Source>(
        rt: &impl Abort,
        operator: Operator,
        a: &A,
        b: &B,
        wanted: &[(u32, u32)],
        calls: u64,
    ) -> Result<(), Fail> {
        let mut out = [point(0); 8];
        let listing = list_operator(operator, a, b, &mut out)
            .ok()
            .ok_or("longer than the area")?;
        assert_eq!(rt; listing.calls, calls);
        same(rt, &out, listing.n, wanted);
        Ok(())
    }

    // Compares the first n extents with those wanted.
    fn same(rt: &impl Abort, out: &[Extent], n: usize, wanted: &[(u32, u32)]) {
        assert_eq!(rt; n, wanted.len());
        for (x, &(start, end)) in out.iter().zip(wanted.iter()) {
            assert_eq!(rt; x.start, start);
            assert_eq!(rt; x.end, end);
        }
    }

    #[test]
    fn windows(rt: HostRuntime) -> Result<(), Fail> {
        expect(&rt, &Windows::new(0, 5), &[], 1)?;
        expect(&rt, &Windows::new(5, 5), &[(0, 4)], 2)?;
        expect(&rt, &Windows::new(6, 5), &[], 1)?;
        expect(&rt, &Windows::new(3, 5), &[(0, 2), (1, 3), (2, 4)], 4)?;
        expect(
            &rt,
            &Windows::new(1_073_741_823, u32::MAX),
            &[(0, 1_073_741_822), (1, 1_073_741_823)],
            3,
        )
    }

    #[test]
    fn runs(rt: HostRuntime) -> Result<(), Fail> {
        let samples = [15_880, 15_900, 15_905, 15_899, -1, 15_900];
        expect(&rt, &TraceRuns::new(&samples, 1590), &[(1, 2), (5, 5)], 3)?;
        expect(&rt, &TraceRuns::new(&samples, 0), &[(0, 3), (5, 5)], 3)?;
        expect(&rt, &TraceRuns::new(&samples, 1591), &[], 1)
    }

    #[test]
    fn refused(rt: HostRuntime) -> Result<(), Fail> {
        let rising = [point(3)];
        let level = [Extent { start: 5, end: 6 }, Extent { start: 5, end: 7 }];
        let mut list = StoredList::new();
        assert!(rt; list.fill(&rising).is_ok());
        match list.fill(&level) {
            Ok(()) => assert!(rt; false),
            Err(refusal) => assert_eq!(rt; refusal.number(), 23),
        }
        let copy = list.clone()?;
        expect(&rt, &copy, &[(3, 3)], 2)?;
        expect(&rt, &list, &[(3, 3)], 2)
    }

    #[test]
    fn operators(rt: HostRuntime) -> Result<(), Fail> {
        let alarms = [point(4), point(12), point(18)];
        let cuts = [point(15)];
        let spans = [
            Extent { start: 2, end: 6 },
            Extent { start: 8, end: 11 },
            Extent { start: 14, end: 18 },
        ];
        let mut alarm = StoredList::new();
        let mut cut = StoredList::new();
        let mut reversals = StoredList::new();
        assert!(rt; alarm.fill(&alarms).is_ok());
        assert!(rt; cut.fill(&cuts).is_ok());
        assert!(rt; reversals.fill(&spans).is_ok());
        expect_operator(
            &rt,
            Operator::Containing,
            &reversals,
            &alarm,
            &[(2, 6), (14, 18)],
            7,
        )?;
        expect_operator(
            &rt,
            Operator::NotContaining,
            &reversals,
            &alarm,
            &[(8, 11)],
            7,
        )?;
        expect_operator(
            &rt,
            Operator::ContainedIn,
            &alarm,
            &reversals,
            &[(4, 4), (18, 18)],
            7,
        )?;
        expect_operator(
            &rt,
            Operator::NotContainedIn,
            &alarm,
            &reversals,
            &[(12, 12)],
            7,
        )?;
        expect_operator(
            &rt,
            Operator::BothOf,
            &cut,
            &alarm,
            &[(12, 15), (15, 18)],
            9,
        )?;
        expect_operator(
            &rt,
            Operator::OneOf,
            &alarm,
            &cut,
            &[(4, 4), (12, 12), (15, 15), (18, 18)],
            10,
        )?;
        expect_operator(&rt, Operator::FollowedBy, &cut, &alarm, &[(15, 18)], 4)
    }

    #[test]
    fn first_end_of_either(rt: HostRuntime) {
        let long = [Extent { start: 0, end: 10 }];
        let short = [Extent { start: 3, end: 4 }];
        let mut a = StoredList::new();
        let mut b = StoredList::new();
        assert!(rt; a.fill(&long).is_ok());
        assert!(rt; b.fill(&short).is_ok());
        let found = evaluate(Operator::OneOf, &a, &b, Access::FirstEnd, 5);
        assert!(rt; found.extent.is_none());
        assert_eq!(rt; found.calls, 4);
    }

    #[test]
    fn three_deep(rt: HostRuntime) -> Result<(), Fail> {
        let opens = [point(2), point(8), point(14)];
        let closes = [point(6), point(11), point(18)];
        let alarms = [point(4), point(12), point(18)];
        let cuts = [point(15)];
        let mut open = StoredList::new();
        let mut close = StoredList::new();
        let mut alarm = StoredList::new();
        let mut cut = StoredList::new();
        assert!(rt; open.fill(&opens).is_ok());
        assert!(rt; close.fill(&closes).is_ok());
        assert!(rt; alarm.fill(&alarms).is_ok());
        assert!(rt; cut.fill(&cuts).is_ok());
        let reversal = FollowedBy {
            a: &open,
            b: &close,
        };
        let quiet = NotContaining {
            a: reversal,
            b: OneOf { a: &alarm, b: &cut },
        };
        expect(&rt, &reversal, &[(2, 6), (8, 11), (14, 18)], 10)?;
        expect(&rt, &quiet, &[(8, 11)], 16)?;
        let mut out = [point(0); 8];
        let inside = ContainedIn {
            a: Windows::new(2, 19),
            b: BothOf { a: quiet, b: &cut },
        };
        let listing = list_into(&inside, &mut out)
            .ok()
            .ok_or("longer than the area")?;
        same(
            &rt,
            &out,
            listing.n,
            &[
                (8, 9),
                (9, 10),
                (10, 11),
                (11, 12),
                (12, 13),
                (13, 14),
                (14, 15),
            ],
        );
        Ok(())
    }
}
