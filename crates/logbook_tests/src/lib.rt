// Examples of entering: every refusal at its edge, and the logbook as it was after it.
#![tactic(auto)]

#[cfg(test)]
mod tests {
    use postings::Postings;
    use shift_logbook::{EnterRefusal, Logbook};
    use std::process::Abort;
    use std::test::Fail;

    // A logbook with one entry, `a` at slot 7.
    fn begun(rt: &impl Abort) -> Logbook {
        let mut book = Logbook::new();
        assert_eq!(rt; book.enter(b"a", 7), Ok(()));
        book
    }

    // The logbook still holds `a` at slot 7 and nothing else.
    fn still_begun(rt: &impl Abort, book: &Logbook) {
        assert_eq!(rt; book.entries(), 1);
        assert_eq!(rt; book.length(), 8);
        assert_eq!(rt; book.next(b"a", 0), Some(7));
        assert_eq!(rt; book.next(b"a", 8), None);
    }

    #[test]
    fn names_have_1_to_16_bytes(rt: HostRuntime) -> Result<(), Fail> {
        let mut book = begun(&rt);
        assert_eq!(rt; book.enter(b"", 7), Err(EnterRefusal::NotAName));
        assert_eq!(rt;
            book.enter(b"abcdefghijklmnopq", 7),
            Err(EnterRefusal::NotAName)
        );
        assert_eq!(rt; book.enter(b"Alarm", 7), Err(EnterRefusal::NotAName));
        still_begun(&rt, &book);
        assert_eq!(rt; book.enter(b"[bcd_fgh9jklmno]", 7), Ok(()));
        assert_eq!(rt; book.next(b"[bcd_fgh9jklmno]", 7), Some(7));
        Ok(())
    }

    #[test]
    fn the_last_slot_is_accepted(rt: HostRuntime) -> Result<(), Fail> {
        let mut book = begun(&rt);
        assert_eq!(rt;
            book.enter(b"b", 1_073_741_824),
            Err(EnterRefusal::SlotTooLarge)
        );
        assert_eq!(rt; book.enter(b"b", u32::MAX), Err(EnterRefusal::SlotTooLarge));
        still_begun(&rt, &book);
        assert_eq!(rt; book.enter(b"b", 1_073_741_823), Ok(()));
        assert_eq!(rt; book.length(), 1_073_741_824);
        Ok(())
    }

    #[test]
    fn slots_may_stay_and_not_fall(rt: HostRuntime) -> Result<(), Fail> {
        let mut book = begun(&rt);
        assert_eq!(rt; book.enter(b"b", 6), Err(EnterRefusal::SlotFalls));
        assert_eq!(rt; book.enter(b"a", 6), Err(EnterRefusal::SlotFalls));
        assert_eq!(rt; book.enter(b"a", 7), Err(EnterRefusal::Repeated));
        still_begun(&rt, &book);
        assert_eq!(rt; book.enter(b"b", 7), Ok(()));
        assert_eq!(rt; book.next(b"b", 0), Some(7));
        Ok(())
    }

    #[test]
    fn sixty_four_names(rt: HostRuntime) -> Result<(), Fail> {
        let mut book = Logbook::new();
        for i in 0..64u8 {
            assert_eq!(rt;
                book.enter(&[b'a' + i % 26, b'a' + i / 26], u32::from(i)),
                Ok(())
            );
        }
        assert_eq!(rt; book.enter(b"zz", 70), Err(EnterRefusal::TooManyNames));
        assert_eq!(rt; book.next(b"zz", 0), None);
        assert_eq!(rt; book.entries(), 64);
        assert_eq!(rt; book.length(), 64);
        assert_eq!(rt; book.enter(b"aa", 70), Ok(()));
        Ok(())
    }

    #[test]
    fn four_thousand_and_ninety_six_entries(rt: HostRuntime) -> Result<(), Fail> {
        let mut book = Logbook::new();
        for slot in 0..4096u32 {
            assert_eq!(rt; book.enter(b"alarm", slot), Ok(()));
        }
        assert_eq!(rt;
            book.enter(b"alarm", 4096),
            Err(EnterRefusal::TooManyEntries)
        );
        assert_eq!(rt; book.enter(b"cut", 4096), Err(EnterRefusal::TooManyEntries));
        assert_eq!(rt; book.enter(b"alarm", 4095), Err(EnterRefusal::Repeated));
        assert_eq!(rt; book.entries(), 4096);
        assert_eq!(rt; book.length(), 4096);
        assert_eq!(rt; book.next(b"alarm", 4095), Some(4095));
        assert_eq!(rt; book.next(b"alarm", 4096), None);
        Ok(())
    }

    #[test]
    fn refusals_by_number(rt: HostRuntime) {
        assert_eq!(rt; EnterRefusal::NotAName.number(), 1);
        assert_eq!(rt; EnterRefusal::SlotTooLarge.number(), 2);
        assert_eq!(rt; EnterRefusal::SlotFalls.number(), 3);
        assert_eq!(rt; EnterRefusal::Repeated.number(), 4);
        assert_eq!(rt; EnterRefusal::TooManyNames.number(), 5);
        assert_eq!(rt; EnterRefusal::TooManyEntries.number(), 6);
    }
}
