//! The index of one sample log, byte for byte; damaged bytes; and every truncation and single-byte change.
#![tactic(auto)]

#[cfg(test)]
mod tests {
    use index::{OpenRefusal, SealRefusal, SealedIndex, judge, seal};
    use postings::Postings;
    use shift_logbook::Logbook;
    use std::process::Abort;
    use std::test::Fail;

    // The sample's index by hand: version 1, 4 names, a span of 19, 10 slots;
    const HEAD: [u8; 15] = *b"SLX\x01\0\x04\0\x13\0\0\0\x0a\0\0\0";

    // the rows, each with its name, how many slots the rows before it have, and how many it has;
    const ROW_0: [u8; 24] = *b"[rev\0\0\0\0\0\0\0\0\0\0\0\0\0\0\0\0\x03\0\0\0";

    const ROW_1: [u8; 24] = *b"alarm\0\0\0\0\0\0\0\0\0\0\0\x03\0\0\0\x03\0\0\0";

    const ROW_2: [u8; 24] = *b"cut\0\0\0\0\0\0\0\0\0\0\0\0\0\x06\0\0\0\x01\0\0\0";

    const ROW_3: [u8; 24] = *b"rev]\0\0\0\0\0\0\0\0\0\0\0\0\x07\0\0\0\x03\0\0\0";

    // and the slots of each.
    const SLOTS_0: [u8; 12] = *b"\x02\0\0\0\x08\0\0\0\x0e\0\0\0";

    const SLOTS_1: [u8; 12] = *b"\x04\0\0\0\x0c\0\0\0\x12\0\0\0";

    const SLOTS_2: [u8; 4] = *b"\x0f\0\0\0";

    const SLOTS_3: [u8; 12] = *b"\x06\0\0\0\x0b\0\0\0\x12\0\0\0";

    // The sample's index.
    fn sample() -> [u8; 151] {
        let mut bytes = [0u8; 151];
        bytes[0..15].copy_from_slice(&HEAD);
        bytes[15..39].copy_from_slice(&ROW_0);
        bytes[39..63].copy_from_slice(&ROW_1);
        bytes[63..87].copy_from_slice(&ROW_2);
        bytes[87..111].copy_from_slice(&ROW_3);
        bytes[111..123].copy_from_slice(&SLOTS_0);
        bytes[123..135].copy_from_slice(&SLOTS_1);
        bytes[135..139].copy_from_slice(&SLOTS_2);
        bytes[139..151].copy_from_slice(&SLOTS_3);
        bytes
    }

    // The sample's index with one byte changed.
    fn changed(at: usize, value: u8) -> [u8; 151] {
        let mut bytes = sample();
        if at < 151 {
            bytes[at] = value;
        }
        bytes
    }

    // What opening the bytes answers.
    fn opened(bytes: &[u8]) -> Result<(), OpenRefusal> {
        let mut index = SealedIndex::new();
        index.open(bytes)
    }

    // The name's first slot from k on, by the index that the bytes open to, or by an index of no names.
    fn first(bytes: &[u8], name: &[u8], k: u32) -> Option<u32> {
        let mut index = SealedIndex::new();
        let _ = index.open(bytes);
        index.next(name, k)
    }

    // The span, likewise.
    fn span(bytes: &[u8]) -> u32 {
        let mut index = SealedIndex::new();
        let _ = index.open(bytes);
        index.length()
    }

    // Enters the sample log.
    fn enter_sample(rt: &impl Abort, book: &mut Logbook) {
        assert_eq!(rt; book.enter(b"[rev", 2), Ok(()));
        assert_eq!(rt; book.enter(b"alarm", 4), Ok(()));
        assert_eq!(rt; book.enter(b"rev]", 6), Ok(()));
        assert_eq!(rt; book.enter(b"[rev", 8), Ok(()));
        assert_eq!(rt; book.enter(b"rev]", 11), Ok(()));
        assert_eq!(rt; book.enter(b"alarm", 12), Ok(()));
        assert_eq!(rt; book.enter(b"[rev", 14), Ok(()));
        assert_eq!(rt; book.enter(b"cut", 15), Ok(()));
        assert_eq!(rt; book.enter(b"rev]", 18), Ok(()));
        assert_eq!(rt; book.enter(b"alarm", 18), Ok(()));
    }

    #[test]
    fn the_sample_is_sealed_byte_for_byte(rt: HostRuntime) -> Result<(), Fail> {
        let mut book = Logbook::new();
        enter_sample(&rt, &mut book);
        let mut short = [7u8; 150];
        assert_eq!(rt; seal(&book, &mut short), Err(SealRefusal::BufferTooShort));
        assert!(rt; short == [7u8; 150]);
        let mut buffer = [7u8; 160];
        assert_eq!(rt; seal(&book, &mut buffer), Ok(151));
        let expected = sample();
        assert!(rt; buffer[0..151] == expected[0..151]);
        assert!(rt; buffer[151..160] == short[0..9]);
        Ok(())
    }

    #[test]
    fn the_sample_opens(rt: HostRuntime) {
        let bytes = sample();
        assert_eq!(rt; opened(&bytes), Ok(()));
        assert_eq!(rt; span(&bytes), 19);
        assert_eq!(rt; first(&bytes, b"[rev", 9), Some(14));
        assert_eq!(rt; first(&bytes, b"[rev", 15), None);
        assert_eq!(rt; first(&bytes, b"alarm", 12), Some(12));
        assert_eq!(rt; first(&bytes, b"cut", 0), Some(15));
        assert_eq!(rt; first(&bytes, b"rev]", 12), Some(18));
        assert_eq!(rt; first(&bytes, b"stone", 0), None);
        assert_eq!(rt; first(b"", b"alarm", 0), None);
        assert_eq!(rt; span(b""), 0);
    }

    #[test]
    fn a_clone_answers_as_the_index_does(rt: HostRuntime) -> Result<(), Fail> {
        let bytes = sample();
        assert_eq!(rt; judge(&bytes), Ok(()));
        assert_eq!(rt; judge(&bytes[0..14]), Err(OpenRefusal::Short));
        let mut index = SealedIndex::new();
        assert_eq!(rt; index.open(&bytes), Ok(()));
        let copy = index.clone()?;
        assert_eq!(rt; copy.next(b"alarm", 12), Some(12));
        assert_eq!(rt; index.next(b"[rev", 9), Some(14));
        assert_eq!(rt; copy.next(b"[rev", 9), Some(14));
        assert_eq!(rt; copy.length(), 19);
        Ok(())
    }

    #[test]
    fn one_damaged_byte_is_refused_by_its_rule(rt: HostRuntime) {
        assert_eq!(rt; opened(&changed(2, 89)), Err(OpenRefusal::Mark));
        assert_eq!(rt; opened(&changed(4, 1)), Err(OpenRefusal::Version));
        assert_eq!(rt; opened(&changed(5, 5)), Err(OpenRefusal::Size));
        assert_eq!(rt; opened(&changed(11, 9)), Err(OpenRefusal::Size));
        assert_eq!(rt; opened(&changed(15, 99)), Err(OpenRefusal::Row));
        assert_eq!(rt; opened(&changed(20, 97)), Err(OpenRefusal::Row));
        assert_eq!(rt; opened(&changed(55, 4)), Err(OpenRefusal::Row));
        assert_eq!(rt; opened(&changed(107, 2)), Err(OpenRefusal::Row));
        assert_eq!(rt; opened(&changed(115, 2)), Err(OpenRefusal::Slot));
        assert_eq!(rt; opened(&changed(122, 64)), Err(OpenRefusal::Slot));
        assert_eq!(rt; opened(&changed(7, 20)), Err(OpenRefusal::Span));
        assert_eq!(rt; opened(&changed(147, 19)), Err(OpenRefusal::Span));
    }

    #[test]
    fn every_truncation_is_refused(rt: HostRuntime) {
        let bytes = sample();
        for n in 0..15usize {
            assert_eq!(rt; opened(&bytes[0..n]), Err(OpenRefusal::Short));
        }
        for n in 15..151usize {
            assert_eq!(rt; opened(&bytes[0..n]), Err(OpenRefusal::Size));
        }
    }

    // The bytes before the first zero.
    fn name_in(field: &[u8]) -> &[u8] {
        for (i, b) in field.iter().enumerate() {
            if *b == 0 {
                return &field[0..i];
            }
        }
        field
    }

    // The number whose first byte stands at a place.
    fn number_in(bytes: &[u8; 151], at: usize) -> u32 {
        if at < 148 {
            u32::from_le_bytes([bytes[at], bytes[at + 1], bytes[at + 2], bytes[at + 3]])
        } else {
            0
        }
    }

    // Each row's first slot, and the span, read from where they lie, are what the index tells.
    fn tells_its_bytes(rt: &impl Abort, bytes: &[u8; 151]) {
        assert_eq!(rt; span(bytes), number_in(bytes, 7));
        assert_eq!(rt;
            first(bytes, name_in(&bytes[15..31]), 0),
            Some(number_in(bytes, 111))
        );
        assert_eq!(rt;
            first(bytes, name_in(&bytes[39..55]), 0),
            Some(number_in(bytes, 123))
        );
        assert_eq!(rt;
            first(bytes, name_in(&bytes[63..79]), 0),
            Some(number_in(bytes, 135))
        );
        assert_eq!(rt;
            first(bytes, name_in(&bytes[87..103]), 0),
            Some(number_in(bytes, 139))
        );
    }

    #[test]
    fn every_changed_byte_is_refused_or_told(rt: HostRuntime) {
        for at in 0..151usize {
            for value in 0..=255u8 {
                let bytes = changed(at, value);
                if opened(&bytes).is_ok() {
                    tells_its_bytes(&rt, &bytes);
                }
            }
        }
    }
}
