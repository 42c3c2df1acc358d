//! A sealed index cut into its head, its rows and its slots.
ghost use Rattle.std.specs.Prelude.{◌≡◌, ◌+◌, ◌*◌, ◌<◌, ◌≤◌, true, take, length, is_ok, is_some, IfSome, MatchOption};
ghost use Rattle.std.specs.Str.{bytes_eq};
ghost use Rattle.index.specs.declared.fields.TheConstants.{MARK, HEAD_SIZE, SLOT_SIZE, NAME_SIZE, EARLIER_AT, COUNT_AT};
ghost use Rattle.index.specs.Fields.{u32_at, trim, version, names, span, total, row_at};
ghost use Rattle.index.specs.Meaning.{postings_of, slots_for};
ghost use Rattle.index.specs.Verdict.{size_stands, verdict};
ghost use Rattle.index.specs.Parts.{row_chunks, slot_chunks, row_run, slots_in};

use super::fields::{
    HEAD_SIZE, LENGTH_AT, MARK, NAMES_AT, ROW_SIZE, SLOT_SIZE, TOTAL_AT, VERSION_AT, row_count,
    row_earlier, row_name, slot_number, u16_at, u32_at,
};
use postings::{Rows, Slots, find};
use std::cell::Cell;

/// Bytes that are enough for a head.
#[derive(Clone, Copy, Debug)]
pub(crate) struct Head<'a> {
    pub(crate) bytes: &'a [u8],
    ghost long: { HEAD_SIZE ≤ length bytes.now },
}

impl<'a> Head<'a> {
    /// The bytes, if there are enough for a head.
    pub(crate) fn new(bytes: &'a [u8]) -> Option<Head<'a>>
        ensures { MatchOption result (length bytes.now < HEAD_SIZE) (λ h. h.bytes.now ≡ bytes.now) }
    {
        if bytes.len() < HEAD_SIZE {
            return None;
        }
        Some(Head { bytes })
    }

    /// Whether the bytes begin with the mark.
    pub(crate) fn is_marked(&self) -> bool
        ensures { result ≡ bytes_eq (take (length MARK) self.now.bytes.now) MARK }
    {
        self.bytes.starts_with(&MARK)
    }

    /// The version of the layout.
    pub(crate) fn version(&self) -> u16
        ensures { result ≡ version self.now.bytes.now }
    {
        u16_at(self.bytes, VERSION_AT)
    }

    /// How many names there are.
    pub(crate) fn names(&self) -> u16
        ensures { result ≡ names self.now.bytes.now }
    {
        u16_at(self.bytes, NAMES_AT)
    }

    /// How many slots the log spans.
    pub(crate) fn span(&self) -> u32
        ensures { result ≡ span self.now.bytes.now }
    {
        u32_at(self.bytes, LENGTH_AT)
    }

    /// How many slots there are.
    pub(crate) fn total(&self) -> u32
        ensures { result ≡ total self.now.bytes.now }
    {
        u32_at(self.bytes, TOTAL_AT)
    }

    /// The parts, if head, rows and slots are all there, and nothing after them.
    #[tactic(auto, using(std::proofs::lemmas::Bool::Decides::nat_tests), unfolding(crate::specs::Verdict::size_stands))]
    pub(crate) fn parts(&self) -> Option<Parts<'a>>
        ensures fits { size_stands self.now.bytes.now ≡ is_some result }
        ensures bytes { IfSome result (λ p. p.head.bytes.now ≡ self.now.bytes.now) }
    {
        let size = HEAD_SIZE + ROW_SIZE * self.names() as usize + SLOT_SIZE * self.total() as usize;
        if self.bytes.len() != size {
            return None;
        }
        Some(self.cut())
    }

    /// The rows and the slots, cut where they begin.
    pub(crate) fn cut(&self) -> Parts<'a>
        requires { length self.now.bytes.now ≡ row_at (names self.now.bytes.now) + SLOT_SIZE * total self.now.bytes.now }
        ensures { result.head.bytes.now ≡ self.now.bytes.now }
    {
        let (rows, slots) = self.bytes[HEAD_SIZE..].split_at(ROW_SIZE * self.names() as usize);
        let (rows, _) = rows.as_chunks();
        let (slots, _) = slots.as_chunks();
        Parts {
            head: *self,
            rows,
            slots,
        }
    }
}

/// The head, the rows and the slots of bytes of the size that their head gives.
#[derive(Clone, Copy, Debug)]
pub(crate) struct Parts<'a> {
    pub(crate) head: Head<'a>,
    pub(crate) rows: &'a [[u8; ROW_SIZE]],
    pub(crate) slots: &'a [[u8; SLOT_SIZE]],
    ghost size: { length head.bytes.now ≡ row_at (names head.bytes.now) + SLOT_SIZE * total head.bytes.now },
    ghost cut_rows: { rows.now ≡ row_chunks head.bytes.now },
    ghost cut_slots: { slots.now ≡ slot_chunks head.bytes.now },
}

impl<'a> Parts<'a> {
    /// The slots of a row.
    pub(crate) fn run(&self, row: &[u8; ROW_SIZE]) -> &'a [[u8; SLOT_SIZE]]
        requires { u32_at row.now EARLIER_AT + u32_at row.now COUNT_AT ≤ length self.now.slots.now }
        ensures { result.now ≡ row_run self.now.slots.now row.now }
    {
        let from = row_earlier(row) as usize;
        &self.slots[from..from + row_count(row) as usize]
    }

    /// The slots of a name: those of its row, or none. The hint is where the row that was found last stands.
    pub(crate) fn slots_of(&self, name: &[u8], hint: &Cell<usize>) -> &'a [[u8; SLOT_SIZE]]
        requires { is_ok (verdict self.now.head.bytes.now) ≡ true }
        ensures { slots_in result.now ≡ slots_for (postings_of self.now.head.bytes.now) name.now }
    {
        match find(self, name, hint) {
            Ok(i) => self.run(&self.rows[i]),
            Err(_) => &[],
        }
    }
}

impl Rows for Parts<'_> {
    type Row = [u8; ROW_SIZE];

    ghost rows_of = { λ p. p.rows.now };

    ghost name_of = { λ r. trim (take NAME_SIZE r) };

    fn rows(&self) -> &[[u8; ROW_SIZE]] {
        self.rows
    }

    fn name(row: &[u8; ROW_SIZE]) -> &[u8]
        ensures { result.now ≡ trim (take NAME_SIZE row.now) }
    {
        row_name(row)
    }
}

impl Slots for Parts<'_> {
    type Slot = [u8; SLOT_SIZE];

    ghost number_of = { λ s. u32_at s 0 };

    fn number(slot: &[u8; SLOT_SIZE]) -> u32
        ensures { result ≡ u32_at slot.now 0 }
    {
        slot_number(slot)
    }
}
