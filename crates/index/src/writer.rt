//! Writing an index piece by piece.
ghost use Rattle.std.specs.List.{All};
ghost use Rattle.std.specs.Prelude.{◌≡◌, ◌+◌, ◌*◌, ◌^◌, ◌<◌, ◌≤◌, length, sum_by};

use super::fields::{MARK, NAME_SIZE, VERSION};
use postings::RowStore;

/// A buffer, and the place up to which it is written.
// Stays: a buffer and a place, not the rest of a slice: the contract of each piece says what stands before it in the whole buffer.
#[derive(Drop)]
pub(crate) struct Writer<'a> {
    buffer: &'a mut [u8],
    at: usize,
}

impl<'a> Writer<'a> {
    ghost use Rattle.index.specs.declared.fields.TheConstants.{VERSION, NAME_SIZE, HEAD_SIZE, ROW_SIZE, SLOT_SIZE};
    ghost use Rattle.index.specs.Fields.{u32_bytes};
    ghost use Rattle.index.specs.Spelling.{head_bytes, row_bytes, rows_bytes, slots_bytes};
    ghost use Rattle.index.specs.Writing.{HasRoom, Writes};

    /// The whole buffer, not written yet.
    pub(crate) fn new(buffer: &'a mut [u8]) -> Writer<'a>
        ensures same_reference { result.buffer.ghost_name ≡ buffer.entry.ghost_name }
        ensures whole { result.buffer.now ≡ buffer.old }
        ensures start { result.at ≡ 0 }
    {
        Writer { buffer, at: 0 }
    }

    /// Bytes.
    fn put(&mut self, bytes: &[u8])
        requires { HasRoom self.old (length bytes.now) }
        ensures { Writes self.old self.new bytes.now }
    {
        let buffer = &mut *self.buffer;
        buffer[self.at..self.at + bytes.len()].copy_from_slice(bytes);
        self.at += bytes.len();
    }

    /// A 32-bit number.
    fn put_u32(&mut self, value: u32)
        requires { HasRoom self.old 4 }
        ensures { Writes self.old self.new (u32_bytes value) }
    {
        self.put(&value.to_le_bytes());
    }

    /// The head.
    pub(crate) fn put_head(&mut self, names: u16, length: u32, entries: u32)
        requires { HasRoom self.old HEAD_SIZE }
        ensures { Writes self.old self.new (head_bytes VERSION names length entries) }
    {
        self.put(&MARK);
        self.put(&VERSION.to_le_bytes());
        self.put(&names.to_le_bytes());
        self.put_u32(length);
        self.put_u32(entries);
    }

    /// A row of a name and a number of slots, where the earlier rows have so many: the name with zeros after it, and the two numbers.
    fn put_row(&mut self, name: &[u8], earlier: u32, count: u32)
        requires room { HasRoom self.old ROW_SIZE }
        requires short { length name.now ≤ NAME_SIZE }
        ensures bytes { Writes self.old self.new (row_bytes earlier name.now count) }
        ensures moved { self.new.at ≡ self.old.at + ROW_SIZE }
    {
        let zeros = [0u8; NAME_SIZE];
        self.put(name);
        self.put(&zeros[name.len()..]);
        self.put_u32(earlier);
        self.put_u32(count);
    }

    /// The rows.
    pub(crate) fn put_rows<S: RowStore>(&mut self, rows: &[S::Row])
        requires room { HasRoom self.old (ROW_SIZE * length rows.now) }
        requires few { sum_by S.count_of rows.now < 2 ^ 32 }
        requires short { All (λ r. length (S.name_of r) ≤ NAME_SIZE) rows.now }
        ensures bytes { Writes self.old self.new (rows_bytes S.name_of S.count_of 0 rows.now) }
        ensures moved { self.new.at ≡ self.old.at + ROW_SIZE * length rows.now }
    {
        let mut earlier: u32 = 0;
        for row in rows {
            let count = S::count(row);
            self.put_row(S::name(row), earlier, count);
            earlier += count;
        }
    }

    /// Slots.
    pub(crate) fn put_run(&mut self, slots: &[u32])
        requires { HasRoom self.old (SLOT_SIZE * length slots.now) }
        ensures { Writes self.old self.new (slots_bytes slots.now) }
    {
        for slot in slots {
            self.put_u32(*slot);
        }
    }
}
