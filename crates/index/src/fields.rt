//! The marks, sizes and places of a sealed index, and its fields, read where they lie. Numbers are unsigned and little-endian.
ghost use Rattle.std.specs.Prelude.{◌≡◌, ◌+◌, ◌≤◌, length, take};
ghost use Rattle.index.specs.Fields.{u16_at, u32_at, trim};
ghost use Rattle.index.specs.declared.fields.TheConstants.{NAME_SIZE, EARLIER_AT, COUNT_AT};

/// The bytes with which an index begins.
pub const MARK: [u8; 3] = *b"SLX";

/// The version of the layout.
pub const VERSION: u16 = 1;

/// How many bytes the head has.
pub const HEAD_SIZE: usize = 15;

/// How many bytes a row has.
pub const ROW_SIZE: usize = 24;

/// How many bytes a slot has.
pub const SLOT_SIZE: usize = 4;

/// How many bytes of a row are its name's, padding included.
pub const NAME_SIZE: usize = 16;

/// Where in the head the version stands: 16 bits,
pub const VERSION_AT: usize = 3;

/// the number of names: 16 bits,
pub const NAMES_AT: usize = 5;

/// the length of the log in slots: 32 bits,
pub const LENGTH_AT: usize = 7;

/// and the number of slots: 32 bits.
pub const TOTAL_AT: usize = 11;

/// Where in a row the sum of the earlier rows' counts stands: 32 bits,
pub const EARLIER_AT: usize = 16;

/// and the number of its own slots: 32 bits.
pub const COUNT_AT: usize = 20;

/// The 16-bit number at a place.
// Stays: `from_le_bytes` is given width by width, and so are the two.
pub(crate) fn u16_at(bytes: &[u8], at: usize) -> u16
    requires { at + 2 ≤ length bytes.now }
    ensures { result ≡ u16_at bytes.now at }
{
    u16::from_le_bytes([bytes[at], bytes[at + 1]])
}

/// The 32-bit number at a place.
// Stays: `from_le_bytes` is given width by width, and so are the two.
pub(crate) fn u32_at(bytes: &[u8], at: usize) -> u32
    requires { at + 4 ≤ length bytes.now }
    ensures { result ≡ u32_at bytes.now at }
{
    u32::from_le_bytes([bytes[at], bytes[at + 1], bytes[at + 2], bytes[at + 3]])
}

/// The bytes before the first zero.
pub(crate) fn trimmed(field: &[u8]) -> &[u8]
    ensures text { result.now ≡ trim field.now }
    ensures within { length result.now ≤ length field.now }
{
    let end = field.iter().position(|&b| b == 0).unwrap_or(field.len());
    &field[..end]
}

/// The name field of a row, padding included.
pub(crate) fn name_field(row: &[u8; ROW_SIZE]) -> &[u8]
    ensures { result.now ≡ take NAME_SIZE row.now }
{
    &row[..NAME_SIZE]
}

/// The name of a row.
pub(crate) fn row_name(row: &[u8; ROW_SIZE]) -> &[u8]
    ensures { result.now ≡ trim (take NAME_SIZE row.now) }
{
    trimmed(name_field(row))
}

/// How many slots the rows before it have, as a row gives it.
pub(crate) fn row_earlier(row: &[u8; ROW_SIZE]) -> u32
    ensures { result ≡ u32_at row.now EARLIER_AT }
{
    u32_at(row, EARLIER_AT)
}

/// How many slots a row has.
pub(crate) fn row_count(row: &[u8; ROW_SIZE]) -> u32
    ensures { result ≡ u32_at row.now COUNT_AT }
{
    u32_at(row, COUNT_AT)
}

/// The number of a slot.
#[tactic(auto, unfolding(crate::specs::Fields::u32_at))]
pub(crate) fn slot_number(slot: &[u8; SLOT_SIZE]) -> u32
    ensures { result ≡ u32_at slot.now 0 }
{
    u32::from_le_bytes(*slot)
}
