//! Sealing a store into a buffer.
ghost use Rattle.std.specs.Prelude.{◌≡◌};
ghost use Rattle.postings.specs.Shown.{named_slots};
ghost use Rattle.refusals.specs.Refusals.{refusal_in};
ghost use Rattle.index.specs.Refusals.{seal_refusal_of};
ghost use Rattle.index.specs.Sealing.{index_size, outcome, Seals};

use super::fields::{HEAD_SIZE, ROW_SIZE, SLOT_SIZE};
use super::refusal::SealRefusal;
use super::writer::Writer;
use postings::RowStore;

/// How many bytes the store's index has.
pub fn index_size<S: RowStore>(store: &S) -> usize
    ensures { result ≡ index_size (named_slots S.name_of S.count_of (S.rows_of store.now) (S.slots_of store.now)) }
{
    HEAD_SIZE + ROW_SIZE * store.rows().len() + SLOT_SIZE * store.slots().len()
}

/// Writes the store's index to the front of the buffer and answers its size.
///
/// # Errors
/// The buffer is shorter; it then stays as it was.
pub fn seal<S: RowStore>(store: &S, buffer: &mut [u8]) -> Result<usize, SealRefusal>
    ensures seals { let rows = named_slots S.name_of S.count_of (S.rows_of store.now) (S.slots_of store.now) in
        Seals rows (S.lists store.now) buffer.old buffer.new result }
    ensures told { let rows = named_slots S.name_of S.count_of (S.rows_of store.now) (S.slots_of store.now) in
        refusal_in seal_refusal_of result ≡ refusal_in seal_refusal_of (outcome rows buffer.old) }
{
    let size = index_size(store);
    if buffer.len() < size {
        return Err(SealRefusal::BufferTooShort);
    }
    let rows = store.rows();
    let slots = store.slots();
    let mut writer = Writer::new(buffer);
    writer.put_head(rows.len() as u16, store.length(), slots.len() as u32);
    writer.put_rows::<S>(rows);
    writer.put_run(slots);
    Ok(size)
}
