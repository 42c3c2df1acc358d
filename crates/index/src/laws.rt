//! What sealing, opening and the layout promise together. These calls exist for their contracts: no program makes them.
ghost use Rattle.std.specs.Prelude.{◌≡◌, ◌↔◌, ℕ, List, [], ◌∷◌, true, take, is_ok};
ghost use Rattle.postings.specs.Shown.{NamedSlots, named_slots};
ghost use Rattle.index.specs.declared.fields.TheConstants.{MARK, VERSION, HEAD_SIZE, ROW_SIZE, SLOT_SIZE, NAME_SIZE};
ghost use Rattle.index.specs.Layout.{Obeys};
ghost use Rattle.index.specs.Meaning.{posting_lists, meaning};
ghost use Rattle.index.specs.Reopening.{reopen_answer};
ghost use Rattle.index.specs.Sealing.{index_size, outcome, Bytes, Seals};
ghost use Rattle.index.specs.Spelling.{spelling, IsIndexable, IsSpelled};

use super::opening::SealedIndex;
use super::refusal::SealRefusal;
use super::sealing::seal;
use postings::{Postings, RowStore};

/// What the mark and the version of the layout are, and its sizes in bytes.
pub fn constants()
    ensures mark { MARK ≡ 83 ∷ 76 ∷ 88 ∷ [] }
    ensures version { VERSION ≡ 1 }
    ensures head { HEAD_SIZE ≡ 15 }
    ensures row { ROW_SIZE ≡ 24 }
    ensures slot { SLOT_SIZE ≡ 4 }
    ensures name { NAME_SIZE ≡ 16 }
{}

/// Bytes obey the layout exactly if they are some postings that fit, written as an index; and they then mean those.
pub fn one_spelling()
    ensures obeys { (bs : List ℕ) → Bytes bs → Obeys bs ↔ IsSpelled bs }
    ensures means { (rs : List NamedSlots) (l : ℕ) → IsIndexable rs l → meaning (spelling VERSION rs l) ≡ posting_lists rs l }
{}

/// Seals the store, opens what was written, and asks the index for the name's first slot from k on and for its length: as the store would answer.
///
/// # Errors
/// The buffer has fewer bytes than the index.
pub fn reopen<S: RowStore>(
    store: &S,
    buffer: &mut [u8],
    name: &[u8],
    k: u32,
) -> Result<(Option<u32>, u32), SealRefusal>
    ensures answers { let rows = named_slots S.name_of S.count_of (S.rows_of store.now) (S.slots_of store.now) in
        result ≡ reopen_answer rows (S.lists store.now) buffer.old name.now k }
    ensures written { let rows = named_slots S.name_of S.count_of (S.rows_of store.now) (S.slots_of store.now) in
        Seals rows (S.lists store.now) buffer.old buffer.new (outcome rows buffer.old) }
{
    let size = seal(store, buffer)?;
    let mut index = SealedIndex::new();
    let _ = index.open(&buffer[0..size]);
    Ok((index.next(name, k), index.length()))
}

/// Seals two stores: of equal postings, to the same bytes.
pub fn seal_both<S: RowStore, T: RowStore>(
    a: &S,
    b: &T,
    left: &mut [u8],
    right: &mut [u8],
) -> (Result<usize, SealRefusal>, Result<usize, SealRefusal>)
    ensures first { let rows = named_slots S.name_of S.count_of (S.rows_of a.now) (S.slots_of a.now) in
        Seals rows (S.lists a.now) left.old left.new result.0 }
    ensures second { let rows = named_slots T.name_of T.count_of (T.rows_of b.now) (T.slots_of b.now) in
        Seals rows (T.lists b.now) right.old right.new result.1 }
    ensures same { let xs = named_slots S.name_of S.count_of (S.rows_of a.now) (S.slots_of a.now) in
        let ys = named_slots T.name_of T.count_of (T.rows_of b.now) (T.slots_of b.now) in
        S.lists a.now ≡ T.lists b.now → is_ok result.0 ≡ true → is_ok result.1 ≡ true
        → take (index_size xs) left.new ≡ take (index_size ys) right.new }
{
    (seal(a, left), seal(b, right))
}
