//! Whether bytes obey the layout of a sealed index, and the first rule that they break.
ghost use Rattle.std.specs.Prelude.{◌≡◌, ◌↔◌, ◌<◌, ◌≤◌, true, IsTrue, All, length};
ghost use Rattle.std.specs.List.{AllAdjacentBelow};
ghost use Rattle.names.specs.Names.{before};
ghost use Rattle.postings.specs.Lists.{last_slot};
ghost use Rattle.index.specs.Fields.{u32_at, total};
ghost use Rattle.index.specs.Verdict.{name_stands, rows_stand, slots_stand, top, verdict};

use super::fields::{
    SLOT_SIZE, VERSION, name_field, row_count, row_earlier, row_name, slot_number, trimmed,
};
use super::parts::{Head, Parts};
use super::refusal::OpenRefusal;
use names::{compare, is_name};
use postings::LAST_SLOT;

/// Whether a name field holds a name and then zeros.
fn name_stands(field: &[u8]) -> bool
    ensures { result ≡ name_stands field.now }
{
    let text = trimmed(field);
    is_name(text) && field[text.len()..].iter().all(|&b| b == 0)
}

/// Whether a row's name stands after the one before it.
#[tactic(auto, unfolding(names::specs::Names::byte_order, names::specs::Names::before))]
fn follows(last: &[u8], name: &[u8]) -> bool
    ensures { result ≡ before last.now name.now }
{
    compare(last, name).is_lt()
}

/// Whether every row keeps its rules, and their counts add up to the number of slots.
fn rows_stand(parts: &Parts<'_>) -> bool
    ensures { result ≡ rows_stand parts.now.head.bytes.now }
{
    let mut sum: u64 = 0;
    // The name of the row before: at first the empty text, which stands before every name.
    let mut last: &[u8] = &[];
    for row in parts.rows {
        let name = row_name(row);
        if !name_stands(name_field(row))
            || !follows(last, name)
            || row_earlier(row) as u64 != sum
            || row_count(row) == 0
        {
            return false;
        }
        sum += row_count(row) as u64;
        last = name;
    }
    sum == parts.slots.len() as u64
}

/// Whether no slot of a row is above the last slot, and each is above the one before it: it ends at the first that is not.
fn run_stands(slots: &[[u8; SLOT_SIZE]]) -> bool
    ensures { IsTrue result ↔ (All (λ s. u32_at s 0 ≤ last_slot) slots.now × AllAdjacentBelow (λ a b. u32_at a 0 < u32_at b 0) slots.now (length slots.now)) }
{
    slots
        .first()
        .is_none_or(|slot| slot_number(slot) <= LAST_SLOT)
        && slots.is_sorted_by(|a, b| slot_number(a) < slot_number(b) && slot_number(b) <= LAST_SLOT)
}

/// Whether the slots of every row stand.
fn slots_stand(parts: &Parts<'_>) -> bool
    requires { rows_stand parts.now.head.bytes.now ≡ true }
    ensures { result ≡ slots_stand parts.now.head.bytes.now }
{
    parts.rows.iter().all(|row| run_stands(parts.run(row)))
}

/// One past the largest slot, or 0.
fn largest_end(parts: &Parts<'_>) -> u64
    ensures { result ≡ top parts.now.head.bytes.now (total parts.now.head.bytes.now) }
{
    parts
        .slots
        .iter()
        .map(|slot| slot_number(slot) as u64 + 1)
        .max()
        .unwrap_or(0)
}

/// Judges the bytes.
///
/// # Errors
/// The first rule that they break.
#[tactic(auto, using(std::proofs::lemmas::Bool::Decides::nat_tests), unfolding(crate::specs::Verdict::verdict, crate::specs::Verdict::span_stands))]
pub fn judge(bytes: &[u8]) -> Result<(), OpenRefusal>
    ensures { result ≡ verdict bytes.now }
{
    let head = Head::new(bytes).ok_or(OpenRefusal::Short)?;
    if !head.is_marked() {
        return Err(OpenRefusal::Mark);
    }
    if head.version() != VERSION {
        return Err(OpenRefusal::Version);
    }
    let parts = head.parts().ok_or(OpenRefusal::Size)?;
    if !rows_stand(&parts) {
        return Err(OpenRefusal::Row);
    }
    if !slots_stand(&parts) {
        return Err(OpenRefusal::Slot);
    }
    if parts.head.span() as u64 != largest_end(&parts) {
        return Err(OpenRefusal::Span);
    }
    Ok(())
}
