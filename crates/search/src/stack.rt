//! The operands that wait for their operator, the last on top, and what was counted on the way.
ghost use Rattle.std.specs.Prelude.{◌≡◌, ◌+◌, ◌^◌, ◌<◌, ◌≤◌, [], ◌∷◌, ◌++◌};
ghost use Rattle.std.specs.List.{sum_by};
ghost use Rattle.arrayvec.specs.ArrayVec.{array_vec_len};
ghost use Rattle.extents.specs.Counts.{capped};
ghost use Rattle.search.specs.declared.stack.TheConstants.{OPERANDS};
ghost use Rattle.search.specs.Run.{size};

use super::operand::Operand;
use arrayvec::ArrayVec;

/// Room for an operand for each step of a query.
pub(crate) const OPERANDS: usize = query::STEPS_MAX;

/// The operands that wait.
#[derive(Drop)]
pub(crate) struct OperandStack<'a> {
    pub(crate) operands: ArrayVec<Operand<'a>, OPERANDS>,
    // Stays: the sum over the operands; without it each step would add them up, a loop more; `counted` ties it.
    /// How many extents are stored of them.
    pub(crate) used: usize,
    /// The calls so far.
    pub(crate) calls: u64,
    /// From here on the stack area was never written.
    pub(crate) stored: usize,
    /// From here on the scratch area was never written.
    pub(crate) listed: usize,
    ghost counted: { used ≡ sum_by size operands.items },
    ghost within: { used ≤ stored },
}

impl<'a> OperandStack<'a> {
    /// No operand yet, and nothing written.
    pub(crate) fn new() -> OperandStack<'a>
        ensures none { result.operands.items ≡ [] }
        ensures calls { result.calls ≡ 0 }
        ensures stored { result.stored ≡ 0 }
        ensures listed { result.listed ≡ 0 }
    {
        OperandStack {
            operands: ArrayVec::new(),
            used: 0,
            calls: 0,
            stored: 0,
            listed: 0,
        }
    }

    /// One more operand, which took so many calls.
    pub(crate) fn push(&mut self, operand: Operand<'a>, calls: u64)
        requires room { array_vec_len self.old.operands < OPERANDS }
        requires fits { self.old.used + size operand < 2 ^ 64 }
        ensures items { self.new.operands.items ≡ self.old.operands.items ++ operand.entry ∷ [] }
        ensures calls { self.new.calls ≡ capped (self.old.calls + calls) }
        ensures stored { self.old.stored ≤ self.new.stored }
        ensures listed { self.new.listed ≡ self.old.listed }
    {
        self.used += operand.size();
        self.stored = self.stored.max(self.used);
        self.operands.push(operand);
        self.calls = self.calls.saturating_add(calls);
    }

    /// The operand on top, which waits no more.
    pub(crate) fn pop(&mut self) -> Operand<'a>
        requires { 0 < array_vec_len self.old.operands }
        ensures items { self.old.operands.items ≡ self.new.operands.items ++ result ∷ [] }
        ensures len { array_vec_len self.new.operands + 1 ≡ array_vec_len self.old.operands }
        ensures used { self.new.used + size result ≡ self.old.used }
        ensures calls { self.new.calls ≡ self.old.calls }
        ensures stored { self.new.stored ≡ self.old.stored }
        ensures listed { self.new.listed ≡ self.old.listed }
    {
        let Some(top) = self.operands.pop() else {
            unreachable!()
        };
        self.used -= top.size();
        top
    }
}
