//! A query as it was read: its steps in running order, each with its place in the text.
ghost use Rattle.std.specs.Prelude.{◌≡◌, ◌+◌, ◌<◌, ◌≤◌, [], ◌∷◌, ◌++◌, length, map, take};
ghost use Rattle.query.specs.Expressions.{postfix, leaves};
ghost use Rattle.query.specs.Limits.{leaf_max, steps_max};
ghost use Rattle.query.specs.Postfix.{expr_of};
ghost use Rattle.query.specs.Steps.{shown, shown_action};

use crate::leaf::Leaf;
use crate::limits::STEPS_MAX;
use extents::Operator;
use std::alloc::AllocError;
use std::fmt;

/// What a step does.
#[derive(Clone, Copy, Debug, PartialEq, Eq)]
pub enum Action<'a> {
    Leaf(Leaf<'a>),
    /// The operator over the two operands before it.
    Apply(Operator),
}

/// What to do next, and the place of its token, in bytes from the text's start.
#[derive(Clone, Copy, Debug, PartialEq, Eq)]
pub struct Step<'a> {
    pub action: Action<'a>,
    pub place: usize,
}

/// Windows of no slot: what fills the room past the last step.
// Stays: by hand, since a variant that holds a value cannot be derived as the default. A list in fixed memory needs one.
impl<'a> Default for Step<'a> {
    ghost use Rattle.query.specs.Leaves.{windows};
    ghost use Rattle.query.specs.Expressions.{take_leaf};

    ghost is_default = { λ s. shown s ≡ (take_leaf (windows 0), 0) };

    fn default() -> Step<'a> {
        Step {
            action: Action::Leaf(Leaf::Windows(0)),
            place: 0,
        }
    }
}

// The steps so far: the first `len` items.
#[derive(Drop)]
pub(crate) struct Steps<'a> {
    items: [Step<'a>; STEPS_MAX],
    len: usize,
    ghost sized: { length items ≡ steps_max },
    ghost within: { len ≤ steps_max },
}

impl<'a> Steps<'a> {
    ghost use Rattle.query.specs.Queries.{steps_so_far};

    // No step yet.
    pub(crate) fn new() -> Steps<'a>
        ensures none { steps_so_far result ≡ [] }
        ensures short { result.len ≡ 0 }
    {
        Steps {
            items: [Step::default(); STEPS_MAX],
            len: 0,
        }
    }

    // One more step at the end.
    pub(crate) fn push(&mut self, action: Action<'a>, place: usize)
        requires { self.old.len < steps_max }
        ensures items { steps_so_far self.new ≡ steps_so_far self.old ++ (shown_action action.entry, place) ∷ [] }
        ensures long { self.new.len ≡ self.old.len + 1 }
    {
        self.items[self.len] = Step { action, place };
        self.len += 1;
    }
}

/// A query that was read: left operand, right operand, operator. Its steps are always those of one expression within the limits.
#[derive(Copy)]
pub struct Query<'a> {
    // The first `len` of them.
    steps: [Step<'a>; STEPS_MAX],
    len: usize,
    ghost within: { len ≤ steps_max },
    ghost order: { map shown (take len steps) ≡ postfix (expr_of (map shown (take len steps))) },
    ghost few: { leaves (expr_of (map shown (take len steps))) ≤ leaf_max },
}

/// The same query; it allocates nothing and always succeeds.
impl<'a> Clone for Query<'a> {
    ghost use Rattle.std.specs.Prelude.{⊤};

    ghost is_clone = { λ q copy. copy ≡ q };

    ghost is_infallible = { λ _. ⊤ };

    fn clone(&self) -> Result<Query<'a>, AllocError> {
        Ok(*self)
    }
}

/// Equal steps.
impl<'a> PartialEq for Query<'a> {
    ghost use Rattle.std.specs.Cmp.{on_per};
    ghost use Rattle.std.specs.Cmp.Lexicographic.{pointwise, lists_per};
    ghost use Rattle.query.specs.contracts.query.StepPartialEq.TheImpl.Laws as step_eq;

    ghost eq = { λ q r. pointwise ⟦<Step<'a> as PartialEq>⟧.eq (take q.len q.steps) (take r.len r.steps) };

    ghost laws = { on_per (λ q. take q.len q.steps) (lists_per step_eq.laws-law) };

    fn eq(&self, other: &Query<'a>) -> bool {
        self.steps[..self.len] == other.steps[..other.len]
    }
}

impl<'a> Eq for Query<'a> {
    ghost use Rattle.std.specs.Cmp.{on_equiv};
    ghost use Rattle.std.specs.Cmp.Lexicographic.{lists_equiv};
    ghost use Rattle.query.specs.contracts.query.StepEq.TheImpl.Laws as step_eq;

    ghost laws = { on_equiv (λ q. take q.len q.steps) (lists_equiv step_eq.laws-law) };
}

impl<'a> fmt::Debug for Query<'a> {
    fn fmt<W: fmt::Write>(&self, f: &mut fmt::Formatter<W>) -> fmt::Result {
        f.debug_struct("Query")
            .field("steps", &self.steps())
            .finish()
    }
}

impl<'a> Query<'a> {
    ghost use Rattle.query.specs.Queries.{steps_so_far, steps};

    // The query whose steps these are.
    pub(crate) fn new(read: Steps<'a>) -> Query<'a>
        requires order { steps_so_far read ≡ postfix (expr_of (steps_so_far read)) }
        requires few { leaves (expr_of (steps_so_far read)) ≤ leaf_max }
        ensures { steps result ≡ steps_so_far read.entry }
    {
        Query {
            steps: read.items,
            len: read.len,
        }
    }

    /// The steps in running order.
    pub fn steps(&self) -> &[Step<'a>]
        ensures all { map shown result.now ≡ steps self.now }
        ensures few { length result.now ≤ steps_max }
    {
        &self.steps[..self.len]
    }
}
