//! The one place that tells the seven operators apart, for whatever is asked of a source.
ghost use Rattle.std.specs.Prelude.{◌≡◌, ℕ, List};
ghost use Rattle.extents.specs.declared.access.Access.{Access};
ghost use Rattle.extents.specs.declared.extent.Extent.{Extent};
ghost use Rattle.extents.specs.Expressions.{Expression, over};
ghost use Rattle.operators.specs.Operators.{operator_list, operator_calls};

use combination::{BothOf, FollowedBy, OneOf};
use containment::{ContainedIn, Containing, NotContainedIn, NotContaining};
use extents::{Extent, Operator, Source};

/// What is asked of a source, whatever it is. Part of the answer may be extents, written to an area.
pub trait Question {
    /// The part of the answer that comes back.
    type Answer;

    /// The answer is right, of a source by its expression, its extents and the calls of its accesses: what the area held, what it
    /// holds then, and what comes back.
    ghost right: { Self → Expression → List Extent → (Access → ℕ → ℕ) → List Extent → List Extent → Self.Answer → Type 0 };

    /// Asks a source.
    fn ask<S: Source>(&self, source: &S, area: &mut [Extent]) -> Self::Answer
        ensures { right self.now (S.expression source.now) (S.extents source.now) (S.calls source.now) area.old area.new result };
}

/// Asks an operator over two sources.
pub fn ask_operator<Q: Question, A: Source, B: Source>(
    question: &Q,
    operator: Operator,
    a: &A,
    b: &B,
    area: &mut [Extent],
) -> Q::Answer
    ensures { Q.right question.now
        (over operator (A.expression a.now) (B.expression b.now))
        (operator_list operator (A.extents a.now) (B.extents b.now))
        (operator_calls operator (A.extents a.now) (A.calls a.now) (B.extents b.now) (B.calls b.now))
        area.old area.new result }
{
    match operator {
        Operator::ContainedIn => question.ask(&ContainedIn::new(a, b), area),
        Operator::NotContainedIn => question.ask(&NotContainedIn::new(a, b), area),
        Operator::Containing => question.ask(&Containing::new(a, b), area),
        Operator::NotContaining => question.ask(&NotContaining::new(a, b), area),
        Operator::BothOf => question.ask(&BothOf::new(a, b), area),
        Operator::OneOf => question.ask(&OneOf::new(a, b), area),
        Operator::FollowedBy => question.ask(&FollowedBy::new(a, b), area),
    }
}
