//! One call for every operator over two sources, and every access.
ghost use Rattle.std.specs.Prelude.{◌≡◌};
ghost use Rattle.extents.specs.Accesses.{Answer};
ghost use Rattle.extents.specs.Expressions.{over, set_of};
ghost use Rattle.operators.specs.Operators.{operator_calls};

use super::question::{Question, ask_operator};
use extents::{Access, Extent, Found, Operator, Source};

/// An access at a key.
#[derive(Clone, Copy, Debug, PartialEq, Eq)]
struct Call {
    access: Access,
    key: u32,
}

impl Question for Call {
    type Answer = Found;

    ghost right = { λ asked made xs calls was area found.
        Answer asked.access asked.key (set_of made) found.extent × (found.calls ≡ calls asked.access asked.key) };

    // Stays: the one place at which an access is told from another; a closure for it would be this match.
    fn ask<S: Source>(&self, source: &S, _area: &mut [Extent]) -> Found {
        match self.access {
            Access::FirstStart => source.first_start(self.key),
            Access::FirstEnd => source.first_end(self.key),
            Access::LastEnd => source.last_end(self.key),
            Access::LastStart => source.last_start(self.key),
        }
    }
}

/// What an access at `k` to an operator over two sources finds, and in how many calls.
// Stays: an operator and two sources, each of a type of its own; a struct of the three would be made for one call.
pub fn evaluate<A: Source, B: Source>(
    operator: Operator,
    a: &A,
    b: &B,
    access: Access,
    k: u32,
) -> Found
    ensures extent { Answer access k (set_of (over operator (A.expression a.now) (B.expression b.now))) result.extent }
    ensures count { result.calls ≡ operator_calls operator (A.extents a.now) (A.calls a.now) (B.extents b.now) (B.calls b.now) access k }
{
    ask_operator(&Call { access, key: k }, operator, a, b, &mut [])
}
