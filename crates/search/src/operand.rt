//! What waits for its operator: extents that are stored, or a source that is not; and either as a source.
ghost use Rattle.std.specs.Prelude.{◌≡◌};
ghost use Rattle.extents.specs.Extents.{ExtentList};
ghost use Rattle.extents.specs.declared.access.Access.TheVariants.{FirstStart};
ghost use Rattle.operators.specs.Listing.{ListsOperator, ListsTo};
ghost use Rattle.search.specs.Law.{each_one};
ghost use Rattle.search.specs.Run.{pending_of, size};
ghost use Rattle.search.specs.Sides.{side_list, side_expression};

use extents::{Extent, Found, Operator, Ordered, Source, StoredList, TraceRuns, Windows};
use operators::{Listing, Overfull, list_into, list_operator};

/// An operand as a source.
#[derive(Drop)]
pub(crate) enum Side<'a> {
    Stored(StoredList<'a>),
    Windows(Windows),
    Runs(TraceRuns<'a>),
}

// Stays: a line for each kind of source in each access; it exists for its contract, that an operand of any kind is a source. Listings
// tell the kind once (`list_side`, `list_sides`), since windows take up to eleven times as long where each access tells it.
impl Source for Side<'_> {
    ghost use Rattle.search.specs.SideLaws.{side_means};

    ghost extents = { side_list };

    ghost expression = { side_expression };

    ghost calls = { λ s. each_one };

    ghost means = { side_means };

    fn first_start(&self, k: u32) -> Found {
        match self {
            Side::Stored(list) => list.first_start(k),
            Side::Windows(windows) => windows.first_start(k),
            Side::Runs(runs) => runs.first_start(k),
        }
    }

    fn first_end(&self, k: u32) -> Found {
        match self {
            Side::Stored(list) => list.first_end(k),
            Side::Windows(windows) => windows.first_end(k),
            Side::Runs(runs) => runs.first_end(k),
        }
    }

    fn last_end(&self, k: u32) -> Found {
        match self {
            Side::Stored(list) => list.last_end(k),
            Side::Windows(windows) => windows.last_end(k),
            Side::Runs(runs) => runs.last_end(k),
        }
    }

    fn last_start(&self, k: u32) -> Found {
        match self {
            Side::Stored(list) => list.last_start(k),
            Side::Windows(windows) => windows.last_start(k),
            Side::Runs(runs) => runs.last_start(k),
        }
    }
}

/// Lists an operand.
// By itself, as is `list_with_right`: with more in one body, what a walk counts leaves the registers.
#[inline(never)]
pub(crate) fn list_side(side: Side<'_>, out: &mut [Extent]) -> Result<Listing, Overfull>
    ensures { ListsTo (side_list side.entry) (each_one FirstStart) out.old out.new result }
{
    match side {
        Side::Stored(list) => list_into(&list, out),
        Side::Windows(windows) => list_into(&windows, out),
        Side::Runs(runs) => list_into(&runs, out),
    }
}

/// Lists an operator over a source and an operand.
#[inline(never)]
fn list_with_right<A: Source>(
    operator: Operator,
    left: &A,
    right: Side<'_>,
    out: &mut [Extent],
) -> Result<Listing, Overfull>
    ensures { ListsOperator operator (A.extents left.now) (A.calls left.now) (side_list right.entry) each_one out.old out.new result }
{
    match right {
        Side::Stored(list) => list_operator(operator, left, &list, out),
        Side::Windows(windows) => list_operator(operator, left, &windows, out),
        Side::Runs(runs) => list_operator(operator, left, &runs, out),
    }
}

/// Lists an operator over two operands.
pub(crate) fn list_sides(
    operator: Operator,
    left: Side<'_>,
    right: Side<'_>,
    out: &mut [Extent],
) -> Result<Listing, Overfull>
    ensures { ListsOperator operator (side_list left.entry) each_one (side_list right.entry) each_one out.old out.new result }
{
    match left {
        Side::Stored(list) => list_with_right(operator, &list, right, out),
        Side::Windows(windows) => list_with_right(operator, &windows, right, out),
        Side::Runs(runs) => list_with_right(operator, &runs, right, out),
    }
}

/// What waits for its operator.
#[derive(Drop)]
pub(crate) enum Operand<'a> {
    /// So many extents on top of the stack area.
    Stored(usize),
    /// A source that is not stored.
    Unstored(Side<'a>),
}

// Stays: by hand, since a variant that holds a value cannot be derived as the default. An operand stack needs one.
impl<'a> Default for Operand<'a> {
    ghost use Rattle.search.specs.declared.operand.Operand.TheVariants.{Stored as stored};

    ghost is_default = { λ o. o ≡ stored 0 };

    fn default() -> Operand<'a> {
        Operand::Stored(0)
    }
}

impl<'a> Operand<'a> {
    /// How many extents are stored of it.
    pub(crate) fn size(&self) -> usize
        ensures { result ≡ size self.now }
    {
        match self {
            Operand::Stored(n) => *n,
            Operand::Unstored(_) => 0,
        }
    }

    /// The operand as a source, over what is stored of it.
    pub(crate) fn side(self, items: &'a [Extent]) -> Side<'a>
        requires { ExtentList items.now }
        ensures { side_list result ≡ (pending_of self.entry items.now).extents }
    {
        match self {
            Operand::Stored(_) => Side::Stored(StoredList::over(Ordered { items })),
            Operand::Unstored(side) => side,
        }
    }
}
