//! The index lists of a box, as a producer.

ghost use Rattle.std.specs.Prelude.{◌≡◌, ◌↔◌, List, ℕ, Some};
ghost use Rattle.ndarray.specs.Grid.{array_by, cell};
ghost use Rattle.ndarray.specs.Index.{InBox};
ghost use Rattle.ndarray.specs.Limits.{IsWithinLimit};

use crate::base::index_lists;
use crate::base::into_dimension::IntoDimension;

/// The index lists of a box: a producer whose item at an index list is that list as a pattern.
///
/// Requires that the nonzero lengths multiply to at most `isize::MAX`; check with `size_ok` of the dimension.
///
/// ```
/// // (0, 0), (0, 1), (1, 0), (1, 1)
/// Zip::from(indices((2, 2))).for_each(|(i, j)| ..)
/// ```
pub fn indices<E: IntoDimension>(dim: E) -> index_lists::Indices<E::Dim>
    requires { IsWithinLimit (E.written_numbers dim) }
    ensures value { result ≡ array_by (E.written_numbers dim) (λ is. is) }
    ensures items { (is : List ℕ) → InBox (E.written_numbers dim) is → (x : E.Dim.Pattern) → (cell result is ≡ Some (E.Dim.pattern_numbers x)) ↔ (E.Dim.pattern_numbers x ≡ is) }
{
    index_lists::Indices::of(dim.into_dimension())
}
