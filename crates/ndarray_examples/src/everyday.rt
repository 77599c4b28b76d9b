//! Functions that a user would write with the calls of a closure that has no state, each with what it computes as its contract.
//! All but the last three take no proof.

ghost use Rattle.std.specs.Prelude.{◌≡◌, ◌↔◌, ◌<◌, ◌≤◌, ◌/◌, ◌+◌, ◌∷◌, [], ℕ, List, Some, IfOk, IsOk, IsTrue, bit_xor, length, max, nat_lt, remove, slice_index};
ghost use Rattle.std.specs.List.{fold};
ghost use Rattle.ndarray.specs.Elementwise.{CanMap};
ghost use Rattle.ndarray.specs.Everyday.{combined, mapped};
ghost use Rattle.ndarray.specs.Grid.{array_by, cell};
ghost use Rattle.ndarray.specs.Index.{size};
ghost use Rattle.ndarray.specs.Limits.{IsWithinLimit};
ghost use Rattle.ndarray.specs.Subviews.{lane};

use ndarray::iter::Iter;
use ndarray::{Array, ArrayBase, Axis, Data, DataMut, Dimension, Ix1, Ix2, Lengths};
use std::alloc::{AllocError, Global};

/// Half of each cell, rounded down.
pub fn halves<S: Data<Elem = u64>, D: Lengths>(
    alloc: Global,
    a: &ArrayBase<S, D>,
) -> Result<Array<u64, D>, AllocError>
    ensures halves { IfOk result (λ b. b ≡ mapped (λ x. x / 2) a.now) }
    ensures empty { size a.now.lengths ≡ 0 → IsOk result }
{
    a.map(alloc, |x| *x / 2)
}

/// Whether each cell is above a limit.
pub fn threshold<S: Data<Elem = u64>, D: Lengths>(
    alloc: Global,
    a: &ArrayBase<S, D>,
    limit: u64,
) -> Result<Array<bool, D>, AllocError>
    ensures above { IfOk result (λ b. b ≡ mapped (λ x. nat_lt limit x) a.now) }
    ensures empty { size a.now.lengths ≡ 0 → IsOk result }
{
    a.mapv(alloc, |x| x > limit)
}

/// One more at each cell, of cells below a hundred.
pub fn increment<S: Data<Elem = u8>, D: Lengths>(
    alloc: Global,
    a: &ArrayBase<S, D>,
) -> Result<Array<u8, D>, AllocError>
    requires { CanMap (λ x. x < 100) a.now }
    ensures sums { IfOk result (λ b. b ≡ mapped (λ x. x + 1) a.now) }
    ensures empty { size a.now.lengths ≡ 0 → IsOk result }
{
    a.mapv(alloc, |x| x + 1)
}

/// Halves each cell where it is.
pub fn halve_each<S: DataMut<Elem = u64>, D: Lengths>(a: &mut ArrayBase<S, D>)
    ensures { a.new ≡ mapped (λ x. x / 2) a.old }
{
    a.mapv_inplace(|x| x / 2);
}

/// Halves each cell where it is, by a reference to it.
pub fn halve_each_by_reference<S: DataMut<Elem = u64>, D: Lengths>(a: &mut ArrayBase<S, D>)
    ensures { a.new ≡ mapped (λ x. x / 2) a.old }
{
    a.map_inplace(|x| *x /= 2);
}

/// Clears an array.
pub fn clear<S: DataMut<Elem = u64>, D: Lengths>(a: &mut ArrayBase<S, D>)
    ensures { a.new ≡ mapped (λ _. 0) a.old }
{
    a.fill(0);
}

/// Leaves at each cell of an image the brighter one of it and that of another.
pub fn brighten<S: DataMut<Elem = u64>, T: Data<Elem = u64>, D: Lengths>(
    a: &mut ArrayBase<S, D>,
    b: &ArrayBase<T, D>,
)
    requires { b.now.lengths ≡ a.old.lengths }
    ensures { a.new ≡ combined max a.old b.now }
{
    a.zip_mut_with(b, |x, y| *x = (*x).max(*y));
}

/// Copies an image over another one.
pub fn copy_over<S: DataMut<Elem = u64>, T: Data<Elem = u64>, D: Lengths>(
    a: &mut ArrayBase<S, D>,
    b: &ArrayBase<T, D>,
)
    requires { b.now.lengths ≡ a.old.lengths }
    ensures { a.new ≡ b.now }
{
    a.assign(b);
}

/// Whether two images are the same.
pub fn are_equal<S: Data<Elem = u64>, T: Data<Elem = u64>, D: Lengths>(
    a: &ArrayBase<S, D>,
    b: &ArrayBase<T, D>,
) -> bool
    ensures { IsTrue result ↔ (a.now ≡ b.now) }
{
    a.equals(b)
}

/// The table that has at each place the greater one of its row and its column.
pub fn greater_index(
    alloc: Global,
    rows: usize,
    columns: usize,
) -> Result<Array<usize, Ix2>, AllocError>
    requires { IsWithinLimit (rows ∷ columns ∷ []) }
    ensures cells { IfOk result (λ b. b ≡ array_by (rows ∷ columns ∷ []) (λ is. max (slice_index is 0) (slice_index is 1))) }
    ensures empty { size (rows ∷ columns ∷ []) ≡ 0 → IsOk result }
{
    Array::from_shape_fn(alloc, (rows, columns), |(i, j)| i.max(j))
}

/// The greatest cell of each lane along an axis, and 0 of a lane without cells.
pub fn greatest_along<S: Data<Elem = u64>, D: Dimension>(
    alloc: Global,
    a: &ArrayBase<S, D>,
    axis: Axis,
) -> Result<Array<u64, D::Smaller>, AllocError>
    requires { axis.0 < length a.now.lengths }
    ensures maxima { IfOk result (λ c. c ≡ array_by (remove a.now.lengths axis.0) (λ js. fold max 0 (lane a.now axis.0 js).cells)) }
    ensures empty { size (remove a.now.lengths axis.0) ≡ 0 → IsOk result }
{
    a.fold_axis(alloc, axis, 0, |most, x| (*most).max(*x))
}

/// The peak of each lane along an axis, as of each channel of a recording, and 0 of a lane without cells: no cell is above the peak of its lane.
///
/// Requires an axis of the array. The error is allocation failure.
pub fn peaks<S: Data<Elem = u64>, D: Dimension>(
    alloc: Global,
    a: &ArrayBase<S, D>,
    axis: Axis,
) -> Result<Array<u64, D::Smaller>, AllocError>
    requires { axis.0 < length a.now.lengths }
    ensures maxima { IfOk result (λ peaks. peaks ≡ array_by (remove a.now.lengths axis.0) (λ js. fold max 0 (lane a.now axis.0 js).cells)) }
    ensures bounds { IfOk result (λ peaks. (is : List ℕ) (x peak : ℕ) → cell a.now is ≡ Some x → cell peaks (remove is axis.0) ≡ Some peak → x ≤ peak) }
    ensures empty { size (remove a.now.lengths axis.0) ≡ 0 → IsOk result }
{
    let _lengths = a.raw_dim();
    let peaks = greatest_along(alloc, a, axis)?;
    Ok(peaks)
}

/// The exclusive or of the cells of each lane along an axis.
pub fn parities<S: Data<Elem = u64>, D: Dimension>(
    alloc: Global,
    a: &ArrayBase<S, D>,
    axis: Axis,
) -> Result<Array<u64, D::Smaller>, AllocError>
    requires { axis.0 < length a.now.lengths }
    ensures parities { IfOk result (λ c. c ≡ array_by (remove a.now.lengths axis.0) (λ js. fold bit_xor 0 (lane a.now axis.0 js).cells)) }
    ensures empty { size (remove a.now.lengths axis.0) ≡ 0 → IsOk result }
{
    a.map_axis(alloc, axis, |lane| parity(lane))
}

/// The exclusive or of cells.
fn parity(cells: Iter<'_, u64, Ix1>) -> u64
    ensures { result ≡ fold bit_xor 0 cells.entry }
{
    cells.fold(0, |sum, x| sum ^ *x)
}
