//! An image filter: a box blur and an edge filter of a grey picture.
//!
//! A picture is a table of whole numbers, its pixels. Both filters look at each square of three by three pixels and have a pixel
//! for each, so the filtered picture has two rows and two columns fewer. The blur is the mean of the nine pixels. The edge
//! filter is how much the pixel in the middle differs from those round it: nine times its value less the sum of all nine, without
//! the sign, and at most 255. So an even area is black, and edges are bright.
//!
//! Both are a convolution with a kernel of nine numbers, `conv_valid`, behind its range test, `valid_fits`; and then a function
//! of each sum, by `mapv`. A convolution takes the kernel from the other end; these kernels are the
//! same from both ends, and the contracts say each pixel by the plain sum of the square.
//!
//! ```
//! let image = ArrayView::from_shape((3, 4), &[9, 9, 9, 0, 9, 9, 9, 0, 9, 9, 9, 0])?;
//! blur(alloc, &image)?; // [[9, 6]]
//! edges(alloc, &image)?; // [[0, 27]]
//! ```

ghost use Rattle.std.specs.Prelude.{◌≡◌, ◌⊎◌, ◌↔◌, ◌≤◌, ◌∷◌, [], int_div, min, pos, slice_index, unsigned_abs, IfOk, IfSome, IsOk, IsSome, FitsSigned};
ghost use Rattle.std.specs.Int.{w64};
ghost use Rattle.ndarray.specs.Convolution.{HasValidMagnitudesInRange, valid_convolution_by};
ghost use Rattle.ndarray.specs.Grid.{IsGrid, grid};
ghost use Rattle.ndarray.specs.Integers.{int_products, int_sums};
ghost use Rattle.uses.specs.Picture.{HasInnerPixels, blur_kernel, edge_kernel, edge_pixel, filtered_pixel, mean_pixel};

use ndarray::conv::{conv_valid, valid_fits};
use ndarray::{Array, ArrayBase, ArrayView, Data, Dimension, Ix2};
use std::alloc::{AllocError, Global};

/// What a filter gives: a picture, or `None`, or allocation failure.
pub type Filtered = Result<Option<Array<i64, Ix2>>, AllocError>;

/// A picture with each pixel the mean of a square of three by three pixels, rounded towards zero. `None` where a sum of nine
/// pixels may be no `i64`; there, and where the image has fewer than three rows or columns, there is no error.
pub fn blur<S: Data<Elem = i64>>(alloc: Global, image: &ArrayBase<S, Ix2>) -> Filtered
    ensures when { IfOk result (λ made. IsSome made ↔ HasValidMagnitudesInRange (λ x. x) (FitsSigned w64) image.now blur_kernel) }
    ensures pixels { IfOk result (λ made. IfSome made (HasInnerPixels image.now (mean_pixel image.now))) }
    ensures unfit { (HasValidMagnitudesInRange (λ x. x) (FitsSigned w64) image.now blur_kernel → ⊥) → IsOk result }
    ensures small { (slice_index image.now.lengths 0 ≤ 2) ⊎ (slice_index image.now.lengths 1 ≤ 2) → IsOk result }
{
    let Some(sums) = filter(alloc, image, &kernel(&[1, 1, 1, 1, 1, 1, 1, 1, 1]))? else {
        return Ok(None);
    };
    let means = sums.mapv(alloc, |sum| mean(sum))?;
    Ok(Some(means))
}

/// A picture with each pixel how much the pixel in the middle of a square of three by three differs from those round it. `None`
/// where a sum may be no `i64`; there, and where the image has fewer than three rows or columns, there is no error.
pub fn edges<S: Data<Elem = i64>>(alloc: Global, image: &ArrayBase<S, Ix2>) -> Filtered
    ensures when { IfOk result (λ made. IsSome made ↔ HasValidMagnitudesInRange (λ x. x) (FitsSigned w64) image.now edge_kernel) }
    ensures pixels { IfOk result (λ made. IfSome made (HasInnerPixels image.now (edge_pixel image.now))) }
    ensures unfit { (HasValidMagnitudesInRange (λ x. x) (FitsSigned w64) image.now edge_kernel → ⊥) → IsOk result }
    ensures small { (slice_index image.now.lengths 0 ≤ 2) ⊎ (slice_index image.now.lengths 1 ≤ 2) → IsOk result }
{
    let Some(sums) = filter(alloc, image, &kernel(&[-1, -1, -1, -1, 8, -1, -1, -1, -1]))? else {
        return Ok(None);
    };
    let edges = sums.mapv(alloc, |sum| brightness(sum))?;
    Ok(Some(edges))
}

/// A ninth of a number, rounded towards zero.
fn mean(sum: i64) -> i64
    ensures { result ≡ int_div sum (pos 9) }
{
    sum / 9
}

/// The absolute value of a number, and 255 where that is larger.
fn brightness(sum: i64) -> i64
    ensures { result ≡ pos (min (unsigned_abs sum) 255) }
{
    sum.unsigned_abs().min(255) as i64
}

/// Nine numbers as a kernel of three by three, row after row.
fn kernel(numbers: &[i64; 9]) -> ArrayView<'_, i64, Ix2>
    ensures value { result ≡ grid (3 ∷ 3 ∷ []) numbers.now }
    ensures whole { IsGrid result }
{
    let Ok(kernel) = ArrayView::from_shape((3, 3), numbers) else {
        unreachable!()
    };
    kernel
}

/// An image filtered by a kernel of three by three: at each pixel the sum of the products of the square there with the kernel's cells,
/// taken from the other end on both axes. `None` where the kernel has another shape or a sum may be no `i64`; there, and where
/// the image has fewer than three rows or columns, there is no error.
pub fn filter<S: Data<Elem = i64>, T: Data<Elem = i64>>(
    alloc: Global,
    image: &ArrayBase<S, Ix2>,
    kernel: &ArrayBase<T, Ix2>,
) -> Filtered
    ensures when { IfOk result (λ made. IsSome made ↔ ((kernel.now.lengths ≡ 3 ∷ 3 ∷ []) × HasValidMagnitudesInRange (λ x. x) (FitsSigned w64) image.now kernel.now)) }
    ensures pixels { IfOk result (λ made. IfSome made (λ filtered. filtered ≡ valid_convolution_by int_sums int_products (λ x. x) image.now kernel.now)) }
    ensures formula { IfOk result (λ made. IfSome made (HasInnerPixels image.now (filtered_pixel image.now kernel.now))) }
    ensures unfit { ((kernel.now.lengths ≡ 3 ∷ 3 ∷ []) × HasValidMagnitudesInRange (λ x. x) (FitsSigned w64) image.now kernel.now → ⊥) → IsOk result }
    ensures small { (slice_index image.now.lengths 0 ≤ 2) ⊎ (slice_index image.now.lengths 1 ≤ 2) → IsOk result }
{
    let _axes = image.raw_dim();
    let (rows, columns) = kernel.raw_dim().into_pattern();
    if rows != 3 || columns != 3 {
        return Ok(None);
    }
    if !valid_fits(image, kernel) {
        return Ok(None);
    }
    let filtered = conv_valid(alloc, image, kernel)?;
    Ok(Some(filtered))
}
