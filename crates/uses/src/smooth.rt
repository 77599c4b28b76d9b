//! A separable blur: a picture filtered by a square kernel, by way of a column and a row.
//!
//! The kernel has five by five cells, and each is the product of two of the weights 1, 4, 6, 4, 1: that of its row and that of its column. So
//! the filter by the kernel is the filter by the column of the weights, and then by the row of them: ten products for a pixel in place of
//! 25. The weights add up to 16 and the kernel's cells to 256, by which each sum is divided.
//!
//! Here that is proved, of any column and any row: the contract of `filter` speaks of the kernel of their products alone. It rests on a law
//! of the library, `filters_compose`, which the body cites by a call that does nothing.
//!
//! ```
//! // a picture of five rows and six columns, all 0 but for a pixel of 128 in the middle row, at column 2
//! smooth(alloc, &image)?; // [[18, 12]]
//! ```

ghost use Rattle.std.specs.Prelude.{◌≡◌, ◌↔◌, int_div, pos, IfErr, IfOk, IfSome, IsSome};
ghost use Rattle.ndarray.specs.Grid.{IsGrid};
ghost use Rattle.ndarray.specs.Views.{axis_inserted};
ghost use Rattle.uses.specs.Smooth.{CanFilterByParts, CanFilterImage, column_times_row, filtered_image, smoothed, weights};

use crate::picture::Filtered;
use ndarray::conv::{conv_valid, conv_valid_ok, valid_fits};
use ndarray::laws::filters_compose;
use ndarray::{ArrayBase, ArrayView1, Axis, Data, Ix1, Ix2};
use std::alloc::Global;

/// A picture smoothed: each pixel is the mean of the square of five by five pixels with the weights 1, 4, 6, 4, 1 times each other, rounded
/// towards zero. `None` where a sum of the filter by the column, or by the row, may be no `i64`. The error is allocation failure.
pub fn smooth<S: Data<Elem = i64>>(alloc: Global, image: &ArrayBase<S, Ix2>) -> Filtered
    ensures when { IfOk result (λ made. IsSome made ↔ CanFilterByParts image.now weights weights) }
    ensures pixels { IfOk result (λ made. IfSome made (λ r. r ≡ smoothed image.now)) }
    ensures error { IfErr result (λ _. CanFilterImage image.now (axis_inserted weights 1)) }
{
    let weights = [1, 4, 6, 4, 1];
    let weights = ArrayView1::from(weights.as_slice());
    let Some(sums) = filter(alloc, image, &weights, &weights)? else {
        return Ok(None);
    };
    let means = sums.map(alloc, |sum| mean(*sum))?;
    Ok(Some(means))
}

/// The 256th part of a number, rounded towards zero.
fn mean(sum: i64) -> i64
    ensures { result ≡ int_div sum (pos 256) }
{
    sum / 256
}

/// A picture filtered by the kernel that is a column of weights times a row of weights: by the column, and then by the row. Both are taken
/// from the other end, as a convolution is. `None` where there are no weights, or a sum of one of these filters may be no `i64`. The error
/// is allocation failure.
pub fn filter<S: Data<Elem = i64>, T: Data<Elem = i64>, U: Data<Elem = i64>>(
    alloc: Global,
    image: &ArrayBase<S, Ix2>,
    column: &ArrayBase<T, Ix1>,
    row: &ArrayBase<U, Ix1>,
) -> Filtered
    ensures when { IfOk result (λ made. IsSome made ↔ CanFilterByParts image.now column.now row.now) }
    ensures pixels { IfOk result (λ made. IfSome made (λ r. r ≡ filtered_image image.now (column_times_row column.now row.now))) }
    ensures whole { IfOk result (λ made. IfSome made IsGrid) }
    ensures error { IfErr result (λ _. CanFilterImage image.now (axis_inserted column.now 1)) }
{
    filters_compose::<i64>();
    let _whole = (image.raw_dim(), column.raw_dim(), row.raw_dim());
    let column = column.view().insert_axis(Axis(1));
    let row = row.view().insert_axis(Axis(0));
    let Some(once) = filtered(alloc, image, &column)? else {
        return Ok(None);
    };
    filtered(alloc, &once, &row)
}

/// A picture filtered by a kernel. `None` where the kernel has no rows or no columns, or a sum may be no `i64`. The error is allocation
/// failure.
fn filtered<S: Data<Elem = i64>, T: Data<Elem = i64>>(
    alloc: Global,
    image: &ArrayBase<S, Ix2>,
    kernel: &ArrayBase<T, Ix2>,
) -> Filtered
    ensures when { IfOk result (λ made. IsSome made ↔ CanFilterImage image.now kernel.now) }
    ensures pixels { IfOk result (λ made. IfSome made (λ r. r ≡ filtered_image image.now kernel.now)) }
    ensures whole { IfOk result (λ made. IfSome made IsGrid) }
    ensures error { IfErr result (λ _. CanFilterImage image.now kernel.now) }
{
    let _whole = (image.raw_dim(), kernel.raw_dim());
    if !conv_valid_ok(image, kernel) {
        return Ok(None);
    }
    if !valid_fits(image, kernel) {
        return Ok(None);
    }
    let filtered = conv_valid(alloc, image, kernel)?;
    Ok(Some(filtered))
}
