//! Arrays walked together, whose results are proved: what a user's closure computes is known to the
//! caller.

ghost use Rattle.std.specs.Prelude.{◌≡◌, ◌<◌, ◌^◌};
ghost use Rattle.std.specs.List.{sum_by};
ghost use Rattle.ndarray.specs.Index.{row_order};
ghost use Rattle.ndarray_examples.specs.PairedProducts.{product_at};

use ndarray::{ArrayBase, ArrayView, Data, Lengths, ShapeBuilder, Zip};

/// The sum of the products of the cells at the same index lists, whatever the layouts of the two arrays.
///
/// Requires equal lengths, and that the sum fits.
pub fn sum_of_products<S: Data<Elem = u64>, T: Data<Elem = u64>, D: Lengths>(
    a: &ArrayBase<S, D>,
    b: &ArrayBase<T, D>,
) -> u64
    requires same { a.now.lengths ≡ b.now.lengths }
    requires fits { sum_by (product_at a.now b.now) (row_order a.now.lengths) < 2 ^ 64 }
    ensures { result ≡ sum_by (product_at a.now b.now) (row_order a.now.lengths) }
{
    Zip::from(a).and(b).fold(0, |acc, x, y| acc + *x * *y)
}

/// The sum of products of [[1, 5], [3, 7]], held column-major, and [[2, 4], [8, 6]], held row-major.
pub fn products_of_two_layouts() -> u64
    ensures { result ≡ 88 }
{
    let Ok(a) = ArrayView::from_shape((2, 2).f(), &[1u64, 3, 5, 7]) else {
        unreachable!()
    };
    let Ok(b) = ArrayView::from_shape((2, 2), &[2u64, 4, 8, 6]) else {
        unreachable!()
    };
    sum_of_products(&a, &b)
}
