//! Orders of a box, and shapes: lengths with the order in which their cells are stored.

ghost use Rattle.std.specs.Prelude.{◌≡◌, ◌<◌, List, ℕ};
ghost use Rattle.ndarray.specs.Dimensions.{shape_dim, stored_in};
ghost use Rattle.ndarray.specs.base.Ranks.{axis_in};
ghost use Rattle.ndarray.specs.declared.base.shape.Order.{Order};
ghost use Rattle.ndarray.specs.declared.base.shape.Order.TheVariants.{ColumnMajor, RowMajor};

use crate::base::dimension::Dimension;
use crate::base::into_dimension::IntoDimension;

/// An order of the index lists of a box.
#[derive(Clone, Copy, PartialEq, Eq, Debug)]
pub enum Order {
    /// The last index varies fastest.
    RowMajor,
    /// The first index varies fastest.
    ColumnMajor,
}

impl Order {
    /// The order for cells of a tendency: column order if it is negative.
    pub(crate) fn by_tendency(tendency: i32) -> Order {
        if tendency < 0 {
            Order::ColumnMajor
        } else {
            Order::RowMajor
        }
    }
}

/// The axis that varies `p`-th fastest, of `ndim`.
pub(crate) fn axis_at(order: Order, ndim: usize, p: usize) -> usize
    requires { p < ndim }
    ensures value { result ≡ axis_in order ndim p }
    ensures below { result < ndim }
{
    match order {
        Order::RowMajor => ndim - 1 - p,
        Order::ColumnMajor => p,
    }
}

/// Lengths, and the order in which the cells of an array are stored.
#[derive(Clone, Copy, Drop, PartialEq, Eq, Debug)]
pub struct Shape<D> {
    pub(crate) dim: D,
    pub(crate) order: Order,
}

/// What may be written for a shape: lengths alone, which are stored row-major, or lengths with `.f()`, which are stored column-major.
pub trait ShapeBuilder: Sized {
    /// The dimension of the lengths.
    type Dim: Dimension;

    // The lengths, that of axis 0 first.
    ghost shape_lengths: { Self → List ℕ };

    // The order of storage.
    ghost shape_order: { Self → Order };

    /// The lengths with their order of storage.
    ///
    /// ```
    /// let by_rows = (2, 3).into_shape_with_order();
    /// let by_columns = (2, 3).f().into_shape_with_order(); // as `(2, 3).f()`
    /// ```
    fn into_shape_with_order(self) -> Shape<Self::Dim>
        ensures lengths { Self.Dim.numbers (shape_dim result) ≡ shape_lengths self }
        ensures order { stored_in result ≡ shape_order self };

    /// The lengths, stored column-major.
    ///
    /// ```
    /// let view = ArrayView::from_shape((2, 3).f(), &[1, 4, 2, 5, 3, 6]);
    /// ```
    fn f(self) -> Shape<Self::Dim>
        ensures lengths { Self.Dim.numbers (shape_dim result) ≡ shape_lengths self }
        ensures order { stored_in result ≡ ColumnMajor };
}

impl<T: IntoDimension> ShapeBuilder for T {
    type Dim = T::Dim;

    ghost shape_lengths = { λ s. T.written_numbers s };

    ghost shape_order = { λ _. RowMajor };

    fn into_shape_with_order(self) -> Shape<T::Dim> {
        Shape {
            dim: self.into_dimension(),
            order: Order::RowMajor,
        }
    }

    fn f(self) -> Shape<T::Dim> {
        Shape {
            dim: self.into_dimension(),
            order: Order::ColumnMajor,
        }
    }
}

impl<D: Dimension> ShapeBuilder for Shape<D> {
    type Dim = D;

    ghost shape_lengths = { λ s. D.numbers (shape_dim s) };

    ghost shape_order = { λ s. stored_in s };

    fn into_shape_with_order(self) -> Shape<D> {
        self
    }

    fn f(self) -> Shape<D> {
        Shape {
            dim: self.dim,
            order: Order::ColumnMajor,
        }
    }
}
