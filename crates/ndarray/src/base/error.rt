//! Errors of shapes.

ghost use Rattle.std.specs.Prelude.{◌≡◌, Some};
ghost use Rattle.ndarray.specs.Errors.{shape_error, shape_error_text};

use std::fmt;

/// What is wrong with a shape.
#[derive(Clone, Copy, PartialEq, Eq, Debug)]
pub enum ErrorKind {
    /// The lengths do not fit the data or each other.
    IncompatibleShape,
    /// The cells lie in an order that the call cannot take.
    IncompatibleLayout,
    /// A number of axes is beyond what a type may have.
    RangeLimited,
    /// An axis or an index is out of bounds.
    OutOfBounds,
    /// The call has no meaning on these arguments.
    Unsupported,
    /// The nonzero lengths multiply to more than `isize::MAX`.
    Overflow,
}

/// The error of a call that takes or makes a shape.
#[derive(Clone, Copy, PartialEq, Eq, Debug)]
pub struct ShapeError {
    kind: ErrorKind,
}

impl ShapeError {
    /// The error of a kind.
    ///
    /// ```
    /// assert_eq!(ShapeError::from_kind(ErrorKind::Overflow).kind(), ErrorKind::Overflow);
    /// ```
    pub fn from_kind(kind: ErrorKind) -> Self
        ensures { result ≡ shape_error kind }
    {
        ShapeError { kind }
    }

    /// What is wrong with the shape.
    ///
    /// ```
    /// // three elements are too few for two rows of two cells
    /// if let Err(error) = ArrayView::from_shape((2, 2), &[1, 2, 3]) {
    ///     assert_eq!(error.kind(), ErrorKind::OutOfBounds);
    /// }
    /// ```
    pub fn kind(&self) -> ErrorKind
        ensures { self.now ≡ shape_error result }
    {
        self.kind
    }
}

impl fmt::Display for ShapeError {
    ghost output = { λ e. Some (shape_error_text e) };

    fn fmt<W: fmt::Write>(&self, f: &mut fmt::Formatter<W>) -> fmt::Result {
        let text = match self.kind {
            ErrorKind::IncompatibleShape => "ShapeError/IncompatibleShape: incompatible shapes",
            ErrorKind::IncompatibleLayout =>
                "ShapeError/IncompatibleLayout: incompatible memory layout",
            ErrorKind::RangeLimited =>
                "ShapeError/RangeLimited: the shape does not fit in type limits",
            ErrorKind::OutOfBounds => "ShapeError/OutOfBounds: out of bounds indexing",
            ErrorKind::Unsupported => "ShapeError/Unsupported: unsupported operation",
            ErrorKind::Overflow => "ShapeError/Overflow: arithmetic overflow",
        };
        f.write_str(text)
    }
}
