//! The macros `concatenate!` and `stack!`.

/// Joins arrays, views or references to them along an axis: `concatenate![alloc, axis, a, b, ..]` calls [`concatenate`](crate::concatenate)
/// with their views, and returns its errors.
///
/// A trailing comma is allowed. Requires that each clone equals its source.
///
/// ```
/// concatenate![alloc, Axis(1), a, b]?;
/// ```
#[macro_export]
macro_rules! concatenate {
    ($alloc:expr, $axis:expr, $($array:expr),+ $(,)?) => {
        $crate::concatenate($alloc, $axis, &[$($array.view()),+])
    };
}

/// Stacks arrays, views or references to them along a new axis: `stack![alloc, axis, a, b, ..]` calls [`stack`](crate::stack) with their
/// views, and returns its errors.
///
/// A trailing comma is allowed. Requires that each clone equals its source.
///
/// ```
/// stack![alloc, Axis(0), a, b]?;
/// ```
#[macro_export]
macro_rules! stack {
    ($alloc:expr, $axis:expr, $($array:expr),+ $(,)?) => {
        $crate::stack($alloc, $axis, &[$($array.view()),+])
    };
}
