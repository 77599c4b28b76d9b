//! The macro `azip!`.

/// Calls a body once for each index list, with the items of up to six arrays or other producers there, each bound to a pattern.
///
/// - `azip!((pat in expr, ..) body)` is `Zip::from(expr).and(expr)..for_each(|pat, ..| body)`.
/// - `azip!((index pat, pat in expr, ..) body)` begins with `Zip::indexed`: the first pattern is bound to the index list.
/// - `azip!(expr, ..)` is the `Zip` alone.
///
/// A trailing comma is allowed. Requires equal shapes, as `and` does; check with `fits` of a `Zip`.
///
/// ```
/// azip!((x in &mut a, &y in &b) *x += y);
/// azip!((index (i, j), x in &mut a) *x = 10 * i + j);
/// let zip = azip!(&a, &b);
/// ```
#[macro_export]
macro_rules! azip {
    ((index $i:pat, $p:pat in $e:expr $(, $q:pat in $f:expr)* $(,)?) $body:expr) => {
        $crate::Zip::indexed($e)$(.and($f))*.for_each(|$i, $p $(, $q)*| $body)
    };
    (($p:pat in $e:expr $(, $q:pat in $f:expr)* $(,)?) $body:expr) => {
        $crate::Zip::from($e)$(.and($f))*.for_each(|$p $(, $q)*| $body)
    };
    ($e:expr $(, $f:expr)* $(,)?) => {
        $crate::Zip::from($e)$(.and($f))*
    };
}
