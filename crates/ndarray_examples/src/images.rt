//! The difference of two images: the example of README, with its `use` lines.

ghost use Rattle.std.specs.Prelude.{◌≡◌, ◌-◌, IfOk, IsOk};
ghost use Rattle.ndarray.specs.Everyday.{combined};
ghost use Rattle.ndarray.specs.Index.{size};

use ndarray::{Array, ArrayBase, Data, Lengths};
use std::alloc::{AllocError, Global};

/// The difference of two images, and 0 where the second is brighter.
pub fn difference<S: Data<Elem = u64>, T: Data<Elem = u64>, D: Lengths>(
    alloc: Global,
    a: &ArrayBase<S, D>,
    b: &ArrayBase<T, D>,
) -> Result<Array<u64, D>, AllocError>
    requires { b.now.lengths ≡ a.now.lengths }
    ensures cells { IfOk result (λ c. c ≡ combined (λ x y. x - y) a.now b.now) }
    ensures empty { size a.now.lengths ≡ 0 → IsOk result }
{
    a.combine(alloc, b, |x, y| x.saturating_sub(*y))
}
