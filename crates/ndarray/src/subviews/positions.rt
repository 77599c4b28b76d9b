//! Inside `subviews`: at which positions exact chunks and windows are.

ghost use Rattle.std.specs.Prelude.{◌≡◌, ◌↔◌, ◌<◌, ◌≤◌, ◌^◌, length, replicate, IsTrue};
ghost use Rattle.ndarray.specs.Limits.{IsWithinLimit};
ghost use Rattle.ndarray.specs.Subviews.{ArePositive, window_count, window_counts, windows_of};
ghost use Rattle.ndarray.specs.base.Pieces.{AreStepsOf, AreWindowsOf};

use crate::base::array::ArrayBase;
use crate::base::dimension::Lengths;
use crate::base::layout::Layout;
use crate::base::storage::Data;
use crate::subviews::pieces::Pieces;

/// Whether there are as many numbers as axes, each at least 1.
pub(crate) fn are_positive<D: Lengths>(dim: &D, numbers: &D) -> bool
    ensures { IsTrue result ↔ ArePositive (D.numbers dim.now) (D.numbers numbers.now) }
{
    numbers.ndim() == dim.ndim() && numbers.slice().iter().all(|number| 1 <= *number)
}

/// As many ones as there are axes.
pub(crate) fn ones<D: Lengths>(dim: &D) -> D
    ensures { D.numbers result ≡ replicate (length (D.numbers dim.now)) 1 }
{
    let ndim = dim.ndim();
    let mut ones = D::zeros(ndim);
    for k in 0..ndim {
        ones.set_axis(k, 1);
    }
    ones
}

/// The number of windows of a length on an axis, a step apart.
fn count(len: usize, window: usize, step: usize) -> usize
    requires step { 1 ≤ step }
    requires fits { len < 2 ^ 63 }
    ensures { result ≡ window_count len window step }
{
    if len < window {
        0
    } else {
        (len - window) / step + 1
    }
}

/// The positions of the windows of these lengths, steps apart on each axis. The distance of two positions is formed only if there is a
/// window.
pub(super) fn window_positions<D: Lengths>(layout: &Layout<D>, window: &D, steps: &D) -> Layout<D>
    requires limit { IsWithinLimit (D.numbers layout.now.dim) }
    requires strides { length (D.numbers layout.now.strides) ≡ length (D.numbers layout.now.dim) }
    requires window { length (D.numbers window.now) ≡ length (D.numbers layout.now.dim) }
    requires steps { ArePositive (D.numbers layout.now.dim) (D.numbers steps.now) }
    ensures start { result.start ≡ layout.now.start }
    ensures dim { D.numbers result.dim ≡ window_counts (D.numbers layout.now.dim) (D.numbers window.now) (D.numbers steps.now) }
    ensures strides { AreStepsOf (D.numbers result.dim) (D.numbers layout.now.strides) (D.numbers steps.now) (D.numbers result.strides) }
{
    let ndim = layout.dim.ndim();
    let mut dim = D::zeros(ndim);
    let mut strides = D::zeros(ndim);
    for k in 0..ndim {
        let step = steps.axis(k);
        let windows = count(layout.dim.axis(k), window.axis(k), step);
        let distance = if windows == 0 {
            0
        } else {
            layout.strides.axis(k).wrapping_mul(step)
        };
        dim.set_axis(k, windows);
        strides.set_axis(k, distance);
    }
    Layout {
        start: layout.start,
        dim,
        strides,
    }
}

impl<S: Data, D: Lengths> ArrayBase<S, D> {
    /// The windows of these lengths, steps apart on each axis.
    pub(crate) fn pieces(&self, window: D, steps: &D) -> Pieces<'_, S::Elem, D, D>
        requires window { AreWindowsOf self.now.lengths (D.numbers window) }
        requires steps { ArePositive self.now.lengths (D.numbers steps.now) }
        ensures { result ≡ windows_of self.now (D.numbers window) (D.numbers steps.now) }
    {
        Pieces {
            storage: self.storage.seen(),
            positions: window_positions(&self.layout, &window, steps),
            dim: window,
            strides: self.layout.strides.copied(),
        }
    }
}
