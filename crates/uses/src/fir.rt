//! A FIR filter in fixed point.
//!
//! A filter of finite impulse response takes at each place of a signal a weighted sum of the samples there. Its weights, the taps,
//! are fractions; in fixed point they are whole numbers over a power of 2. So the filter is a convolution of whole numbers, and
//! then a shift to the right by as many bits, which divides by that power and rounds down.
//!
//! The sums are `conv_valid`, which has a sample for each place at which all taps lie within the signal: of n samples and m taps
//! n + 1 - m. Its range test, `valid_fits`, comes first; behind it neither a product nor a sum can overflow. The shift is an
//! operator on the whole array, `sums >> shift`. The contract has the length and each sample by the formula, and exactly when there
//! is no result.
//!
//! ```
//! let signal = ArrayView1::from([10, 20, 30, 50].as_slice());
//! let mean = ArrayView1::from([1, 1].as_slice());
//! filter(alloc, &signal, &mean, 1)?; // [15, 25, 40]
//! ```

ghost use Rattle.std.specs.Prelude.{◌↔◌, ◌<◌, ◌≤◌, length, IfOk, IfSome, IsOk, IsSome, FitsSigned};
ghost use Rattle.std.specs.Int.{w64};
ghost use Rattle.ndarray.specs.Convolution.{HasValidMagnitudesInRange};
ghost use Rattle.uses.specs.Fir.{IsFilteredSignal};

use ndarray::conv::{conv_valid, valid_fits};
use ndarray::{Array, ArrayBase, Data, Ix1};
use std::alloc::{AllocError, Global};

/// A signal filtered by taps, which are whole numbers over 2 to the power of `shift`: at each place the sum of the products of the
/// samples there with the taps, taken from the other end, divided by that power and rounded down. `None` where there are no taps,
/// the shift is above 63 or a sum may be no `i64`; there, and where the signal is shorter than the taps, there is no error.
pub fn filter<S: Data<Elem = i64>, T: Data<Elem = i64>>(
    alloc: Global,
    signal: &ArrayBase<S, Ix1>,
    taps: &ArrayBase<T, Ix1>,
    shift: u32,
) -> Result<Option<Array<i64, Ix1>>, AllocError>
    ensures when { IfOk result (λ made. IsSome made ↔ ((1 ≤ length taps.now.cells) × (shift < 64) × HasValidMagnitudesInRange (λ x. x) (FitsSigned w64) signal.now taps.now)) }
    ensures samples { IfOk result (λ made. IfSome made (IsFilteredSignal signal.now taps.now shift)) }
    ensures unfit { ((1 ≤ length taps.now.cells) × (shift < 64) × HasValidMagnitudesInRange (λ x. x) (FitsSigned w64) signal.now taps.now → ⊥) → IsOk result }
    ensures small { length signal.now.cells < length taps.now.cells → IsOk result }
{
    let _whole = (signal.raw_dim(), taps.raw_dim());
    if taps.len() == 0 || shift >= i64::BITS || !valid_fits(signal, taps) {
        return Ok(None);
    }
    let sums = conv_valid(alloc, signal, taps)?;
    let scaled = (sums >> shift)?;
    Ok(Some(scaled))
}
