//! Counts and sums by the cells that items name: a loop over arrays that adds to one cell of another array for each item, as a histogram does.

ghost use Rattle.std.specs.Prelude.{◌≡◌, ◌<◌, ◌^◌, ◌∷◌, [], IfOk};
ghost use Rattle.std.specs.List.{sum_by, zip};
ghost use Rattle.ndarray.specs.NamedSums.{named_sums};

use ndarray::{Array, ArrayBase, Data, Ix1, Ix2, Lengths};
use std::alloc::{AllocError, Global};

/// How often each byte occurs among the pixels of an image, whatever keeps these and however they lie.
///
/// The error is allocation failure.
pub fn histogram<S: Data<Elem = u8>, D: Lengths>(
    alloc: Global,
    image: &ArrayBase<S, D>,
) -> Result<Array<u64, Ix1>, AllocError>
    ensures { IfOk result (λ counts. counts ≡ named_sums (256 ∷ []) (λ pixel. pixel ∷ []) (λ _. 1) image.now.cells) }
{
    let mut counts: Array<u64, Ix1> = Array::zeros(alloc, 256)?;
    for pixel in image.iter() {
        counts[[*pixel as usize]] += 1;
    }
    Ok(counts)
}

/// How often each pair of bytes occurs at one place of two images: at a row and a column, how many places have the one in the first image
/// and the other in the second.
///
/// Requires images of the same lengths. The error is allocation failure.
pub fn joint_histogram<S: Data<Elem = u8>, T: Data<Elem = u8>, D: Lengths>(
    alloc: Global,
    first: &ArrayBase<S, D>,
    second: &ArrayBase<T, D>,
) -> Result<Array<u64, Ix2>, AllocError>
    requires { first.now.lengths ≡ second.now.lengths }
    ensures { IfOk result (λ counts. counts ≡ named_sums (256 ∷ 256 ∷ []) (λ pixels. pixels.0 ∷ pixels.1 ∷ []) (λ _. 1) (zip first.now.cells second.now.cells)) }
{
    let mut counts: Array<u64, Ix2> = Array::zeros(alloc, (256, 256))?;
    for (x, y) in first.iter().zip(second.iter()) {
        counts[[*x as usize, *y as usize]] += 1;
    }
    Ok(counts)
}

/// The sum of the values at the places of each label.
///
/// Requires labels and values of the same lengths, and that all values together add up to a `u64`. The error is allocation failure.
pub fn sums_by_label<S: Data<Elem = u8>, T: Data<Elem = u64>, D: Lengths>(
    alloc: Global,
    labels: &ArrayBase<S, D>,
    values: &ArrayBase<T, D>,
) -> Result<Array<u64, Ix1>, AllocError>
    requires same { labels.now.lengths ≡ values.now.lengths }
    requires fits { sum_by (λ item. item.1) (zip labels.now.cells values.now.cells) < 2 ^ 64 }
    ensures { IfOk result (λ sums. sums ≡ named_sums (256 ∷ []) (λ item. item.0 ∷ []) (λ item. item.1) (zip labels.now.cells values.now.cells)) }
{
    let mut sums: Array<u64, Ix1> = Array::zeros(alloc, 256)?;
    for (label, value) in labels.iter().zip(values.iter()) {
        sums[[*label as usize]] += *value;
    }
    Ok(sums)
}
