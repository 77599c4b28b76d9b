//! Laws of the definitions that contracts cite: of the orders of a box, of products, transposes and Kronecker products of matrices, of
//! `dot` on any number of axes, and of sums, running totals, ranges, triangles, differences, joined arrays, and convolutions.
//!
//! A law is a function without parameters that does nothing: its contract is the law. It holds for all shapes, also those with lengths 0,
//! and for any element type with the bounds of the function. To cite one, call it with the element type in the function that needs it, as
//! `mat_assoc::<A>();`. The clause is then known in the proof of that function, as `c.mat_assoc.ensures`; when the program runs, the call
//! does nothing.
//!
//! The statements are in `specs`: those about matrices of values in `MatrixLaws`, `MatrixPowers`, `MatrixSums`, `BlockLaws` and
//! `KroneckerLaws`, about lists of values in `ConvolutionLaws` and `VectorLaws`, about arrays in `Laws`, `SumLaws`, `ScanLaws`,
//! `FilterLaws`, `RangeLaws`, `OrderLaws`, `JoiningLaws` and `TriangleLaws`, and about `dot` in `DotLaws`.
//! `proofs/callers/SameMatrices.antt` has the lemmas that lead from an array that `dot` or `kron` made to its matrix and back.

ghost use Rattle.std.specs.Prelude.{◌≡◌};
ghost use Rattle.ndarray.specs.BlockLaws.{BlocksMultiply, ColumnsMultiply, RowsMultiply, RowsOfProducts};
ghost use Rattle.ndarray.specs.ConvolutionLaws.{ArrayFiltersCompose, ConvolutionsAssociate, ConvolutionsCommute, FiltersCompose, HaveFullLength, ValidIsPartOfFull};
ghost use Rattle.ndarray.specs.DotLaws.{DefinitionsOfDotAgree, DotIsMatrixProduct, DotsAssociate, LaneSumsAreMatrixSums, ShapesMultiplyAsMatrices};
ghost use Rattle.ndarray.specs.FilterLaws.{FiltersByMultiples, FiltersByOneCell, FiltersBySums, FiltersOfMultiples, FiltersOfSums, FiltersOnAxesCompose, FiltersSeparate};
ghost use Rattle.ndarray.specs.JoiningLaws.{ItemsOfStackAreParts, PartsCanBeJoined, PartsJoin, TotalsJoin};
ghost use Rattle.ndarray.specs.KroneckerLaws.{KroneckerOfIdentities, KroneckersOfAllMultiply, OneIsKroneckerNeutral};
ghost use Rattle.ndarray.specs.Laws.{AxisSumArraysAddUp, AxisSumsAddUp, AxisSumsStayInRange, CellsHaveEqualTotals, ColumnOrderRearranges, DifferencesAdd, DifferencesCanBeTaken, OrdersHaveEqualTotals, StackIsConcatenation, TriangleSumsAddUp, TrianglesPart};
ghost use Rattle.ndarray.specs.MatrixLaws.{KroneckersAssociate, KroneckersMultiply, KroneckersTranspose, ProductsAssociate, ProductsTranspose};
ghost use Rattle.ndarray.specs.MatrixPowers.{IdentityIsNeutral, PowersAdd};
ghost use Rattle.ndarray.specs.MatrixSums.{MultiplesTimesMatrix, ProductsOfMultiples, ProductsOfSums, SumsTimesMatrix};
ghost use Rattle.ndarray.specs.OrderLaws.{BestsAlongAgree, FoldsAlongAgree, FoldsOverBoxesAgree, FoldsOverCellsAgree};
ghost use Rattle.ndarray.specs.RangeLaws.{ChunksStayInRange, ItemsStayInRange, LanesStayInRange, MagnitudesBySidesStayInRange, MagnitudesOfBlocksStayInRange, MagnitudesOfRowsStayInRange, PartsStayInRange, SlicesStayInRange, SumsBySidesStayInRange, SumsOfBlocksStayInRange, SumsOfRowsStayInRange, WindowsStayInRange};
ghost use Rattle.ndarray.specs.ScanLaws.{AreasAreTotals, CumulatesLeaveRunningTotals, DifferencesGiveBack, LastItemHasTotals, RectanglesAdd, RunningTotalsStayInRange};
ghost use Rattle.ndarray.specs.SumLaws.{LaneTotalsAdd, LaneTotalsMultiply, TotalsAdd, TotalsMultiply};
ghost use Rattle.ndarray.specs.TriangleLaws.{LowerMatricesMultiply, LowerTrianglesMeet, LowerTrianglesTranspose, TrianglesCommute, UpperTrianglesMeet, UpperTrianglesTranspose};
ghost use Rattle.ndarray.specs.VectorLaws.{InnerProductsCommute, MatricesChangeSides};

use crate::elements::{IntegerScalar, LinalgScalar, Valued};
use std::ops::{Mul, Sub};

/// The column order of a box has the index lists of its row order, each once. So sums in both orders are equal: those of a value for each
/// index list, and those of the cells of an array.
///
/// ```
/// column_order::<i64>(); // from here on the proof has both orders of any box
/// ```
pub fn column_order<A: Valued>()
    ensures rearranges { ColumnOrderRearranges }
    ensures totals { OrdersHaveEqualTotals A.addition }
    ensures cells { CellsHaveEqualTotals A.addition A.meaning }
{}

/// A fold whose steps commute has the same value in row order and in column order, over the index lists of a box and over the cells of an
/// array, and over the cells along any two lists of the same index lists. Along these the least cells are the same too, and the greatest:
/// those that no other one beats.
///
/// ```
/// fold_orders::<i64, i64>(); // from here on the proof of the caller has the law for totals and cells that are `i64`
/// ```
pub fn fold_orders<A, B>()
    ensures boxes { FoldsOverBoxesAgree B }
    ensures cells { FoldsOverCellsAgree A B }
    ensures along { FoldsAlongAgree A B }
    ensures bests { BestsAlongAgree A }
{}

/// (AB)C is A(BC), if the inner lengths are equal.
///
/// ```
/// mat_assoc::<i64>(); // from here on the proof of the caller has the law for `i64`
/// ```
pub fn mat_assoc<A: LinalgScalar>()
    ensures { ProductsAssociate A.addition A.multiplication }
{}

/// Products of block matrices: A and B side by side, times C above D, is AC + BD, if A has as many columns as C has rows; A times B and C
/// side by side is AB and AC side by side; A above B, which has as many columns, times C is AC above BC; and a row of AB is that row of A
/// times B.
///
/// ```
/// mat_blocks::<i64>(); // from here on the proof of the caller has the law for `i64`
/// ```
pub fn mat_blocks<A: LinalgScalar>()
    ensures blocks { BlocksMultiply A.addition A.multiplication }
    ensures columns { ColumnsMultiply A.addition A.multiplication }
    ensures rows { RowsMultiply A.addition A.multiplication }
    ensures row { RowsOfProducts A.addition A.multiplication }
{}

/// Powers of a square matrix: the identity matrix changes nothing, and the product of power i and power j is power i + j. So
/// power 2i is the square of power i.
///
/// ```
/// mat_powers::<i64>(); // from here on the proof of the caller has the law for `i64`
/// ```
pub fn mat_powers<A: LinalgScalar>()
    ensures identity { IdentityIsNeutral A.addition A.multiplication }
    ensures adds { PowersAdd A.addition A.multiplication }
{}

/// Products are linear: A(B + C) is AB + AC; (A + B)C is AC + BC, if A and B have equally many columns; and A(sB) and (sA)B are s(AB).
///
/// ```
/// mat_distributes::<i64>(); // from here on the proof of the caller has the law for `i64`
/// ```
pub fn mat_distributes<A: LinalgScalar>()
    ensures of_sums { ProductsOfSums A.addition A.multiplication }
    ensures sums { SumsTimesMatrix A.addition A.multiplication }
    ensures of_multiples { ProductsOfMultiples A.addition A.multiplication }
    ensures multiples { MultiplesTimesMatrix A.addition A.multiplication }
{}

/// The transpose of AB is the transpose of B times the transpose of A, if the inner lengths are equal.
///
/// ```
/// mat_transpose::<i64>(); // from here on the proof of the caller has the law for `i64`
/// ```
pub fn mat_transpose<A: LinalgScalar>()
    ensures { ProductsTranspose A.addition A.multiplication }
{}

/// Laws of Kronecker products: (A kron B)(C kron D) is AC kron BD, if the inner lengths are equal; (A kron B) kron C is A kron (B kron C);
/// and the transpose of A kron B is the Kronecker product of the transposes of A and B.
///
/// ```
/// kron_mixed::<i64>(); // from here on the proof of the caller has the law for `i64`
/// ```
pub fn kron_mixed<A: LinalgScalar>()
    ensures mixed { KroneckersMultiply A.addition A.multiplication }
    ensures associates { KroneckersAssociate A.multiplication }
    ensures transposes { KroneckersTranspose A.multiplication }
{}

/// The product of two Kronecker products, of equally many matrices, is the Kronecker product of the products of the first matrices, of the
/// second ones, and so on, if the inner lengths of each two behind the first are equal.
///
/// ```
/// kron_mixed_all::<i64>(); // from here on the proof of the caller has the law for `i64`
/// ```
pub fn kron_mixed_all<A: LinalgScalar>()
    ensures { KroneckersOfAllMultiply A.addition A.multiplication }
{}

/// Kronecker products of identity matrices: that of two is an identity matrix, and a Kronecker product with the identity matrix of one row
/// is the other matrix.
///
/// ```
/// kron_identity::<i64>(); // from here on the proof of the caller has the law for `i64`
/// ```
pub fn kron_identity<A: LinalgScalar>()
    ensures identities { KroneckerOfIdentities A.addition A.multiplication }
    ensures one { OneIsKroneckerNeutral A.addition A.multiplication }
{}

/// The inner product of two vectors is that of the second and the first. And for vectors x and y, the inner product of x and Ay is that of
/// the transpose of A times x, and y; it is stated for all columns of two matrices.
///
/// ```
/// dot_commutes::<i64>(); // from here on the proof of the caller has the law for `i64`
/// ```
pub fn dot_commutes<A: LinalgScalar>()
    ensures commutes { InnerProductsCommute A.addition A.multiplication A.meaning }
    ensures sides { MatricesChangeSides A.addition A.multiplication }
{}

/// For vectors and matrices, `dot` of `IxDyn` is the matrix product: they may be multiplied if the last length of the left is the first of
/// the right and the product is not too large, the sums of the lanes are in range if those of the rows and columns are, and the array that
/// `dot` makes has the values of the product of the matrices.
///
/// The two definitions also agree without a limit of size: they have the same lengths and, at each index list, the same entry.
///
/// ```
/// dot_agrees::<i64>(); // from here on the proof of the caller has the law for `i64`
/// ```
pub fn dot_agrees<A: LinalgScalar>()
    ensures shapes { ShapesMultiplyAsMatrices }
    ensures ranges { LaneSumsAreMatrixSums A.Valued }
    ensures products { DotIsMatrixProduct A.Valued }
    ensures definitions { DefinitionsOfDotAgree A.Valued }
{}

/// For arrays a, b and c of any number of axes, (a · b) · c is a · (b · c), where `·` is `dot` of `IxDyn`, c has two axes and b two or more;
/// or c has one axis and b two. The inner lengths have to be equal.
///
/// ```
/// dot_assoc::<i64>(); // from here on the proof of the caller has the law for `i64`
/// ```
pub fn dot_assoc<A: LinalgScalar>()
    ensures { DotsAssociate A.Valued }
{}

/// The sum of all cells is the sum of the sums of the lanes along an axis, for each axis of the array. If every selection of the cells has
/// its sum in range, so has every selection of the lanes' sums. Both hold for the arrays that `sum_axis` makes.
///
/// ```
/// axis_sums::<i64>(); // from here on the proof of the caller has the law for `i64`
/// ```
pub fn axis_sums<A: Valued>()
    ensures totals { AxisSumsAddUp A.addition A.meaning }
    ensures ranges { AxisSumsStayInRange A.addition A.InRange A.meaning }
    ensures arrays { AxisSumArraysAddUp A.addition A.InRange A.meaning }
{}

/// Sums are linear. If an array has at each index list the sum of the values of two arrays of its lengths, its sum is the sum of their
/// sums, and along an axis the result of `sum_axis` for it is the sum of those for them.
///
/// ```
/// sums_add::<i64>(); // from here on the proof of the caller has the law for `i64`
/// ```
pub fn sums_add<A: Valued>()
    ensures totals { TotalsAdd A.addition A.meaning }
    ensures along { LaneTotalsAdd A.addition A.meaning }
{}

/// If an array has at each index list the value of another times a number, its sum is the sum of the other times the number, and along an
/// axis the result of `sum_axis` for it is that for the other, times the number.
///
/// ```
/// sums_multiply::<i64>(); // from here on the proof of the caller has the law for `i64`
/// ```
pub fn sums_multiply<A: LinalgScalar>()
    ensures totals { TotalsMultiply A.addition A.multiplication A.meaning }
    ensures along { LaneTotalsMultiply A.addition A.multiplication A.meaning }
{}

/// If every selection of an array's cells has its sum in range, as `sums_fit` tests, so has every selection of the cells of its parts,
/// slices and items along an axis, and of each lane, window and whole chunk. The same holds for products, which `products_fit` tests. So a
/// test of the whole array is one of each part.
///
/// ```
/// ranges_pass::<i64>(); // from here on the proof of the caller has the law for `i64`
/// ```
pub fn ranges_pass<A: Valued>()
    ensures parts { PartsStayInRange A.addition A.InRange A.meaning }
    ensures slices { SlicesStayInRange A.addition A.InRange A.meaning }
    ensures items { ItemsStayInRange A.addition A.InRange A.meaning }
    ensures lanes { LanesStayInRange A.addition A.InRange A.meaning }
    ensures windows { WindowsStayInRange A.addition A.InRange A.meaning }
    ensures chunks { ChunksStayInRange A.addition A.InRange A.meaning }
    ensures part_products { PartsStayInRange A.multiplication A.InRange A.meaning }
    ensures slice_products { SlicesStayInRange A.multiplication A.InRange A.meaning }
    ensures item_products { ItemsStayInRange A.multiplication A.InRange A.meaning }
    ensures lane_products { LanesStayInRange A.multiplication A.InRange A.meaning }
    ensures window_products { WindowsStayInRange A.multiplication A.InRange A.meaning }
    ensures chunk_products { ChunksStayInRange A.multiplication A.InRange A.meaning }
{}

/// If the inner sums of a product of matrices are in range, as `entries_fit` tests, so are those of a row of the left matrix with the right
/// one, and those with a block of either matrix: one of two matrices one above the other on the left, or side by side on the right.
///
/// ```
/// product_ranges_pass::<i64>(); // from here on the proof of the caller has the law for `i64`
/// ```
pub fn product_ranges_pass<A: IntegerScalar>()
    ensures rows { SumsOfRowsStayInRange A.Valued }
    ensures blocks { SumsOfBlocksStayInRange A.Valued }
    ensures sides { SumsBySidesStayInRange A.Valued }
    ensures row_magnitudes { MagnitudesOfRowsStayInRange A.fits }
    ensures block_magnitudes { MagnitudesOfBlocksStayInRange A.fits }
    ensures side_magnitudes { MagnitudesBySidesStayInRange A.fits }
{}

/// The last item of running totals along an axis that is not empty has the totals of the lanes, as `sum_axis` computes them, or
/// `product_axis` for running products. On two axes, running totals along one axis of running totals along the other have at each index
/// list the total of the rectangle up to there, and the total of any rectangle is given by those of four rectangles that begin at the first
/// row and column: a summed-area table. If every selection of the array's cells has its sum in range, as `sums_fit` tests, so has every
/// selection of the cells of each item of the running totals along the axis; the same holds for products. So one test of a table is enough
/// for both scans.
///
/// `proofs/callers/RunningTotals.antt` has the lemma that `scan_lanes` leaves running totals.
///
/// ```
/// running_totals::<i64>(); // from here on the proof of the caller has the law for `i64`
/// ```
pub fn running_totals<A: Valued>()
    ensures last_sums { LastItemHasTotals A.addition A.meaning }
    ensures last_products { LastItemHasTotals A.multiplication A.meaning }
    ensures areas { AreasAreTotals A.addition A.meaning }
    ensures rectangles { RectanglesAdd A.addition A.meaning }
    ensures ranges { RunningTotalsStayInRange A.addition A.meaning A.InRange }
    ensures product_ranges { RunningTotalsStayInRange A.multiplication A.meaning A.InRange }
{}

/// `cumprod` computes running products, if `*` on elements does what the multiplication of their values does.
///
/// ```
/// cumprod_totals::<i64>(); // from here on the proof of the caller has the law for `i64`
/// ```
pub fn cumprod_totals<A: Valued + Mul<A, Output = A>>()
    ensures { CumulatesLeaveRunningTotals A.multiplication A.meaning A.mul_gives }
{}

/// `diff` of running totals has the values of the array without its first item, if the addition of values can be cancelled and `-` undoes
/// it.
///
/// ```
/// diff_of_totals::<i64>(); // from here on the proof of the caller has the law for `i64`
/// ```
pub fn diff_of_totals<A: Valued + Sub<A, Output = A>>()
    ensures { DifferencesGiveBack A.addition A.meaning A.sub_gives }
{}

/// With two or more axes, `triu(k)` and `tril(k - 1)` have each cell exactly once between them: one has the cell, and the other has zero.
/// If zero has the neutral value, their sums add up to the sum of all cells.
///
/// ```
/// triangles_part::<i64>(); // from here on the proof of the caller has the law for `i64`
/// ```
pub fn triangles_part<A: Valued>()
    ensures cells { TrianglesPart A }
    ensures totals { TriangleSumsAddUp A.addition A.meaning }
{}

/// `triu(k)` of `triu(l)` is `triu` of the larger of k and l, `tril(k)` of `tril(l)` is `tril` of the smaller, and `triu` and `tril`
/// commute. With fewer than two axes all of these are the array itself.
///
/// ```
/// triangles_meet::<i64>(); // from here on the proof of the caller has the law for `i64`
/// ```
pub fn triangles_meet<A>()
    ensures upper { UpperTrianglesMeet A }
    ensures lower { LowerTrianglesMeet A }
    ensures commute { TrianglesCommute A }
{}

/// On at most two axes, the transpose of `triu(k)` is `tril(-k)` of the transpose, and the transpose of `tril(k)` is `triu(-k)` of the
/// transpose.
///
/// ```
/// triangles_transpose::<i64>(); // from here on the proof of the caller has the law for `i64`
/// ```
pub fn triangles_transpose<A>()
    ensures upper { UpperTrianglesTranspose A }
    ensures lower { LowerTrianglesTranspose A }
{}

/// The product of two matrices that have zero above the diagonal has zero there too, if the inner lengths are equal.
///
/// ```
/// lower_products::<i64>(); // from here on the proof of the caller has the law for `i64`
/// ```
pub fn lower_products<A: LinalgScalar>()
    ensures { LowerMatricesMultiply A.addition A.multiplication }
{}

/// The difference of order m + n along an axis is the difference of order n of the difference of order m. If `diff` may be called with
/// order m + n, it may be called with order m, and with order n on each result of that.
///
/// ```
/// diff_adds::<i64>(); // from here on the proof of the caller has the law for `i64`
/// ```
pub fn diff_adds<A: Copy + Sub<A, Output = A>>()
    ensures same { DifferencesAdd A.sub_gives }
    ensures defined { DifferencesCanBeTaken A.can_sub A.sub_gives }
{}

/// A stack is the concatenation of the arrays with the new axis inserted in each; if `stack` has no shape error, `concatenate` has none.
///
/// ```
/// stack_is_concat::<i64>(); // from here on the proof of the caller has the law for `i64`
/// ```
pub fn stack_is_concat<A>()
    ensures { StackIsConcatenation A }
{}

/// The total of arrays joined along an axis is the total of their totals.
///
/// ```
/// concat_adds::<i64>(); // from here on the proof of the caller has the law for `i64`
/// ```
pub fn concat_adds<A: Valued>()
    ensures { TotalsJoin A.addition A.meaning }
{}

/// The part of an array below an index of an axis and the part from there on, joined along that axis, are the array. Joining them is no
/// shape error if the nonzero lengths of the array multiply to at most `isize::MAX`. The items of a stack along its new axis are the arrays
/// that were stacked.
///
/// ```
/// parts_join::<i64>(); // from here on the proof of the caller has the law for `i64`
/// ```
pub fn parts_join<A>()
    ensures joined { PartsJoin A }
    ensures allowed { PartsCanBeJoined A }
    ensures items { ItemsOfStackAreParts A }
{}

/// The full convolution of two lists is that of the second and the first. It has one value less than both lists together, and none if one
/// of them has none.
///
/// ```
/// conv_commutes::<i64>(); // from here on the proof of the caller has the law for `i64`
/// ```
pub fn conv_commutes<A: LinalgScalar>()
    ensures length { HaveFullLength A.addition A.multiplication }
    ensures commutes { ConvolutionsCommute A.addition A.multiplication }
{}

/// Full convolution of three lists is associative, also if some are empty.
///
/// ```
/// conv_assoc::<i64>(); // from here on the proof of the caller has the law for `i64`
/// ```
pub fn conv_assoc<A: LinalgScalar>()
    ensures { ConvolutionsAssociate A.addition A.multiplication }
{}

/// On one axis, a valid convolution is the middle part of the full one; and two valid convolutions in turn are one by the full convolution
/// of their kernels, for lists and for arrays. The law requires that each kernel has a cell.
///
/// ```
/// conv_filters::<i64>(); // from here on the proof of the caller has the law for `i64`
/// ```
pub fn conv_filters<A: LinalgScalar>()
    ensures part { ValidIsPartOfFull A.addition A.multiplication }
    ensures lists { FiltersCompose A.addition A.multiplication }
    ensures arrays { ArrayFiltersCompose A.addition A.multiplication }
{}

/// A valid convolution, on any number of axes, is linear in the array and in the kernel: that of a sum is the sum of convolutions, and that
/// of a multiple is the multiple of one. By a kernel all of whose values but one are zero, it is that value times a slice of the array.
///
/// ```
/// filters_add::<i64>(); // from here on the proof of the caller has the law for `i64`
/// ```
pub fn filters_add<A: LinalgScalar>()
    ensures of_sums { FiltersOfSums A.addition A.multiplication A.meaning }
    ensures by_sums { FiltersBySums A.addition A.multiplication A.meaning }
    ensures of_multiples { FiltersOfMultiples A.addition A.multiplication A.meaning }
    ensures by_multiples { FiltersByMultiples A.addition A.multiplication A.meaning }
    ensures by_one_cell { FiltersByOneCell A.addition A.multiplication A.meaning }
{}

/// Two valid convolutions of an array in turn, on any number of axes, are one by the full convolution of their kernels, if these have
/// cells. So the convolution by a kernel that is a column times a row is that by the column and then by the row.
///
/// ```
/// filters_compose::<i64>(); // from here on the proof of the caller has the law for `i64`
/// ```
pub fn filters_compose<A: LinalgScalar>()
    ensures compose { FiltersOnAxesCompose A.addition A.multiplication }
    ensures separate { FiltersSeparate A.addition A.multiplication }
{}
