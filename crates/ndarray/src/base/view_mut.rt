//! Views to write in.

ghost use Rattle.std.specs.Prelude.{◌≡◌, ◌≤◌, ◌+◌, take, drop, [], ◌∷◌, length, map, Some, slice_get, IsOk, IfOk, IfErr, ⊤};
ghost use Rattle.std.specs.Borrow.{sem};
ghost use Rattle.ndarray.specs.Grid.{IsGrid, one_axis};
ghost use Rattle.ndarray.specs.Orders.{cells_in};
ghost use Rattle.ndarray.specs.Views.{transpose_of};
ghost use Rattle.ndarray.specs.Writes.{keeps_lengths};
ghost use Rattle.ndarray.specs.base.Places.{grid_at, places_at, Reaches};
ghost use Rattle.ndarray.specs.base.Parts.{follows_places, keeps_owned};
ghost use Rattle.ndarray.specs.base.RegionParts.{array_in, borrow_name_of, HasElements};

use crate::base::array::{Array, ArrayBase, ArrayViewMut};
use crate::base::dimension::Lengths;
use crate::base::layout::Layout;
use crate::base::region::{Life, RegionRepr};
use crate::base::storage::DataMut;

/// A view to write in before it is one: the elements, and how the cells lie among them.
#[derive(Drop)]
pub(crate) struct Parts<'a, A, D: Lengths> {
    pub(super) slice: &'a mut [A],
    pub(super) layout: Layout<D>,
}

/// A view to write in before it is one: the right to read and write the elements, and how the cells lie among them.
#[derive(Drop)]
pub struct RegionParts<'a, A, D: Lengths> {
    pub(crate) region: RegionRepr<Life<'a>, A>,
    pub(crate) layout: Layout<D>,
}

impl<A: Drop, D: Lengths> Array<A, D> {
    /// The right to read and write the elements, and how the cells lie among them.
    ///
    /// Once it has ended, the array has the lengths that it had, and as many cells.
    pub(crate) fn owned_region_parts(&mut self) -> RegionParts<'_, A, D>
        ensures* writes_back { sem 𝓛 (keeps_owned A.row D.row D.Lengths self.entry (borrow_name_of result)) }
        ensures reaches { HasElements D.numbers result }
        ensures same { array_in D.numbers result ≡ self.old }
    {
        self.parts_mut().into_region_parts()
    }

    /// The elements of the array, and how its cells lie among them.
    ///
    /// Once the borrow of the elements has ended, the array has at each place what was written
    /// there.
    pub(crate) fn parts_mut(&mut self) -> Parts<'_, A, D>
        ensures* writes_back { sem 𝓛 (follows_places A.row D.row D.Lengths self.entry result.slice.ghost_name (places_at (D.numbers result.layout.dim) result.layout.start (D.numbers result.layout.strides))) }
        ensures reaches { Reaches ⊤ (slice_get result.slice.now) (D.numbers result.layout.dim) result.layout.start (D.numbers result.layout.strides) }
        ensures same { grid_at (slice_get result.slice.now) (D.numbers result.layout.dim) result.layout.start (D.numbers result.layout.strides) ≡ self.old }
    {
        let layout = self.layout.copied();
        Parts {
            layout,
            slice: self.storage.items.as_mut_slice(),
        }
    }
}

impl<'a, A, D: Lengths> Parts<'a, A, D> {
    /// The right to read and write these elements, with how the cells lie.
    pub(crate) fn into_region_parts(self) -> RegionParts<'a, A, D>
        ensures layout { result.layout ≡ self.entry.layout }
        ensures slots { result.region.slots ≡ map Some self.entry.slice.now }
    {
        let Parts { slice, layout } = self;
        RegionParts {
            region: RegionRepr::of(slice),
            layout,
        }
    }

    /// The view of these cells.
    pub(crate) fn into_view(self) -> ArrayViewMut<'a, A, D>
        requires { Reaches ⊤ (slice_get self.slice.now) (D.numbers self.layout.dim) self.layout.start (D.numbers self.layout.strides) }
        ensures same { result ≡ grid_at (slice_get self.entry.slice.now) (D.numbers self.entry.layout.dim) self.entry.layout.start (D.numbers self.entry.layout.strides) }
        ensures whole { IsGrid result }
    {
        let Parts { slice, layout } = self;
        ArrayBase {
            storage: RegionRepr::of(slice),
            layout,
        }
    }
}

impl<S: DataMut, D: Lengths> ArrayBase<S, D> {
    /// The right to read and write the elements, and how the cells lie among them.
    ///
    /// Once it has ended, the array has the lengths that it had, and as many cells.
    pub(crate) fn region_parts(&mut self) -> RegionParts<'_, S::Elem, D>
        ensures* writes_back { sem 𝓛 (keeps_lengths S.row D.row S.Elem.row S.Data D.Lengths self.entry (borrow_name_of result)) }
        ensures reaches { HasElements D.numbers result }
        ensures same { array_in D.numbers result ≡ self.old }
    {
        S::region_parts(self)
    }

    /// A view to write in, with the lengths and cells of the array.
    ///
    /// When the view has ended, the array holds what was written through it.
    ///
    /// ```
    /// let mut zeros = Array::<i32, _>::zeros(alloc, (2, 3))?;
    /// let mut view = zeros.view_mut();
    /// view.swap_axes(0, 1);
    /// if let Some(cell) = view.get_mut((2, 0)) {
    ///     *cell = 7; // at (0, 2) of the array
    /// }
    /// ```
    pub fn view_mut(&mut self) -> ArrayViewMut<'_, S::Elem, D>
        ensures same { result ≡ self.old }
        ensures axes { D.has_axes (length self.old.lengths) }
        ensures whole { IsGrid result }
    {
        let _axes = self.ndim();
        S::view_mut_of(self)
    }
}

impl<'a, A, D: Lengths> ArrayViewMut<'a, A, D> {
    /// The cells as a slice, for as long as the view's elements are borrowed, if they lie side by side in row order; else the view as it
    /// is, as the error. A view of at most one cell always gives a slice.
    ///
    /// ```
    /// if let Ok(cells) = array.view_mut().try_into_slice() {
    ///     cells.reverse();
    /// }
    /// ```
    pub fn try_into_slice(self) -> Result<&'a mut [A], Self>
        ensures cells { IfOk result (λ s. s.now ≡ self.entry.cells) }
        ensures one { length self.entry.cells ≡ 1 → IsOk result }
        ensures empty { length self.entry.cells ≡ 0 → IsOk result }
        ensures back { IfErr result (λ v. v ≡ self.entry) }
        ensures whole { IsGrid self.entry }
    {
        let ArrayBase { storage, layout } = self;
        let len = layout.dim.size();
        if len == 0 {
            return Ok(storage.into_slice(0, 0));
        }
        if !layout.is_row_major() {
            return Err(ArrayBase { storage, layout });
        }
        Ok(storage.into_slice(layout.start, len))
    }
}
