//! Updating the cells of an array by a closure that may return an error.

ghost use Rattle.ndarray.specs.Broadcast.{BroadcastsTo};
ghost use Rattle.ndarray.specs.Calls.{can_call_by_ref2, call_gives_by_ref2};
ghost use Rattle.ndarray.specs.Grid.{IsGrid};
ghost use Rattle.ndarray.specs.Orders.{box_in};
ghost use Rattle.ndarray.specs.Runs.{MayGather};
ghost use Rattle.ndarray.specs.Updates.{is_pair_of_cells, answers, UpdatesUntil};
ghost use Rattle.ndarray.specs.declared.base.shape.Order.{Order};

use crate::base::array::{ArrayBase, ArrayView};
use crate::base::dimension::Lengths;
use crate::base::storage::{Data, DataMut};
use crate::zip::IntoBroadcast;
use crate::zip::repeated::try_update_beside;
use crate::zip::updating::ByRef2;
use std::alloc::AllocError;

impl<A: Drop, S: DataMut<Elem = A>, D: Lengths> ArrayBase<S, D> {
    /// Replaces each cell by what `f` returns for it and the cell of `rhs` at the same index list, with `rhs` broadcast to the shape of
    /// this array.
    ///
    /// The calls go through the index lists one after another, in row-major or in column-major order. The first call that returns an `Err`
    /// is the last one, and its error is returned; the cells of the calls before then have what those returned, and all others are as they
    /// were. The only error is one that `f` returned, as nothing is allocated here.
    ///
    /// Requires that `rhs` broadcasts to the shape (check with `rhs.broadcast(self.raw_dim())`), and that these calls may be made, in row
    /// order and in column order.
    ///
    /// ```
    /// // appends the endings to each row of names
    /// names.try_zip_assign(&endings, |name, ending| joined(alloc, name, ending))?;
    /// ```
    pub fn try_zip_assign<
        B,
        S2: Data<Elem = B>,
        E: Lengths,
        F: FnMut(&A, &B) -> Result<A, AllocError>,
    >(&mut self, rhs: &ArrayBase<S2, E>, f: F) -> Result<(), AllocError>
        requires broadcasts { BroadcastsTo rhs.now.lengths self.old.lengths }
        requires callable { (o : Order) → MayGather (is_pair_of_cells self.old rhs.now) (answers (call_gives_by_ref2 F.FnMut)) (can_call_by_ref2 F.FnMut) (box_in o self.old.lengths) f }
        ensures ran { (o : Order) × UpdatesUntil (is_pair_of_cells self.old rhs.now) (call_gives_by_ref2 F.FnMut) o f self.old result self.new }
        ensures whole { IsGrid self.new }
    {
        let rhs: ArrayView<'_, B, D> = rhs.view().into_broadcast(self.raw_dim());
        try_update_beside(self, rhs, ByRef2(f))
    }
}
