//! Subviews of an array: items and chunks along an axis, lanes, exact chunks and windows, and the
//! iterators over them.

pub mod axis;
pub mod axis_chunks;
pub mod axis_chunks_mut;
pub mod axis_mut;
pub mod exact_chunks;
pub mod exact_chunks_mut;
pub(crate) mod lane_tiles;
pub mod lanes;
pub mod lanes_mut;
pub(crate) mod piece_layouts;
pub(crate) mod piece_rows;
pub(crate) mod pieces;
pub(crate) mod pieces_mut;
pub(crate) mod positions;
mod scans;
pub mod windows;
