//! Elements that are moved out of their storage by place.
pub mod cell_places;
pub mod indexed_rows;
pub mod move_out;
pub mod partly_moved;
pub mod place_rows;
pub mod region_places;
pub mod slots;
pub mod strided_cells;
