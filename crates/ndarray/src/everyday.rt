//! Calls with a closure that has no state. The contract of each is one equation: what the call computes at each cell. A caller whose own
//! contract is such an equation needs no proof.
//!
//! A closure without state is an `Fn` whose result at an argument is always the same. The contract of a call says: for any `h` such that
//! the closure returns `h` of its argument, the result is the array of `h` of each cell. A caller knows from the closure's body what it
//! returns, so for `|x| x / 2` the `h` is halving.

mod calls;
pub mod comparing;
pub mod display;
pub mod extremes;
pub mod folding;
pub mod growing;
pub mod indexing;
pub mod mapping;
pub mod pairs;
pub mod reshaping;
pub mod shapes;
pub mod updating;
