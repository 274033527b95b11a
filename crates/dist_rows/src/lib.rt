//! What the kept distances of a role graph stand on: squares of distances by lanes, and a counter of steps.
#![tactic(auto)]

mod columns;
mod copies;
mod lanes;
mod limits;
mod relaxation;
mod room;
mod rows;
mod squares;
mod steps;

pub use squares::DistRows;
pub use steps::Steps;
