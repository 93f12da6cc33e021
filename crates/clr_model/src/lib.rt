//! The definitions of what a season's policies and paths earn, and what the recursions over its weeks share.
//!
//! Stores, weeks and rungs are counted from 1, stocks and demands from 0. Values are in units, of which a cent
//! has 10^6, and each is a whole number.
#![tactic(auto)]

mod joint_laws;
mod joint_limits;
mod laws;
mod path;
mod store_laws;
mod week;

pub use clr_rules::same_summary_same_rest;
pub use joint_laws::{
    joint_covers_top, joint_floor_reached, joint_sum_by_stores, joint_table_enclosed, joint_tops,
    joint_value_by_summary, joint_values_close,
};
pub use joint_limits::{fits, lists_of_stocks};
pub use laws::{
    chances_sum, markdowns_counted, one_store_split_off, one_week_split_off, path_enclosed,
    path_numbers_enclose, sold_in_a_week,
};
pub use path::Path;
pub use store_laws::{abiding_nodes_live, bound_tops, covers_top, prefix_bounds, value_by_summary};
pub use week::{CENT, average_week, gain, relabelling, unit_gain};
