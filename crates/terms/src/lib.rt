//! The terms that the crates of the exchange share: digits, detection points, error codes, refusals, short lists, and tables
//! read by numbers that may be out of range.
#![tactic(auto)]

pub mod digits;
pub mod error_code;
pub mod point;
pub mod refusal;
pub mod short_list;
pub mod table;
pub mod unknown_number;
