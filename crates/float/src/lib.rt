//! Functions on `f64` whose every bit is fixed: each is equal to the definition of its name in specs/.
#![tactic(auto)]

// Products of `u64` in full.
mod wide;

// The square root.
mod roots;

pub use roots::{each_root, hypot, root};

// The sign, and the lesser, the greater and the nearest of given values.
mod order;

pub use order::{abs, clamp, max, min, negate_unless};

// Whole parts and casts to integers.
mod whole;

pub use whole::{as_i64, as_usize, ceil_i64, floor, floor_i64};

// The total order.
mod total;

pub use total::{total_key, total_less};
