// What the call answers where it gives a sheet.

// The sheet's length, and the trials made for the radius, free of obstacles and with them.
#[derive(Clone, Copy)]
pub struct Planned {
    pub length: usize,
    pub free_trials: usize,
    pub obstacle_trials: usize,
}
