#![tactic(auto)]

// Definitions and theorems alone: what a sheet's figures are, how a frame runs, which list of levels is its plan. The code
// that meets them stands in the crates above this one.
