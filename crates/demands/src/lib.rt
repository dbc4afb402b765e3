#![tactic(auto)]

// Definitions and theorems alone: the planner's answer to any bytes, with any table and any part lent, and the demands on it in words.
// The code that meets them stands in `planner`.
