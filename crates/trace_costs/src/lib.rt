//! What the curve of a trace costs, by the declared cost of whatever finds curves. Definitions alone: nothing here runs.
#![tactic(auto)]
