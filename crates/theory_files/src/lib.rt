#![tactic(auto)]

// The bytes of a circuit file, as definitions and laws. Nothing here runs.
