#![tactic(auto)]

// Definitions and laws only: document 01, call by call. Nothing here runs.
