#![tactic(auto)]

// Definitions and laws only: the sharing over any group with a product. Nothing here runs.
