#![tactic(auto)]

// Definitions and laws only: numbers modulo any m as a second family beside bits. Nothing here runs.
