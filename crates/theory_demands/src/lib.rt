#![tactic(auto)]

// Statements only: the three demands and the marked examples, about the whole calls of theory_calls. Nothing here runs.
