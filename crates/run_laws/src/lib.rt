#![tactic(auto)]

// Definitions and laws only: what the functions of run_steps and run_passes compute are the steps of document 01. Nothing here runs.
