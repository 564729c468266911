#![tactic(auto)]

// Definitions and laws only: the wrong engines that document 01 names, and that they do not meet the public promises. Nothing here runs.
