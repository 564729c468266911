#![tactic(auto)]

// Laws only: the pass over a text's lines, as code makes it, hears what the definitions hear. Nothing here runs.
