// Laws about the contracts of the other crates; no code.

#![tactic(auto)]
