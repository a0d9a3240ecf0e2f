// What walks by hand share, over any types: proofs/. No code, and no definition that a contract names.
#![tactic(auto)]
