// What conditions 4 to 8 leave to the function of a kind: specs/First.antt has the fact that it is handed and what it decides. No code.
#![tactic(auto)]
