// The paper's marked examples as one table over the definitions: see `specs/Marked.antt`. There is no code here.
#![tactic(auto)]
