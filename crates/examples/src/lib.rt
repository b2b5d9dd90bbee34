// The paper's examples, as theorems over the definitions of the layers. There is no code.
#![tactic(auto)]
