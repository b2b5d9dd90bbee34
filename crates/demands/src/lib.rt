// The three demands on the product, as theorems over the terms of the layers' contracts. There is no code.
#![tactic(auto)]
