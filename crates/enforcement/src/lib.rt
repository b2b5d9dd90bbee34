// Models of any kind, and what a monitor enforces on them: definitions and theorems. There is no code.
#![tactic(auto)]
