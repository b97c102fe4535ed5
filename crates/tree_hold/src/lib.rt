// What two arrays hold, said path by path, and what one node or one hop more or less does to them. Definitions and proofs only.
#![tactic(auto)]
