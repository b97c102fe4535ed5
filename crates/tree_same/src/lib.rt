// The routes that an image holds, and that one set of routes has one image. Definitions and proofs only.
#![tactic(auto)]
