// When an image is well formed, and what its test says: definitions and laws. The code of the test is `tree_bases` and `tree_check`.
#![tactic(auto)]
