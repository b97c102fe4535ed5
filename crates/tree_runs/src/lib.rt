// Announcements and withdrawals on an image one after the other, and that the routes then standing leave one image. Definitions and proofs only.
#![tactic(auto)]
