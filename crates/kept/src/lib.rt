// "a tick or any call on such a state leaves one; this is proved": theorems over the rules, in proofs/, and no code.
#![tactic(auto)]
