// What the user was promised, as theorems about the calls: no code stands here. proofs/Promises.antt states them.
#![tactic(auto)]
