// What the trace program answers and writes, as definitions, and the laws of the scan that hands it out: no code stands here.
#![tactic(auto)]
