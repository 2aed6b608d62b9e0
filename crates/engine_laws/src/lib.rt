// Theorems about runs of calls: what every call keeps true, and the calls as acts. No code.
#![tactic(auto)]
