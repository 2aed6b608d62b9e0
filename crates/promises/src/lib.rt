// What is promised of every run of calls, of every script and of mask files, and the scope's marked
// examples. No code: theorems alone.
#![tactic(auto)]
