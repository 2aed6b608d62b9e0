// Laws of a frame: its windows are in range, and so is the background's activity. No code.
#![tactic(auto)]
