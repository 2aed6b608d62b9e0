// Laws of a window's taper: finite, and from 0 to 1. No code.
#![tactic(auto)]
