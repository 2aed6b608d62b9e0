// Laws of mended settings: what mending twice does, and that a lifetime is at most ten seconds. No code.
#![tactic(auto)]
