// Laws of the powers, the logarithm and the root: none falls as its argument rises, no f32 is nearer to
// a root, and their exact and special values. No code.
#![tactic(auto)]
