// Laws of floats that no function of `floats` needs: rounding, order, bounds, patterns, over both formats
// where they hold in both. Other crates' proofs cite them. No code.
#![tactic(auto)]
