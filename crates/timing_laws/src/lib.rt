// Laws of the streams and of the Cloud's reference: they are finite, how an index moves, and how far it can
// be. No code.
#![tactic(auto)]
