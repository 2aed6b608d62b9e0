// Laws of the writer and the reader together: what was written is read back, and what was read is
// written back. It has no code.
#![tactic(auto)]
