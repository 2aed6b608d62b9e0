// Laws of the mask: the range walk is a full scan, a filled table passes refusal 6, a record that was
// written is read back, and one that was read is written back. No code.
#![tactic(auto)]
