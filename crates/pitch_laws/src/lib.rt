// Laws of the pitches: where registers, octaves, frequencies and picked harmonics lie; and the Rust's text
// with its guards, whose answers they are. No code.
#![tactic(auto)]
