// The descriptors that the test programs write to.

// Standard output.
pub const STDOUT: i32 = 1;
