//! Examples of the GVariant specification.

/// The examples of which the GVariant specification gives all bytes, in the form of `VECTORS`: a
/// line `yes TYPE HEX` for each.
pub const EXAMPLES: &str = "\
yes s 68656c6c6f20776f726c6400\n\
yes ms 68656c6c6f20776f726c640000\n\
yes ab 0100000101\n\
yes (si) 666f6f00ffffffff04\n\
yes a(si) 68690000feffffff0300000062796500ffffffff040915\n\
yes as 690063616e0068617300737472696e67733f0002060a13\n\
yes ((ys)as) 6963616e0068617300737472696e67733f00040d05\n\
yes (yy) 7080\n\
yes (iy) 6000000070000000\n\
yes (yi) 7000000060000000\n\
yes a(iy) 600000007000000088020000f7000000\n\
yes ay 04050607\n\
yes ai 0400000002010000\n\
yes {si} 61206b65790000000202000006\n\
";
