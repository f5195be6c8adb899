// Laws of 32-bit floats in a range, and of the answers that hold such floats: what the crates of degrees lean on. It has no functions.
