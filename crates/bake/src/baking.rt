// Laws of what the checker and the baker of blocks are said by: the least, sums, tests, bits, and a block read back. It has no functions.
