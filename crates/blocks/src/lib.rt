// A disc as blocks, and writes of blocks. So far the definitions.
#![tactic(auto)]
