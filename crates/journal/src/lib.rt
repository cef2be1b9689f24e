// Records, checkpoints and what a start reads of them. So far the definitions, of which nothing is proved yet.
#![tactic(auto)]
