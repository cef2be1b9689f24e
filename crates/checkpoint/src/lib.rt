// A market as the words of a checkpoint's body. So far the definitions, and lemmas about words.
#![tactic(auto)]
