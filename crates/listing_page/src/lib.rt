// The page: the listing as a rendering of a summary of acts, and that it tells summaries apart. It has no code.
#![tactic(auto)]
