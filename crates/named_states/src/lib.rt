// Named states: laws that carry save, restore and forget from what their parts say to their outcomes. No code.
#![tactic(auto)]
