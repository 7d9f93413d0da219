// What power loss leaves of the journal on a card: laws only, no code.
#![tactic(auto)]
