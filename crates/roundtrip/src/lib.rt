// Demand 3 over the definitions of the entries: every recording comes back exactly. There is no code
// here: `trip_entry` tries it on one recording.

#![tactic(auto)]
