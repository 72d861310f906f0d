// Theorems over the definitions of the crate `format`: document 01's marked cases, when a posting is accepted, and demand 3. The
// crate holds no code.
#![tactic(auto)]
