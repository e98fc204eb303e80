// The programmer at our board: nothing but the promises of Req 04 and their proofs.
#![tactic(auto)]
