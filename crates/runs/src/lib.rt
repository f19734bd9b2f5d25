// The theory of runs and of rising positions, which both collectors cite. Laws alone: there is no code.
#![tactic(auto)]
