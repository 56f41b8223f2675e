// Why the decisions can be trusted: a table that is accepted keeps its time in every run, whatever is called and
// offered. There is no code here, only lemmas (proofs/), over any supply that keeps its laws and any order of jobs.
#![tactic(auto)]
