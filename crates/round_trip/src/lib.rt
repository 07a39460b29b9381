// Laws of record tables: which keep the rules, how long their bytes are, the round trip, reading back. Nothing here runs.
#![tactic(auto)]
