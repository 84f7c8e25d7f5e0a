// The flat table of a chart, and what is proved of it. specs/Lib.antt is the door to the definitions.
#![tactic(auto)]
