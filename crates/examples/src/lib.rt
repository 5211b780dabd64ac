// The examples of docs/RULES.md, chapter 23, that are marked *, proved from the definitions: specs/Examples.antt.
#![tactic(auto)]
