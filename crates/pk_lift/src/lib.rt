// A further rule on a table's slots: definitions and a lemma.
#![tactic(auto)]
