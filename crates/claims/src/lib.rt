// Nothing is done here: this crate holds what is claimed of the whole library and computed from its definitions.
#![tactic(auto)]
