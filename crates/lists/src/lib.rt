// Laws on lists that know nothing of maps or transactions. All of it stands in specs/: this crate has no function.
#![tactic(auto)]
