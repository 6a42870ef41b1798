// Laws alone: the theorems on the whole product, over the operations' definitions.
#![tactic(auto)]
