// What an operation answers, as document 01 says it: the definition is in specs/.

#![tactic(auto)]
