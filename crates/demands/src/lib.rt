// The demands on the sheet's operations, as theorems about what they answer; docs/PROMISES.md names each. No code of its own.
#![tactic(auto)]
