// Tests of the names of a request, and of what it changes in a store.
#![tactic(auto)]

#[cfg(test)]
mod making;
#[cfg(test)]
mod names;
