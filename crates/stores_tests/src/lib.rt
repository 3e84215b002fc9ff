// Tests of the cell stores at their edges.
#![tactic(auto)]

#[cfg(test)]
mod boards;
#[cfg(test)]
mod either;
#[cfg(test)]
mod lists;
