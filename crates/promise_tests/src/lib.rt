// Tests of a register's life: its five calls, one after the other.
#![tactic(auto)]

#[cfg(test)]
mod kiosk;
#[cfg(test)]
mod lives;
