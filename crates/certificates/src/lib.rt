// Certificates and bans, and the tapes that they are read from. Nothing here allocates.
#![tactic(auto)]

pub mod ban;
mod ban_orders;
pub mod ban_reader;
pub mod bans;
pub mod certificate;
mod items;
pub mod meeting;
mod orders;
pub mod reader;
