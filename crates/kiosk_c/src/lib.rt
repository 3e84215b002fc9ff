// The kiosk's one call for its C host. Nothing under it allocates.
#![tactic(auto)]

mod code;
pub mod handover;
