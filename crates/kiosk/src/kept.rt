// What the kiosk keeps from line to line.
ghost use Rattle.std.specs.Prelude.{◌≡◌, true, is_some};

use crate::desk::Desk;
use certificates::certificate::Certificate;
use setups::setup::Setup;

// What is chosen for the next register, the register of the scheme that was accepted last, and the certificate that was made or
// accepted on it last. The desk is taken only while an accepted scheme's register is made from its board.
#[derive(Drop)]
pub struct Session<'a> {
    pub(crate) chosen: Setup,
    pub(crate) desk: Option<Desk<'a>>,
    pub(crate) certificate: Option<Certificate>,
    ghost there: { is_some desk ≡ true },
}
