// The register of the kiosk.
ghost use Rattle.std.specs.Prelude.{◌≡◌, []};
ghost use Rattle.register.specs.States.{empty_state};
ghost use Rattle.register.specs.Views.{kept_by, state_of};
ghost use Rattle.scheme.specs.Views.{commands_of};
ghost use Rattle.promise.specs.Lives.{Life};
ghost use Rattle.setups.specs.Making.{kiosk_kept};

use crate::store::{KioskStore, StoreRoom};
use model::labels::Labels;
use model::ladder::Ladder;
use model::scales::KioskScales;
use promise::calls::begin;
use register::register::Register;
use rulings::pile::{FilterMasks, FourFilters, four_filters};
use scheme_tape::lawful::LawfulScheme;
use stores::board::Board;

pub type KioskPile = FourFilters<Ladder, Labels, Labels, Ladder>;

pub type KioskRegister<'a> = Register<KioskScales, KioskStore<'a>, KioskPile>;

// The register for an accepted scheme, with this room, these filters and this board, at the beginning of its life.
pub fn make_register<'a>(
    scheme: LawfulScheme<KioskScales>,
    room: StoreRoom,
    filters: FilterMasks,
    board: Board<'a>,
) -> KioskRegister<'a>
    ensures kept { kept_by result ≡ kiosk_kept (commands_of scheme.scheme) (record { store = room.choice; filters = filters }) }
    ensures state { state_of result ≡ empty_state }
    ensures begun { Life (kept_by result) [] (state_of result) }
{
    begin(scheme, KioskStore::new(room, board), four_filters(filters))
}
