// Taking in the orders of a ban tape.
ghost use Rattle.std.specs.Prelude.{◌≡◌, ◌&&◌, nat_lt};
ghost use Rattle.model.specs.Answers.{refused_by, unless, answer};
ghost use Rattle.model.specs.Counts.{is_null_or_value};
ghost use Rattle.tapes.specs.declared.tape.Tape.TheVariants.{Bans as BanTape};
ghost use Rattle.tapes.specs.Taking.{taken};
ghost use Rattle.certificates.specs.BanTapes.{ban_broken_after};
ghost use Rattle.certificates.specs.SaidBans.{ban_read, said_ban, bans_broken_by, with_ban, with_ban_listed};
ghost use Rattle.certificates.specs.Views.{bans_of};

use crate::ban::{Ban, Sort};
use crate::bans::{BANS, Bans};
use model::counts::Counts;
use model::fault::{Fault, Layer, Reason};
use model::mask::RIGHTS;
use tapes::order::Order;
use tapes::reader::Placed;
use tapes::value::value_read;

// The ban with these operands.
fn ban_read(operands: &[u8; 5]) -> Ban
    ensures { result ≡ ban_read operands.now }
{
    let &[right, k, v, n, w] = operands;
    let row = Sort {
        attribute: k,
        value: value_read(v),
    };
    let column = Sort {
        attribute: n,
        value: value_read(w),
    };
    Ban { right, row, column }
}

// Whether the right exists, and each value may stand as its attribute.
fn is_in_range(counts: &Counts, ban: &Ban) -> bool
    ensures { result ≡ (nat_lt ban.now.right 16 && (is_null_or_value counts.now ban.now.row.attribute ban.now.row.value && is_null_or_value counts.now ban.now.column.attribute ban.now.column.value)) }
{
    ban.right < RIGHTS
        && counts.is_null_or_value(ban.row.attribute, ban.row.value)
        && counts.is_null_or_value(ban.column.attribute, ban.column.value)
}

// One ban more, where there is room for it.
fn add_ban(counts: &Counts, operands: &[u8; 5], bans: &mut Bans) -> Result<(), Reason>
    ensures answer { refused_by result ≡ ban_broken_after counts.now (bans_of bans.old) (ban_read operands.now) }
    ensures after { bans_of bans.new ≡ unless (refused_by result) (bans_of bans.old) (with_ban (bans_of bans.old) (ban_read operands.now)) }
{
    if bans.bans().len() >= BANS {
        return Err(Reason::TooMany);
    }
    let ban = ban_read(operands);
    if !is_in_range(counts, &ban) {
        return Err(Reason::OutOfRange);
    }
    bans.add(ban)
}

// Take in one order, or refuse it by the lowest rule that it breaks and leave all as it was.
fn obey(counts: &Counts, order: Order, bans: &mut Bans) -> Result<(), Reason>
    ensures answer { refused_by result ≡ bans_broken_by counts.now (bans_of bans.old) (said_ban order.entry) }
    ensures after { bans_of bans.new ≡ unless (refused_by result) (bans_of bans.old) (with_ban_listed (bans_of bans.old) (said_ban order.entry)) }
{
    match order {
        Order::Ban(operands) => add_ban(counts, operands, bans),
        // An order of another tape is not handed on; it would be out of place.
        _ => Err(Reason::OutOfPlace),
    }
}

// The same, where a refusal has the order's offset as its place.
pub(crate) fn take_in(counts: &Counts, placed: Placed, bans: &mut Bans) -> Result<(), Fault>
    ensures answer { answer (λ _. tt) result ≡ taken BanTape placed.entry.offset (bans_broken_by counts.now (bans_of bans.old) (said_ban placed.entry.order)) }
    ensures after { bans_of bans.new ≡ unless (bans_broken_by counts.now (bans_of bans.old) (said_ban placed.entry.order)) (bans_of bans.old) (with_ban_listed (bans_of bans.old) (said_ban placed.entry.order)) }
{
    obey(counts, placed.order, bans).map_err(|reason| Fault {
        layer: Layer::Bans,
        reason,
        place: placed.offset,
    })
}
