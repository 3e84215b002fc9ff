// The calls of a register's life: each leads every life of the register on, and then both promises hold of it.
ghost use Rattle.std.specs.Prelude.{◌≡◌, [], OnErr};
ghost use Rattle.model.specs.Answers.{answer};
ghost use Rattle.scheme.specs.Views.{commands_of};
ghost use Rattle.opening.specs.Opened.{OpenedExactly};
ghost use Rattle.register.specs.Openings.{Opens};
ghost use Rattle.register.specs.Reads.{ruled};
ghost use Rattle.register.specs.Requests.{Requested};
ghost use Rattle.register.specs.States.{empty_state};
ghost use Rattle.register.specs.Views.{kept_by, state_of};
ghost use Rattle.checker.specs.Checks.{Checked, AcceptedExactly, OneCheck};
ghost use Rattle.maker.specs.Making.{Made, OneMaking};
ghost use Rattle.promise.specs.Lives.{opening, request, ruling, check, making, Life};
ghost use Rattle.promise.specs.Promises.{LastingPromise, LivesOn};
ghost use Rattle.promise.specs.Worked.{WorkedRows};

use model::fault::Fault;
use model::mask::Right;
use model::name::Name;
use model::scales::Scales;
use register::register::Register;
use rulings::ruling::Ruling;
use scheme_tape::lawful::LawfulScheme;
use stores::store::CellStore;

// Makes a register in which nothing stands, and its life begins. It keeps the scheme, the ruling and the store's limit for good.
#[tactic(auto, using(crate::proofs::Lasting::life_begins))]
pub fn begin<S: Scales, C: CellStore, R: Ruling>(
    scheme: LawfulScheme<S>,
    store: C,
    ruling: R,
) -> Register<S, C, R>
    ensures state { state_of result ≡ empty_state }
    ensures kept { kept_by result ≡ record { counts = S.Scales.counts; covers = S.Scales.covering; commands = commands_of scheme.scheme; limit = C.CellStore.most store; says = R.Ruling.says ruling } }
    ensures begun { Life (kept_by result) [] (state_of result) }
{
    Register::new(scheme, store, ruling)
}

// Opens the register anew by a tape. What was accepted before is promised no longer, also after a refusal.
pub fn open<S: Scales, C: CellStore, R: Ruling>(
    register: &mut Register<S, C, R>,
    tape: &[u8],
) -> Result<(), Fault>
    ensures opens { Opens (kept_by register.old) tape.now (answer (λ done. done) result) (state_of register.new) }
    ensures exact { OpenedExactly (kept_by register.old).counts (kept_by register.old).limit tape.now (answer (λ done. done) result) (state_of register.new).protection }
    ensures kept { kept_by register.new ≡ kept_by register.old }
    ensures life { LivesOn (kept_by register.old) (state_of register.old) (opening tape.now (answer (λ done. done) result)) (state_of register.new) }
{
    register.open(tape)
}

// Carries out a command for these names, whole or not at all, and is answered by the count of accepted requests.
pub fn request<S: Scales, C: CellStore, R: Ruling>(
    register: &mut Register<S, C, R>,
    number: u8,
    names: &[Name],
) -> Result<u32, Fault>
    ensures request { Requested (kept_by register.old) (state_of register.old) number names.now (answer (λ count. count) result) (state_of register.new) }
    ensures memory { OnErr result (register.new.store ≡ register.old.store) }
    ensures kept { kept_by register.new ≡ kept_by register.old }
    ensures life { LivesOn (kept_by register.old) (state_of register.old) (request number names.now (answer (λ count. count) result)) (state_of register.new) }
{
    register.request(number, names)
}

// Whether the ruling allows the right to the entry `row` on the entry `column`.
pub fn rule<S: Scales, C: CellStore, R: Ruling>(
    register: &Register<S, C, R>,
    row: Name,
    column: Name,
    right: Right,
) -> bool
    ensures value { result ≡ ruled (kept_by register.now).says (state_of register.now).protection row column right }
    ensures life { LivesOn (kept_by register.now) (state_of register.now) (ruling row column right result) (state_of register.now) }
{
    register.allows(row, column, right)
}

// Whether the certificate contains the register, is closed under every command and meets none of the bans. From then on it guards
// the register against these bans, until the register is opened anew.
pub fn check<S: Scales, C: CellStore, R: Ruling>(
    register: &Register<S, C, R>,
    certificate: &[u8],
    bans: &[u8],
) -> Result<(), Fault>
    ensures check { Checked (kept_by register.now) (state_of register.now) certificate.now bans.now (answer (λ done. done) result) }
    ensures exact { AcceptedExactly (kept_by register.now) (state_of register.now) certificate.now bans.now (answer (λ done. done) result) }
    ensures one { OneCheck (kept_by register.now) }
    ensures life { LivesOn (kept_by register.now) (state_of register.now) (check certificate.now bans.now (answer (λ done. done) result)) (state_of register.now) }
{
    checker::check::check(register, certificate, bans)
}

// Makes the least certificate that a check with these bans would accept, and writes it to the front of the buffer: the answer is
// the length of its tape. It is refused for a fault of the ban tape, for a buffer under 5,312 bytes, and where no certificate
// would be accepted; then the buffer is as it was. What is promised of a register after every life stands here.
pub fn make<S: Scales, C: CellStore, R: Ruling>(
    register: &Register<S, C, R>,
    bans: &[u8],
    buffer: &mut [u8],
) -> Result<usize, Fault>
    ensures make { Made (kept_by register.now) (state_of register.now) bans.now buffer.old (answer (λ n. n) result) buffer.new }
    ensures one { OneMaking (kept_by register.now) }
    ensures life { LivesOn (kept_by register.now) (state_of register.now) (making bans.now buffer.old (answer (λ n. n) result) buffer.new) (state_of register.now) }
    ensures lasting { LastingPromise (kept_by register.now) }
    ensures worked { WorkedRows }
{
    maker::make::make(register, bans, buffer)
}
