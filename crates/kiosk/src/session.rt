// What the kiosk answers to a line.
ghost use Rattle.std.specs.Prelude.{◌≡◌, Some, MatchResult};
ghost use Rattle.script.specs.Calls.{call_of};
ghost use Rattle.kiosk.specs.Sessions.{kiosk_of, said, fresh, listed, shown, tabled, ruling_of, Taken, BoardChosen, ListChosen, FilterChosen, Opened, Asked, Checks, Makes, WantsList, WantsBuffer, Answered, CallWants, LineAnswered, LineWants};

use crate::answer::{Answer, Refusal, Reply};
use crate::checking::show_fault;
use crate::desk::Desk;
use crate::kept::Session;
use handing_on::checked::check_certificate;
use handing_on::made::make_certificate;
use model::mask::{Mask, Right};
use model::name::Name;
use model::scales::KioskScales;
use model::stamp::Attribute;
use promise::calls;
use scheme_tape::reader::read_scheme;
use script::{Call, ReadError, read_line};
use setups::making::make_register;
use setups::setup::{Setup, StoreChoice};
use setups::size::ListSize;
use setups::store::StoreRoom;
use std::alloc::{AllocError, Global};
use stores::board::Board;

impl<'a> Session<'a> {
    // The board is taken for the registers to come, whatever it holds.
    pub fn new(board: Board<'a>) -> Session<'a>
        ensures { kiosk_of result ≡ fresh }
    {
        Session {
            chosen: Setup::plain(),
            desk: Some(Desk::Bare(board)),
            certificate: None,
        }
    }

    // An accepted scheme makes the session's register, with what is chosen, and no certificate is kept for it yet; a refused one
    // leaves the old. Memory can be wanting only for the records of a list; it is had first, so the session then stays as it was.
    fn take_scheme(&mut self, heap: Global, tape: &[u8]) -> Result<Answer, AllocError>
        ensures { MatchResult result (λ answer. Taken (kiosk_of self.old) tape.now (said (kiosk_of self.new) (Some answer)) (kiosk_of self.new)) (λ _. WantsList (kiosk_of self.old) tape.now × (self.new ≡ self.old)) }
    {
        let scheme = match read_scheme::<KioskScales>(tape) {
            Ok(scheme) => scheme,
            Err(fault) => return Ok(Err(Refusal::Fault(fault))),
        };
        let commands = scheme.commands().len();
        let room = StoreRoom::new(heap, &self.chosen.store)?;
        let board = match self.desk.take() {
            Some(desk) => desk.into_board(),
            // It is always there between two lines.
            None => unreachable!(),
        };
        let register = make_register(scheme, room, self.chosen.filters, board);
        self.desk = Some(Desk::Made(register, self.chosen));
        self.certificate = None;
        Ok(Ok(Reply::Accepted(commands)))
    }

    fn choose_board(&mut self) -> Answer
        ensures { BoardChosen (kiosk_of self.old) (said (kiosk_of self.new) (Some result)) (kiosk_of self.new) }
    {
        self.chosen.choose_store(StoreChoice::Board);
        Ok(Reply::StoreChosen(StoreChoice::Board))
    }

    fn choose_list(&mut self, records: usize) -> Answer
        ensures { ListChosen (kiosk_of self.old) records (said (kiosk_of self.new) (Some result)) (kiosk_of self.new) }
    {
        let choice = StoreChoice::List(ListSize::new(records)?);
        self.chosen.choose_store(choice);
        Ok(Reply::StoreChosen(choice))
    }

    fn choose_filter(&mut self, attribute: Attribute, mask: Mask) -> Answer
        ensures { FilterChosen (kiosk_of self.old) attribute mask (said (kiosk_of self.new) (Some result)) (kiosk_of self.new) }
    {
        self.chosen.choose_filter(attribute, mask)?;
        Ok(Reply::FilterChosen { attribute, mask })
    }

    fn list(&self) -> Answer
        ensures { said (kiosk_of self.now) (Some result) ≡ listed (kiosk_of self.now) }
    {
        match self.desk {
            Some(Desk::Made(_, _)) => Ok(Reply::Listing),
            _ => Err(Refusal::NoRegister),
        }
    }

    fn show(&self) -> Answer
        ensures { said (kiosk_of self.now) (Some result) ≡ shown (kiosk_of self.now) }
    {
        match self.desk {
            Some(Desk::Made(_, _)) => Ok(Reply::State),
            _ => Err(Refusal::NoRegister),
        }
    }

    fn rule(&self, row: Name, column: Name, right: Right) -> Answer
        ensures { said (kiosk_of self.now) (Some result) ≡ ruling_of (kiosk_of self.now) row column right }
    {
        match &self.desk {
            Some(Desk::Made(register, _)) => {
                Ok(Reply::Ruled(calls::rule(register, row, column, right)))
            }
            _ => Err(Refusal::NoRegister),
        }
    }

    fn open(&mut self, tape: &[u8]) -> Answer
        ensures { Opened (kiosk_of self.old) tape.now (said (kiosk_of self.new) (Some result)) (kiosk_of self.new) }
    {
        match &mut self.desk {
            Some(Desk::Made(register, _)) => {
                calls::open(register, tape)?;
                Ok(Reply::Opened)
            }
            _ => Err(Refusal::NoRegister),
        }
    }

    fn request(&mut self, command: u8, names: &[Name]) -> Answer
        ensures { Asked (kiosk_of self.old) command names.now (said (kiosk_of self.new) (Some result)) (kiosk_of self.new) }
    {
        match &mut self.desk {
            Some(Desk::Made(register, _)) => {
                Ok(Reply::Done(calls::request(register, command, names)?))
            }
            _ => Err(Refusal::NoRegister),
        }
    }

    // An accepted certificate is kept, to be shown.
    fn check(&mut self, certificate: &[u8], bans: &[u8]) -> Answer
        ensures { Checks (kiosk_of self.old) certificate.now bans.now (said (kiosk_of self.new) (Some result)) (kiosk_of self.new) }
    {
        let Some(Desk::Made(register, _)) = &self.desk else {
            return Err(Refusal::NoRegister);
        };
        match check_certificate(register, certificate, bans) {
            Ok(accepted) => {
                self.certificate = Some(accepted);
                Ok(Reply::Checked)
            }
            Err(fault) => Err(show_fault(register, certificate, bans, fault)),
        }
    }

    // So is one that is made. Memory can be wanting for the buffer; then the session stays as it was.
    fn make(&mut self, heap: Global, size: usize, bans: &[u8]) -> Result<Answer, AllocError>
        ensures { MatchResult result (λ answer. Makes (kiosk_of self.old) size bans.now (said (kiosk_of self.new) (Some answer)) (kiosk_of self.new)) (λ _. WantsBuffer (kiosk_of self.old).made × (self.new ≡ self.old)) }
    {
        let Some(Desk::Made(register, _)) = &self.desk else {
            return Ok(Err(Refusal::NoRegister));
        };
        let buffer = vec![in heap; 0; size]?;
        match make_certificate(register, bans, buffer) {
            Ok(made) => {
                self.certificate = Some(made.certificate);
                Ok(Ok(Reply::Handed(made.tape)))
            }
            Err(fault) => Ok(Err(Refusal::Fault(fault))),
        }
    }

    fn table(&self) -> Answer
        ensures { said (kiosk_of self.now) (Some result) ≡ tabled (kiosk_of self.now) }
    {
        match (&self.desk, &self.certificate) {
            (Some(Desk::Made(_, _)), Some(_)) => Ok(Reply::Table),
            (Some(Desk::Made(_, _)), None) => Err(Refusal::NoCertificate),
            _ => Err(Refusal::NoRegister),
        }
    }

    // Blank lines and remarks have no answer.
    fn answer(&mut self, heap: Global, call: Option<Call>) -> Result<Option<Answer>, AllocError>
        ensures { MatchResult result (λ answer. Answered (kiosk_of self.old) (Some (call_of call)) (said (kiosk_of self.new) answer) (kiosk_of self.new)) (λ _. CallWants (kiosk_of self.old) (call_of call) × (self.new ≡ self.old)) }
    {
        let Some(call) = call else {
            return Ok(None);
        };
        let answer = match call {
            Call::Scheme(tape) => self.take_scheme(heap, tape.as_slice())?,
            Call::List => self.list(),
            Call::StoreBoard => self.choose_board(),
            // A `usize` has 64 bits, so the casts keep the numbers.
            Call::StoreList(records) => self.choose_list(records as usize),
            Call::Filter { attribute, mask } => self.choose_filter(attribute, mask),
            Call::Open(tape) => self.open(tape.as_slice()),
            Call::Request { command, names } => self.request(command, names.as_slice()),
            Call::Rule { row, column, right } => self.rule(row, column, right),
            Call::State => self.show(),
            Call::Check { certificate, bans } => {
                self.check(certificate.as_slice(), bans.as_slice())
            }
            Call::Make { size, bans } => self.make(heap, size as usize, bans.as_slice())?,
            Call::Table => self.table(),
        };
        Ok(Some(answer))
    }

    // Memory can be wanting for what a line writes, for the records of a list, or for the buffer of a making. Then the session
    // stays as it was.
    pub fn answer_line(&mut self, heap: Global, line: &[u8]) -> Result<Option<Answer>, AllocError>
        ensures { MatchResult result (λ answer. LineAnswered (kiosk_of self.old) line.now (said (kiosk_of self.new) answer) (kiosk_of self.new)) (λ _. LineWants (kiosk_of self.old) line.now × (self.new ≡ self.old)) }
    {
        // An error goes two ways, so no `From` turns it over.
        match read_line(heap, line) {
            Ok(call) => self.answer(heap, call),
            Err(ReadError::Unreadable) => Ok(Some(Err(Refusal::BadLine))),
            Err(ReadError::OutOfMemory(cause)) => Err(cause),
        }
    }
}
