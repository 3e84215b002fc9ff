// A making that hands on the certificate that it makes.
ghost use Rattle.std.specs.Prelude.{MatchResult, vec_items};
ghost use Rattle.model.specs.Answers.{refusal};
ghost use Rattle.certificates.specs.Views.{certificate_of};
ghost use Rattle.register.specs.Views.{kept_by, state_of};
ghost use Rattle.maker.specs.Making.{Made};
ghost use Rattle.handing_on.specs.Handing.{HandedOn};

use certificates::certificate::Certificate;
use certificates::reader::read_certificate;
use model::fault::Fault;
use model::scales::Scales;
use promise::calls;
use register::register::Register;
use rulings::ruling::Ruling;
use stores::store::CellStore;

// A tape that was made, and what it lists.
#[derive(Drop)]
pub struct MadeCertificate {
    pub tape: Vec<u8>,
    pub certificate: Certificate,
}

// Makes a certificate in this buffer, and cuts the buffer down to its tape.
pub fn make_certificate<S: Scales, C: CellStore, R: Ruling>(
    register: &Register<S, C, R>,
    bans: &[u8],
    mut buffer: Vec<u8>,
) -> Result<MadeCertificate, Fault>
    ensures { MatchResult result (λ m. HandedOn (kept_by register.now) (state_of register.now) bans.now (vec_items buffer) (vec_items m.tape) (certificate_of m.certificate)) (λ fault. Made (kept_by register.now) (state_of register.now) bans.now (vec_items buffer) (refusal fault) (vec_items buffer)) }
{
    let length = calls::make(register, bans, buffer.as_mut_slice())?;
    buffer.truncate(length);
    // A tape that was made is lawful.
    let certificate = read_certificate(&S::counts(), buffer.as_slice())?;
    Ok(MadeCertificate {
        tape: buffer,
        certificate,
    })
}
