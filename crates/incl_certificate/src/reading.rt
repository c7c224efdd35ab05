//! Reading a certificate.

ghost use Rattle.std.specs.Prelude.{◌≡◌, ◌<◌, IfOk, length};
ghost use Rattle.certificate_kinds.specs.Certificates.{Fits};
ghost use Rattle.incl_certificate.specs.Text.{Reads, certificate_text, judged_certificate};

use crate::inclusion_reading::read_included;
use crate::tree_reading::read_tree;
use crate::undecided_reading::read_undecided;
use certificate_kinds::Certificate;
use std::alloc::Global;
use ta_model::Listed;
use thiserror::Error;

/// Why a text gives no certificate. `at` counts bytes from 0.
#[derive(Clone, Copy, Debug, PartialEq, Eq, Error)]
pub enum CertError {
    /// The line that begins there, or would begin there, is not as it has to be.
    #[error("bad text at byte {at}")]
    BadText { at: u64 },
    /// The name that begins there is that of no state or symbol.
    #[error("unknown name at byte {at}")]
    UnknownName { at: u64 },
    #[error("out of memory")]
    Memory,
}

/// The certificate for these automata with this text.
#[tactic(auto, unfolding(crate::specs::Text::judged_certificate))]
pub fn read(alloc: Global, text: &[u8], a: &Listed, b: &Listed) -> Result<Certificate, CertError>
    requires { length text.now < 4294967295 }
    ensures judged { Reads a.now b.now result (judged_certificate a.now b.now text.now) }
    ensures text { IfOk result (λ c. text.now ≡ certificate_text a.now b.now c) }
    ensures fits { IfOk result (Fits a.now b.now) }
{
    if text.starts_with(b"included\n") {
        return read_included(alloc, text, a, b);
    }
    if text.starts_with(b"undecided\n") {
        return read_undecided(alloc, text, a, b);
    }
    match read_tree(alloc, text, a, b) {
        Ok(nodes) => Ok(Certificate::Tree { nodes }),
        Err(error) => Err(error),
    }
}
