//! Certificates of inclusion and of its opposite: their texts, and the conditions that they have to
//! meet.
#![tactic(auto)]

mod certificate;
mod checking;
mod down_fitting;
mod down_trail;
mod downward;
mod inclusion_reading;
mod joint;
mod laws;
mod printing;
mod ranks;
mod reading;
mod tree;
mod tree_reading;
mod undecided_reading;
mod up_trail;
mod upward;

pub use certificate::fits;
pub use certificate_kinds::Certificate;
pub use checking::{CheckError, Verdict, check};
pub use laws::{
    a_certificate_is_accepted_or_refused, one_certificate_has_the_text,
    printed_certificates_are_read_back,
};
pub use printing::print;
pub use reading::{CertError, read};
